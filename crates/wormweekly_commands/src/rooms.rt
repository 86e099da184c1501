//! How often each instrument may be recorded, as rows.
ghost use Rattle.std.specs.Prelude.{IfErr, IfOk};
ghost use Rattle.metric_kit_commands.specs.Declarations.{IsDeclaredFault};
ghost use Rattle.wormweekly_commands.specs.Answers.{AreRooms};

use crate::ending::ends_early;
use crate::fleet::fleet_limit;
use crate::rows::{instrument_word, meter_name};
use crate::time::lasting;
use metric_base::Items;
use metric_bounds::summed;
use metric_command_lines::Options;
use metric_contents::Instrument;
use metric_kit_commands::{Declared, KitFault, declared_of};
use metric_lint::{Headroom, Limit, headrooms};
use metric_parts::Parts;
use metric_resolve::resolve_streams;
use metric_sheet::{Cell, Row, Sheet};
use std::alloc::{AllocError, Global};

static TITLES: [&str; 11] = [
    "number",
    "meter",
    "instrument",
    "kind",
    "total",
    "lasts",
    "most",
    "most lasts",
    "then",
    "fleet",
    "early",
];

// So many of them stand in each table: the last one only where it is asked how long recordings last.
const MOST_TITLES: usize = 10;

static FIELDS: [&str; 11] = [
    "number",
    "meter",
    "instrument",
    "kind",
    "total",
    "total_seconds",
    "most",
    "most_seconds",
    "then",
    "fleet",
    "early",
];

/// The headroom of each instrument, and of each whether some stream keeps its sum.
pub(crate) struct Rooms {
    pub declared: Declared,
    pub rooms: Items<Headroom>,
    pub summed: Items<bool>,
}

impl Drop for Rooms {
    fn drop(self) {
        let Rooms {
            declared: _declared,
            rooms: _rooms,
            summed: _summed,
        } = self;
    }
}

/// The headroom of each instrument that the parts declare.
pub(crate) fn rooms_of(alloc: Global, parts: &Parts<'_>) -> Result<Rooms, KitFault>
    ensures ok { IfOk result (AreRooms parts.now) }
    ensures first { IfErr result (λ fault. IsDeclaredFault fault parts.now) }
{
    let declared = declared_of(alloc, parts)?;
    let rooms = headrooms(alloc, &declared.catalogue, &declared.config)?;
    let streams = resolve_streams(alloc, &declared.catalogue, &declared.config)?;
    let count = declared.catalogue.instruments().len();
    let summed = summed(alloc, streams.as_slice(), count)?;
    Ok(Rooms {
        declared,
        rooms,
        summed,
    })
}

/// The headrooms as they are asked for.
#[derive(Clone, Copy)]
pub(crate) struct RoomSheet<'a> {
    pub rooms: &'a Rooms,
    pub options: Options,
}

impl Sheet for RoomSheet<'_> {
    fn titles(&self) -> &'static [&'static str] {
        let titles = if self.options.json {
            FIELDS.as_slice()
        } else {
            TITLES.as_slice()
        };
        if self.options.lasts > 0 {
            titles
        } else {
            titles.get(..MOST_TITLES).unwrap_or(titles)
        }
    }

    fn rows(&self) -> usize {
        self.rooms.rooms.len()
    }

    fn row(&self, alloc: Global, number: usize) -> Result<Vec<Cell>, AllocError> {
        let instruments = self.rooms.declared.catalogue.instruments();
        let room = self.rooms.rooms.as_slice().get(number);
        let mut row = Row::new(alloc);
        if let (Some(room), Some(instrument)) = (room, instruments.get(number)) {
            self.put_room(&mut row, number, room, instrument);
        }
        row.cells()
    }
}

impl RoomSheet<'_> {
    // What the instrument is, how often it may be recorded, and what would fail first.
    fn put_room(&self, row: &mut Row, number: usize, room: &Headroom, instrument: &Instrument) {
        row.number(number as u128);
        let place = u32::try_from(number).unwrap_or(u32::MAX);
        row.text(meter_name(&self.rooms.declared.catalogue, place));
        row.text(instrument.name.get().as_str());
        row.text(instrument_word(instrument.kind));
        self.put_lasting(row, room.total);
        self.put_lasting(row, u128::from(room.most));
        row.text(limit_word(room.limit));
        row.text(self.fleet_word(number, room, instrument));
        if self.options.lasts > 0 {
            row.flag(ends_early(self.options, room));
        }
    }

    // Whether the sums of the fleet fit, or what does not.
    fn fleet_word(&self, number: usize, room: &Headroom, instrument: &Instrument) -> &'static str {
        let is_summed = self.rooms.summed.as_slice().get(number) == Some(&true);
        let fleet = room
            .total
            .saturating_mul(u128::from(self.options.instances));
        match fleet_limit(fleet, instrument, is_summed) {
            None => "fits",
            Some(limit) => limit_word(limit),
        }
    }

    // A number of recordings, and how long they last.
    fn put_lasting(&self, row: &mut Row, recordings: u128) {
        row.number(recordings);
        let rate = u128::from(self.options.rate.max(1));
        if self.options.json {
            row.number(recordings / rate);
        } else {
            row.put(lasting_cell(row.alloc(), recordings, rate));
        }
    }
}

fn lasting_cell(alloc: Global, recordings: u128, rate: u128) -> Result<Cell, AllocError> {
    Ok(Cell::Text(lasting(alloc, recordings, rate)?))
}

// What fails first with one recording more, in words.
fn limit_word(limit: Limit) -> &'static str {
    match limit {
        Limit::Count => "too many recordings",
        Limit::Amount => "values too far apart",
        Limit::SumLow => "the least sum",
        Limit::SumHigh => "the greatest sum",
        Limit::Series { .. } => "the limit of a stream",
    }
}
