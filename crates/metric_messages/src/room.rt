//! How often an instrument may be recorded, and why not more often.
ghost use Rattle.std.specs.Prelude.{◌≡◌, IfOk, slice_get};
ghost use Rattle.metric_messages.specs.Places.{place_of_series, streams_in};

use crate::cause::Named;
use crate::named::{NamedStream, instrument_of, stream_of};
use crate::places::{Place, placed};
use crate::sentence::write_two;
use crate::sources::Pair;
use crate::stream_places::series_place;
use metric_bounds::{amount, high, low};
use metric_contents::{Instrument, Kind};
use metric_lint::{Headroom, Limit, headrooms, sets_of};
use metric_resolve::resolve_streams;
use metric_views::Stream;
use std::alloc::{AllocError, Global};
use std::fmt;

// What is told of an instrument whose budgets are together more than is safe for this reason.
pub(crate) fn room_message(
    alloc: Global,
    pair: Pair<'_>,
    number: u32,
    reason: Limit,
) -> Result<String, AllocError> {
    let named = instrument_of(pair.catalogue, number);
    let rooms = headrooms(alloc, pair.catalogue, pair.config)?;
    let place = number as usize;
    match (
        rooms.as_slice().get(place),
        pair.catalogue.instruments().get(place),
    ) {
        (Some(room), Some(instrument)) => words_of_room(alloc, named, *room, reason, instrument),
        _ => format!(in alloc; "{named} may be recorded more often than is safe"),
    }
}

fn words_of_room(
    alloc: Global,
    named: Named<'_>,
    room: Headroom,
    reason: Limit,
    instrument: &Instrument,
) -> Result<String, AllocError> {
    let Headroom { total, most, .. } = room;
    let why = why_of(total, reason, instrument);
    let remedy = remedy_of(reason, instrument.kind);
    format!(in alloc;
        "{named}: its budgets and its spare are {total} recordings together, and at most {most} are safe: {why}{remedy}"
    )
}

// What makes room for more, where its budgets need not be lower.
fn remedy_of(limit: Limit, kind: Kind) -> &'static str {
    match (limit, kind) {
        (Limit::Amount, Kind::Gauge) => "; a greater unit, as KiBy for By, makes room for more",
        _ => "",
    }
}

// Why an instrument may not be recorded so often.
#[derive(Clone, Copy)]
enum Why {
    // What is counted is this, and may be that at most.
    Above(&'static str, u128, u128),
    // The least sum is this.
    Low(i128),
    // The greatest sum is this.
    High(i128),
}

fn why_of(total: u128, limit: Limit, instrument: &Instrument) -> Why {
    let count = u64::try_from(total).unwrap_or(u64::MAX);
    match limit {
        // Too many series are told of at their stream.
        Limit::Count | Limit::Series { .. } => {
            Why::Above("how many recordings", total, u128::from(u64::MAX))
        }
        Limit::Amount => amount_of(count, instrument),
        Limit::SumLow => Why::Low(low(count, instrument.lo)),
        Limit::SumHigh => Why::High(high(count, instrument.hi)),
    }
}

fn amount_of(count: u64, instrument: &Instrument) -> Why {
    let (lo, hi) = (instrument.lo, instrument.hi);
    let apart = if lo <= hi { amount(count, lo, hi) } else { 0 };
    let what = match instrument.kind {
        Kind::Gauge => "how far its settings are above the least value, added up,",
        _ => "how far two sums are apart",
    };
    Why::Above(what, apart, u128::from(u64::MAX))
}

impl fmt::Display for Why {
    fn fmt<W: fmt::Write>(&self, f: &mut fmt::Formatter<W>) -> fmt::Result {
        match *self {
            Why::Above(what, bound, most) => {
                f.write_str(what)?;
                write_two(f, (" may be ", &bound), (", above ", &most), "")
            }
            Why::Low(bound) => {
                write_two(
                    f,
                    ("a sum may fall to ", &bound),
                    (", below ", &i64::MIN),
                    "",
                )
            }
            Why::High(bound) => {
                write_two(
                    f,
                    ("a sum may rise to ", &bound),
                    (", above ", &i64::MAX),
                    "",
                )
            }
        }
    }
}

// A stream that may have more series than its limit.
pub(crate) fn series_message(
    alloc: Global,
    pair: Pair<'_>,
    instrument: u32,
    number: u32,
) -> Result<(Place, String), AllocError>
    ensures { IfOk result (λ told. told.0
        ≡ place_of_series (slice_get (streams_in pair.entry) number)) }
{
    let streams = resolve_streams(alloc, pair.catalogue, pair.config)?;
    let stream = streams.as_slice().get(number as usize);
    placed(
        series_place(streams.as_slice(), number),
        words_of_series(alloc, pair, instrument, number, stream),
    )
}

fn words_of_series(
    alloc: Global,
    pair: Pair<'_>,
    instrument: u32,
    number: u32,
    stream: Option<&Stream>,
) -> Result<String, AllocError> {
    let Some(stream) = stream else {
        return format!(in alloc; "stream {number} may have more series than its limit");
    };
    let told = stream_of(alloc, pair, number, stream)?;
    let sets = sets_of(alloc, pair.catalogue, stream)?;
    let limit = stream.limit;
    let named = instrument_of(pair.catalogue, instrument);
    format!(in alloc;
        "{told} may have {sets} sets of attributes, and its limit is {limit}: raise it, keep fewer keys, or lower the budgets and the spare of {named} to {limit} recordings together"
    )
}
