//! Changes as rows.
use crate::broken::{Broken, place_cell, words_cell};
use crate::change_cells::{after_cell, before_cell};
use crate::comparing::{Claim, Comparison};
use crate::rooms::Rooms;
use crate::rows::{instrument_name, meter_name, reader_name};
use metric_diff::{Change, Programs};
use metric_kit_commands::KitFault;
use metric_sheet::{Cell, Row, Sheet};
use metric_views::Stream;
use std::alloc::{AllocError, Global};

static TITLES: [&str; 8] = [
    "change", "breaks", "reader", "meter", "name", "what", "before", "after",
];

/// Changes of a comparison, then the queries that they break, then what becomes of programs that were made of the old
/// catalogue, and last whether the certificate holds.
#[derive(Clone, Copy)]
pub(crate) struct ChangeSheet<'a> {
    pub comparison: &'a Comparison,
    pub changes: &'a [Change],
    pub broken: &'a [Broken],
}

impl Sheet for ChangeSheet<'_> {
    fn titles(&self) -> &'static [&'static str] {
        TITLES.as_slice()
    }

    fn rows(&self) -> usize {
        let rows = self.changes.len().saturating_add(self.broken.len());
        let has_claim = !matches!(self.comparison.claim, Claim::Absent);
        rows.saturating_add(usize::from(self.tells_programs()))
            .saturating_add(usize::from(has_claim))
    }

    fn row(&self, alloc: Global, number: usize) -> Result<Vec<Cell>, AllocError> {
        let mut row = Row::new(alloc);
        let behind = number.wrapping_sub(self.changes.len());
        match (self.changes.get(number), self.broken.get(behind)) {
            (Some(change), _) => put_change(&mut row, self.comparison, change),
            (None, Some(broken)) => put_broken(&mut row, self.comparison, broken),
            (None, None) if self.tells_programs() && behind == self.broken.len() => {
                put_programs(&mut row, self.comparison);
            }
            (None, None) => put_claim(&mut row, &self.comparison.claim),
        }
        row.cells()
    }
}

impl ChangeSheet<'_> {
    // Where nothing changes, nothing is told of programs that go on.
    fn tells_programs(&self) -> bool {
        !self.changes.is_empty() || !matches!(self.comparison.programs, Programs::GoOn)
    }
}

// The cells of a query that is broken: of what the change is that is the reason, the place of the query, and what is told.
fn put_broken(row: &mut Row, comparison: &Comparison, broken: &Broken) {
    row.text("broken");
    row.flag(true);
    match &broken.reason {
        Some(change) => put_subject(row, comparison, change),
        None => put_nothings(row),
    }
    row.text("query");
    row.put(place_cell(row.alloc(), broken));
    row.put(words_cell(row.alloc(), comparison, broken));
}

// The cells of a change.
fn put_change(row: &mut Row, comparison: &Comparison, change: &Change) {
    let (word, what) = words_of(change.kind());
    row.text(word);
    row.flag(change.is_breaking());
    put_subject(row, comparison, change);
    match *change {
        Change::BudgetChanged { recorder, .. } => {
            let recorder = recorder_name(&comparison.old, recorder);
            row.put(budget_word(row.alloc(), recorder));
        }
        _ => row.text(what),
    }
    row.put(before_cell(row.alloc(), comparison, change));
    row.put(after_cell(row.alloc(), comparison, change));
}

// What a kind of change says: that something is gone, new or differs, and what.
fn words_of(kind: &'static str) -> (&'static str, &'static str) {
    match kind.split_once('-') {
        Some(words) => words,
        None => ("differs", kind),
    }
}

// The reader, the meter and the name of what a change is of.
fn put_subject(row: &mut Row, comparison: &Comparison, change: &Change) {
    let Comparison { old, new, .. } = comparison;
    match *change {
        Change::ReaderGone { old: number } | Change::ReaderRenamed { old: number, .. } => {
            put_reader(row, old, number);
        }
        Change::ReaderNew { new: number } => put_reader(row, new, number),
        Change::StreamGone { old: number }
        | Change::CollisionGone { old: number }
        | Change::SeriesChanged { old: number, .. }
        | Change::StreamChanged { old: number, .. }
        | Change::KeyGone { old: number, .. } => {
            put_stream(row, old, comparison.old_streams.as_slice().get(number));
        }
        Change::StreamNew { new: number }
        | Change::CollisionNew { new: number }
        | Change::KeyNew { new: number, .. } => {
            put_stream(row, new, comparison.new_streams.as_slice().get(number));
        }
        Change::InstrumentGone { old: number }
        | Change::InstrumentChanged { old: number, .. }
        | Change::DeclaredKeyGone { old: number, .. }
        | Change::KeyTurned { old: number, .. }
        | Change::ValueGone { old: number, .. }
        | Change::CombinationGone { old: number, .. }
        | Change::BudgetChanged { old: number, .. }
        | Change::HeadroomChanged { old: number, .. } => put_instrument(row, old, number),
        Change::InstrumentNew { new: number }
        | Change::DeclaredKeyNew { new: number, .. }
        | Change::ValueNew { new: number, .. }
        | Change::CombinationNew { new: number, .. } => put_instrument(row, new, number),
        Change::RecorderGone { old: number } => put_recorder(row, old, number),
        Change::RecorderNew { new: number } => put_recorder(row, new, number),
    }
}

fn put_reader(row: &mut Row, side: &Rooms, number: usize) {
    row.text(reader_at(side, number));
    row.nothing();
    row.nothing();
}

fn put_stream(row: &mut Row, side: &Rooms, stream: Option<&Stream>) {
    let Some(stream) = stream else {
        return put_nothings(row);
    };
    row.text(reader_name(&side.declared, stream));
    row.text(meter_name(&side.declared.catalogue, stream.instrument));
    row.text(stream.name.get().as_str());
}

// No reader, no meter and no name.
fn put_nothings(row: &mut Row) {
    row.nothing();
    row.nothing();
    row.nothing();
}

fn put_instrument(row: &mut Row, side: &Rooms, number: usize) {
    let number = u32::try_from(number).unwrap_or(u32::MAX);
    row.nothing();
    row.text(meter_name(&side.declared.catalogue, number));
    row.text(instrument_name(&side.declared.catalogue, number));
}

fn put_recorder(row: &mut Row, side: &Rooms, number: usize) {
    row.nothing();
    row.nothing();
    row.text(recorder_name(side, number));
}

fn budget_word(alloc: Global, recorder: &str) -> Result<Cell, AllocError> {
    Ok(Cell::Text(format!(in alloc; "budget of {recorder}")?))
}

/// The name of the reader of a number.
pub(crate) fn reader_at(side: &Rooms, number: usize) -> &str {
    match side.declared.config.readers().get(number) {
        Some(reader) => reader.name.as_str(),
        None => "",
    }
}

fn recorder_name(side: &Rooms, number: usize) -> &str {
    match side.declared.catalogue.recorders().get(number) {
        Some(recorder) => recorder.name.as_str(),
        None => "",
    }
}

// What becomes of programs that were made of the old catalogue.
fn put_programs(row: &mut Row, comparison: &Comparison) {
    row.text("programs");
    row.flag(false);
    match &comparison.programs {
        Programs::GoOn => {
            put_nothings(row);
            put_going(row, "go on", None);
        }
        Programs::GoOnButInC => {
            put_nothings(row);
            put_going(row, "go on", Some("but for those in C: numbers differ"));
        }
        Programs::OtherInstrument { old, difference } => {
            put_instrument(row, &comparison.old, *old);
            put_going(row, "made again", Some(difference.as_str()));
        }
        Programs::NoRecorder { old } => {
            put_recorder(row, &comparison.old, *old);
            put_going(row, "made again", Some("there is no such recorder"));
        }
    }
}

fn put_going(row: &mut Row, what: &str, why: Option<&str>) {
    row.text(what);
    row.nothing();
    match why {
        Some(why) => row.text(why),
        None => row.nothing(),
    }
}

// Whether the certificate holds.
fn put_claim(row: &mut Row, claim: &Claim) {
    row.text("certificate");
    row.flag(false);
    put_nothings(row);
    match claim {
        Claim::Fails(fault) => {
            row.text("fails");
            row.nothing();
            row.put(fault_cell(row.alloc(), fault));
        }
        _ => {
            row.text("holds");
            row.nothing();
            row.nothing();
        }
    }
}

fn fault_cell(alloc: Global, fault: &KitFault) -> Result<Cell, AllocError> {
    Ok(Cell::Text(format!(in alloc; "{fault}")?))
}
