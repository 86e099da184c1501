//! One event after the other.
ghost use Rattle.std.specs.Prelude.{◌≡◌, ◌≤◌, length, vec_capacity};
ghost use Rattle.metric_core.specs.CoreStands.{AreCellsOf};
ghost use Rattle.metric_core.specs.Steps.{CellStep, CloseStep, CollectStep, GrantStep, HasAllowedSet, IsAllowedSet, RecordStep, Steps, encoded_entry, outcome};
ghost use Rattle.metric_history.specs.Events.{attr_count};

use crate::cell::Cell;
use metric_catalogue::Catalogue;
use metric_contents::{Refusal, SetKey};
use metric_facts::laws::attributes_name_allowed_sets;
use metric_history::{Book, Event, Reply};
use metric_plan::Plan;
use std::alloc::Global;

// A recording whose attributes have this set key or are refused. The refusals come in their order.
fn record<B: Book>(
    cell: &mut Cell<B>,
    recorder: u32,
    encoded: Result<SetKey, Refusal>,
    value: i64,
) -> Reply
    requires { IsAllowedSet cell.old.facts encoded }
    ensures { let entry = encoded_entry recorder encoded value in
        RecordStep B.stands cell.old entry encoded (outcome result cell.new) }
{
    if recorder as usize >= cell.facts().budgets.len() {
        return Reply::Refused(Refusal::UnknownRecorder);
    }
    let set = match encoded {
        Ok(set) => set,
        Err(refusal) => return Reply::Refused(refusal),
    };
    if !cell.facts().admits(&value) {
        return Reply::Refused(Refusal::ValueRange);
    }
    match cell.record(recorder, set, value) {
        Ok(()) => Reply::Accepted,
        Err(refusal) => Reply::Refused(refusal),
    }
}

// A collection by a reader.
fn collect<B: Book>(alloc: Global, cell: &mut Cell<B>, reader: u32, now: u64) -> Reply
    ensures { CollectStep B.stands cell.old reader now (outcome result cell.new) }
{
    if reader as usize >= cell.facts().delta.len() {
        return Reply::Refused(Refusal::UnknownReader);
    }
    match cell.collect(alloc, reader, now) {
        Ok(batch) => Reply::Collected(batch),
        Err(refusal) => Reply::Refused(refusal),
    }
}

// A close.
fn close<B: Book>(cell: &mut Cell<B>) -> Reply
    ensures { CloseStep B.stands cell.old (outcome result cell.new) }
{
    match cell.close() {
        Ok(()) => Reply::Done,
        Err(refusal) => Reply::Refused(refusal),
    }
}

// A grant to a recorder.
fn grant<B: Book>(cell: &mut Cell<B>, recorder: u32, amount: u64) -> Reply
    ensures { GrantStep B.stands cell.old recorder amount (outcome result cell.new) }
{
    if recorder as usize >= cell.facts().budgets.len() {
        return Reply::Refused(Refusal::UnknownRecorder);
    }
    match cell.grant(recorder, amount) {
        Ok(()) => Reply::Granted,
        Err(refusal) => Reply::Refused(refusal),
    }
}

// Answers an event of the cell's instrument.
fn answer<'a, B: Book>(
    alloc: Global,
    catalogue: &Catalogue,
    cell: &mut Cell<B>,
    event: &'a Event,
    room: &mut Vec<&'a str>,
) -> Reply
    requires set { HasAllowedSet catalogue.now cell.old.facts event.now }
    requires room { attr_count event.now ≤ vec_capacity room.old }
    ensures room { vec_capacity room.new ≡ vec_capacity room.old }
    ensures step { let out = outcome result cell.new in
        CellStep B.stands catalogue.now cell.old event.now out }
{
    match event {
        Event::Record {
            recorder,
            instrument,
            attrs,
            value,
        } => {
            let encoded = catalogue.encode_with_room(*instrument, attrs.as_slice(), room);
            record(cell, *recorder, encoded, *value)
        }
        Event::Collect { reader, now, .. } => collect(alloc, cell, *reader, *now),
        Event::Close { .. } => close(cell),
        Event::Grant {
            recorder,
            amount,
            ..
        } => grant(cell, *recorder, *amount),
    }
}

/// Answers one event. The room holds as many keys as it has attributes; what it has held is lost.
pub fn step<'a, B: Book>(
    alloc: Global,
    plan: &Plan,
    cells: &mut [Cell<B>],
    event: &'a Event,
    room: &mut Vec<&'a str>,
) -> Reply
    requires cells { AreCellsOf plan.now.facts.instruments cells.old }
    requires room { attr_count event.now ≤ vec_capacity room.old }
    ensures room { vec_capacity room.new ≡ vec_capacity room.old }
    ensures steps { let out = outcome result cells.new in
        Steps B.stands plan.now.facts cells.old event.now out }
{
    attributes_name_allowed_sets();
    let at = event.instrument() as usize;
    if at >= cells.len() {
        return Reply::Refused(Refusal::UnknownInstrument);
    }
    answer(alloc, plan.catalogue(), &mut cells[at], event, room)
}
