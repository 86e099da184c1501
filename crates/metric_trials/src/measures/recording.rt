//! What recordings and collections by a seat cost, and set keys: made of attributes, and looked for among combinations.
use crate::asserted::{OrFail, Stop};
use crate::inputs::attributes;
use crate::measures::Case;
use crate::measures::audits::audit_once;
use crate::measures::calls::{Calls, How, LIST};
use crate::measures::floors::EVENTS;
use crate::measures::walk::Walk;
use crate::measures::watch::Watch;
use crate::seats::{Seats, seats_of};
use crate::series::recordings;
use metric_aggregate::PointValue;
use metric_audit::Audited;
use metric_catalogue::Catalogue;
use metric_combinations::Combinations;
use metric_contents::Attr;
use metric_history::{Batch, Book, Event};
use metric_marked::Marked;
use metric_provider::Measurement;
use std::alloc::Global;

/// Does an act of a seat. A number that depends on it; nothing for an unknown act.
pub(crate) fn done<R: Stop>(
    rt: &R,
    alloc: Global,
    case: &Case<'_>,
    watch: &mut Watch,
) -> Option<u64> {
    match case.act {
        "encode" => Some(encode(rt, alloc, case, watch)),
        "combined" => Some(ask_for_rows(rt, alloc, case, watch)),
        "record-new" => Some(record_new(rt, alloc, case, watch)),
        "record" => Some(record_held::<R, Marked>(rt, alloc, case, watch)),
        "record-kept" => Some(record_held::<R, Audited>(rt, alloc, case, watch)),
        "collect" => Some(number_of(&batch_of(rt, alloc, case, watch))),
        "audit" => Some(audit_once(rt, alloc, case, watch)),
        _ => None,
    }
}

// How many recordings there are in a round: whole lists, where they are made in lists.
fn count_of(case: &Case<'_>) -> u32 {
    match case.how {
        How::Lists => case.size.div_ceil(LIST).saturating_mul(LIST),
        _ => case.size,
    }
}

fn calls_of<'a>(case: &Case<'_>, recordings: &'a [Measurement]) -> Calls<'a> {
    Calls {
        how: case.how,
        instrument: 0,
        series: case.size,
        recordings,
    }
}

// Records each series of the first instrument once. How many recordings there were.
fn record_new<R: Stop>(rt: &R, alloc: Global, case: &Case<'_>, watch: &mut Watch) -> u64 {
    let recordings = recordings(rt, alloc, count_of(case), case.size);
    let mut seats: Seats<Marked> = seats_of(rt, alloc, case.input.plan(rt, alloc), 1);
    let recorder = seats.recorders.last_mut().or_fail(rt);
    watch.start(rt, recordings.len() as u64);
    let made = calls_of(case, &recordings).repeat(rt, &seats.provider, recorder, 1);
    watch.stop(rt);
    made
}

// Records series that are held. How many recordings there were.
fn record_held<R: Stop, B: Book>(rt: &R, alloc: Global, case: &Case<'_>, watch: &mut Watch) -> u64 {
    let count = count_of(case);
    let recordings = recordings(rt, alloc, count, case.size);
    let calls = calls_of(case, &recordings);
    let rounds = (case.events / count.max(1)).max(1);
    let mut seats: Seats<B> = seats_of(rt, alloc, case.input.plan(rt, alloc), 1);
    let recorder = seats.recorders.last_mut().or_fail(rt);
    calls.repeat(rt, &seats.provider, recorder, 1);
    watch.start(rt, u64::from(rounds) * u64::from(count));
    let made = calls.repeat(rt, &seats.provider, recorder, rounds);
    watch.stop(rt);
    made
}

/// What the first reader collects of the first instrument, with one recording of each series.
pub(crate) fn batch_of<R: Stop>(
    rt: &R,
    alloc: Global,
    case: &Case<'_>,
    watch: &mut Watch,
) -> Batch {
    let recordings = recordings(rt, alloc, count_of(case), case.size);
    let mut seats: Seats<Marked> = seats_of(rt, alloc, case.input.plan(rt, alloc), 1);
    let recorder = seats.recorders.last_mut().or_fail(rt);
    calls_of(case, &recordings).repeat(rt, &seats.provider, recorder, 1);
    let collector = seats.collectors.last_mut().or_fail(rt);
    watch.start(rt, u64::from(case.size));
    let batch = collector.collect(rt, alloc, &seats.provider, 0, 0);
    watch.stop(rt);
    batch.or_fail(rt)
}

// A number that depends on each point of a batch.
fn number_of(batch: &Batch) -> u64 {
    let mut number = batch.mark;
    for stream in batch.streams.as_slice() {
        for point in stream.points.as_slice() {
            number = number.wrapping_add(number_of_value(&point.value));
        }
    }
    number
}

fn number_of_value(value: &PointValue) -> u64 {
    match value {
        PointValue::Sum(number) | PointValue::Last(number) => number.unsigned_abs(),
        PointValue::Buckets { count, counts, .. } => {
            let mut number = *count;
            for more in counts.as_slice() {
                number = number.wrapping_add(*more);
            }
            number
        }
    }
}

// Makes set keys of the attributes of the script's recordings. The sum of their entries that differ.
fn encode<R: Stop>(rt: &R, alloc: Global, case: &Case<'_>, watch: &mut Watch) -> u64 {
    let catalogue = Catalogue::read(alloc, case.input.catalogue.as_str()).or_fail(rt);
    let mut lists = Vec::new(alloc);
    for event in &case.input.events {
        if let Event::Record { attrs, .. } = event {
            let list = attributes(rt, alloc, attrs.as_slice());
            lists.push(list).or_fail(rt);
        }
    }
    watch.start(rt, u64::from(case.events));
    let sum = encode_all(rt, &catalogue, &lists, case.events);
    watch.stop(rt);
    sum
}

fn encode_all<R: Stop>(rt: &R, catalogue: &Catalogue, all: &[Vec<Attr<'_>>], events: u32) -> u64 {
    let walk = Walk::new();
    let mut sum: u64 = 0;
    let mut at = 0;
    for _ in 0..events {
        at = walk.after(at, all.len());
        if let Some(attributes) = all.get(at) {
            let set = catalogue.encode(0, attributes).or_fail(rt);
            sum = sum.wrapping_add(u64::from(set[0] ^ set[2]));
        }
    }
    sum
}

// Asks of one combination of the first instrument after the other whether it is one. How many are.
fn ask_for_rows<R: Stop>(rt: &R, alloc: Global, case: &Case<'_>, watch: &mut Watch) -> u64 {
    let catalogue = Catalogue::read(alloc, case.input.catalogue.as_str()).or_fail(rt);
    let instrument = catalogue.instruments().first().or_fail(rt);
    let combinations = instrument.allowed.as_ref().or_fail(rt);
    watch.start(rt, u64::from(EVENTS));
    let found = count_found(combinations);
    watch.stop(rt);
    found
}

fn count_found(combinations: &Combinations) -> u64 {
    let rows = combinations.rows();
    let walk = Walk::new();
    let mut found: u64 = 0;
    let mut at = 0;
    for _ in 0..EVENTS {
        at = walk.after(at, rows.len());
        if let Some(row) = rows.get(at)
            && combinations.contains(row)
        {
            found = found.wrapping_add(1);
        }
    }
    found
}
