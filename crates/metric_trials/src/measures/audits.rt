//! What the audit of a journal costs.
use crate::asserted::{OrFail, Stop};
use crate::measures::Case;
use crate::measures::calls::{Calls, How};
use crate::measures::watch::Watch;
use crate::seats::{Seats, audited, seats_of};
use crate::series::recordings;
use metric_audit::Audited;
use metric_history::Batch;
use std::alloc::Global;

// How many entries come between two batches of a reader.
const BETWEEN: u32 = 1_000;

/// Makes a journal of so many series with its slips and batches, and audits it. How many entries and batches there are.
/// Each reader's batches are made once more from the entries.
pub(crate) fn audit_once<R: Stop>(
    rt: &R,
    alloc: Global,
    case: &Case<'_>,
    watch: &mut Watch,
) -> u64 {
    let plan = case.input.plan(rt, alloc);
    let mut seats: Seats<Audited> = seats_of(rt, alloc, case.input.plan(rt, alloc), 1);
    let batches = batches_of(rt, alloc, case, &mut seats);
    let totals = seats.finish(rt, alloc);
    watch.start(rt, u64::from(case.events));
    let entries = audited(rt, alloc, &plan, 0, &totals, &batches);
    watch.stop(rt);
    entries.or_fail(rt).wrapping_add(batches.len() as u64)
}

// The batches of all readers after each time that the recordings were made.
fn batches_of<R: Stop>(
    rt: &R,
    alloc: Global,
    case: &Case<'_>,
    seats: &mut Seats<Audited>,
) -> Vec<Batch> {
    let recordings = recordings(rt, alloc, BETWEEN, case.size);
    let calls = Calls {
        how: How::Sets,
        instrument: 0,
        series: case.size,
        recordings: &recordings,
    };
    let mut batches = Vec::new(alloc);
    for now in 0..case.events / BETWEEN {
        let recorder = seats.recorders.last_mut().or_fail(rt);
        calls.repeat(rt, &seats.provider, recorder, 1);
        collect_each(rt, alloc, seats, u64::from(now), &mut batches);
    }
    batches
}

fn collect_each<R: Stop>(
    rt: &R,
    alloc: Global,
    seats: &mut Seats<Audited>,
    now: u64,
    batches: &mut Vec<Batch>,
) {
    for collector in &mut seats.collectors {
        let batch = collector.collect(rt, alloc, &seats.provider, 0, now);
        batches.push(batch.or_fail(rt)).or_fail(rt);
    }
}
