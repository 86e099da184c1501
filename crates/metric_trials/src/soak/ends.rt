//! What a round came to, compared.
use crate::asserted::{OrFail, Stop, hold};
use crate::seats::audited;
use crate::soak::INSTRUMENTS;
use crate::soak::figures::{ACCEPTED, BATCHES, ENTRIES, Figures};
use crate::soak::reading::Watcher;
use crate::soak::recording::{NOTHING, Tally, Worker};
use metric_contents::Kind;
use metric_history::{Batch, Book};
use metric_plan::Plan;
use metric_provider::{NoGate, Provider, Recorder, Total, Totals};
use std::alloc::Global;
use std::mem;

/// The threads of recorders and readers after their end.
#[derive(Drop)]
pub(crate) struct Ended {
    pub workers: Vec<Worker>,
    pub watchers: Vec<Watcher>,
}

/// Ends the provider, and compares its totals with what each recorder was told and what each reader saw. Where the
/// books keep entries, all batches are audited.
pub(crate) fn settle<R: Stop, B: Book>(
    rt: &R,
    alloc: Global,
    provider: Provider<B, NoGate>,
    ended: Ended,
    plan: &Plan,
    figures: &mut Figures,
) {
    let mut told = [NOTHING; INSTRUMENTS];
    let Ended {
        workers,
        mut watchers,
    } = ended;
    let recorders = recorders_of(rt, alloc, workers, &mut told, figures);
    let totals = provider.finish(rt, alloc, recorders);
    hold(rt, totals.is_ok(), "the totals are not settled");
    let totals = totals.ok().or_fail(rt);
    for (number, tally) in told.iter().enumerate() {
        let total = totals.instruments.get(number).or_fail(rt);
        compare(rt, plan, number, total, tally, &watchers);
    }
    for watcher in watchers.iter_mut() {
        figures.add_all(&watcher.figures);
        let last = mem::replace(&mut watcher.last, Vec::new(alloc));
        watcher.keep(rt, last);
    }
    if B::KEEPS_ENTRIES {
        audit_all(rt, alloc, plan, &totals, &mut watchers, figures);
    }
}

// The seats of the recorders, with what all of them were told of each instrument.
fn recorders_of<R: Stop>(
    rt: &R,
    alloc: Global,
    workers: Vec<Worker>,
    told: &mut [Tally; INSTRUMENTS],
    figures: &mut Figures,
) -> Vec<Recorder> {
    let mut recorders = Vec::new(alloc);
    for worker in workers {
        figures.add_all(&worker.figures);
        add_tallies(rt, told, &worker, figures);
        recorders.push(worker.into_seat()).ok().or_fail(rt);
    }
    recorders
}

// Adds what a recorder counted, which has to be what its seat says.
fn add_tallies<R: Stop>(
    rt: &R,
    told: &mut [Tally; INSTRUMENTS],
    worker: &Worker,
    figures: &mut Figures,
) {
    let mut number = 0;
    for (all, own) in told.iter_mut().zip(&worker.told) {
        let seat = worker.recorder.accepted(number).or_fail(rt);
        hold(
            rt,
            seat.count == own.count,
            "a seat was told of other recordings",
        );
        all.count = all.count.wrapping_add(own.count);
        all.sum = all.sum.wrapping_add(own.sum);
        figures.add(ACCEPTED, own.count);
        number = number.wrapping_add(1);
    }
}

// Compares the total of an instrument with what the recorders were told and what each reader saw. Last values have no
// sum.
fn compare<R: Stop>(
    rt: &R,
    plan: &Plan,
    number: usize,
    total: &Total,
    tally: &Tally,
    watchers: &[Watcher],
) {
    let is_told = total.count == tally.count && total.sum == i128::from(tally.sum);
    hold(rt, is_told, "the total is not what recorders were told");
    let kind = plan.catalogue().instruments().get(number).or_fail(rt).kind;
    for watcher in watchers {
        let last = watcher.last.get(number).or_fail(rt);
        let sum = i128::from(*watcher.sums.get(number).or_fail(rt));
        let is_seen = last.mark == total.count && (kind == Kind::Gauge || total.sum == sum);
        hold(rt, is_seen, "the batches do not come to the total");
    }
}

// Audits the batches of both readers of each instrument.
fn audit_all<R: Stop>(
    rt: &R,
    alloc: Global,
    plan: &Plan,
    totals: &Totals,
    watchers: &mut [Watcher],
    figures: &mut Figures,
) {
    for instrument in 0..INSTRUMENTS as u32 {
        let batches = batches_of(rt, alloc, watchers, instrument);
        figures.add(BATCHES, batches.len() as u64);
        let entries = audited(rt, alloc, plan, instrument, totals, &batches);
        hold(rt, entries.is_ok(), "the audit fails");
        figures.add(ENTRIES, entries.or_fail(rt));
    }
}

// The batches of both readers of an instrument, which they then have no more.
fn batches_of<R: Stop>(
    rt: &R,
    alloc: Global,
    watchers: &mut [Watcher],
    instrument: u32,
) -> Vec<Batch> {
    let mut batches = Vec::new(alloc);
    for watcher in watchers {
        let kept = watcher.kept.get_mut(instrument as usize).or_fail(rt);
        push_all(rt, &mut batches, mem::replace(kept, Vec::new(alloc)));
    }
    batches
}

fn push_all<R: Stop>(rt: &R, batches: &mut Vec<Batch>, more: Vec<Batch>) {
    for batch in more {
        batches.push(batch).ok().or_fail(rt);
    }
}
