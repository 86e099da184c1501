//! The turns of a periodic reader, with any ticker and exporter.
ghost use Rattle.std.specs.Prelude.{◌≡◌, ◌+◌, ◌≤◌, ◌||◌, None};
ghost use Rattle.metric_io.specs.Counts.{higher_count};
ghost use Rattle.metric_export.specs.ExporterCalls.{calls_of};
ghost use Rattle.metric_periodic.specs.Collections.{Collects, CollectsLast};
ghost use Rattle.metric_periodic.specs.Exported.{gave_none};
ghost use Rattle.metric_periodic.specs.Runs.{IsRun};
ghost use Rattle.metric_periodic.specs.Ticks.{is_woken};
ghost use Rattle.metric_periodic.specs.Turns.{IsCollectedAt, MakesTurns, stop_of, progress};

use crate::counts::Listener;
use crate::exports::Exports;
use crate::tick::{StopCause, Tick, Ticker};
use metric_export::MetricExporter;
use metric_history::{Batch, Book};
use metric_provider::{AllFault, Collector, Gate, Provider};
use std::alloc::Global;
use std::sync::Wait;

/// A seat, the exporter that its batches are handed on to, and who is told the counts while it runs.
pub(crate) struct Reading<'a, E, L> {
    pub seat: Collector,
    pub exports: Exports<E>,
    pub listener: &'a L,
}

/// What a run leaves: the exporter with the counts, why the ticker stopped the run where it did,
/// and the seat where its last collection was refused.
pub(crate) struct Ended<E> {
    pub exports: Exports<E>,
    pub stopped: Option<StopCause>,
    pub kept: Option<Collector>,
}

/// Collects at each tick, hands on what was collected, as [`collect_and_export`] says, and flushes the exporter, until
/// the ticker stops or was asked so many times; then collects once more, at the moment of the last tick, 0 where there
/// was none; lets the exporter try once more what it keeps, and shuts it down.
pub(crate) fn read_to_end<R: Wait, B: Book, G: Gate, E: MetricExporter, T: Ticker<R>, L: Listener>(
    rt: &R,
    alloc: Global,
    provider: &Provider<B, G>,
    turns: u32,
    reading: Reading<'_, E, L>,
    ticker: &mut T,
) -> Ended<E>
    ensures run { IsRun T.next_gives provider.now
        (calls_of E.MetricExporter provider.now.plan) turns
        (progress ticker.old 0 reading.entry.seat reading.entry.exports)
        ticker.new result.stopped result.kept result.exports }
    ensures asked { T.asked ticker.new ≤ T.asked ticker.old + turns }
    ensures all_turns { result.stopped ≡ None →
        higher_count (T.asked ticker.old) turns ≤ T.asked ticker.new }
    ensures told { L.told reading.entry.listener.now
        result.exports.exported result.exports.failed result.exports.delayed
        result.exports.refused result.exports.unflushed }
{
    let listener = reading.listener;
    let mut reading = reading;
    let last = make_turns(rt, alloc, provider, turns, &mut reading, ticker);
    let Reading {
        seat,
        mut exports,
        listener: _,
    } = reading;
    let (collected, kept) = collect_last_at(rt, alloc, provider, seat, last.moment());
    exports.hand_on_collected(alloc, provider.plan(), &collected);
    let _told = exports.retry(alloc, provider.plan());
    exports.shut_down();
    exports.tell(listener);
    Ended {
        exports,
        stopped: stop_of(last),
        kept,
    }
}

// Collects for the last time. The seat is kept only where the collection was refused.
fn collect_last_at<R: Wait, B: Book, G: Gate>(
    rt: &R,
    alloc: Global,
    provider: &Provider<B, G>,
    seat: Collector,
    now: u64,
) -> (Result<Vec<Batch>, AllFault>, Option<Collector>)
    ensures { CollectsLast provider.now now seat result.1 result.0 }
{
    match seat.shutdown(rt, alloc, provider, now) {
        Ok(batches) => (Ok(batches), None),
        Err((seat, fault)) => (Err(fault), Some(seat)),
    }
}

// Collects of each instrument.
fn collect_at<R: Wait, B: Book, G: Gate>(
    rt: &R,
    alloc: Global,
    provider: &Provider<B, G>,
    seat: &mut Collector,
    now: u64,
) -> Result<Vec<Batch>, AllFault>
    ensures { Collects provider.now now seat.old seat.new result }
{
    seat.collect_all(rt, alloc, provider, now)
}

// Why the ticker stops with a tick, where that is a stop.
fn stop_of(last: Tick) -> Option<StopCause>
    ensures { result ≡ stop_of last }
{
    match last {
        Tick::At(_) | Tick::Woken(_) => None,
        Tick::Stop(_, cause) => Some(cause),
    }
}

// Makes the turns. The last tick: a stop, or that of the last turn, at 0 where there was none.
fn make_turns<R: Wait, B: Book, G: Gate, E: MetricExporter, T: Ticker<R>, L: Listener>(
    rt: &R,
    alloc: Global,
    provider: &Provider<B, G>,
    turns: u32,
    reading: &mut Reading<'_, E, L>,
    ticker: &mut T,
) -> Tick
    ensures turns { MakesTurns T.next_gives provider.now
        (calls_of E.MetricExporter provider.now.plan) turns
        (progress ticker.old 0 reading.old.seat reading.old.exports)
        ticker.new result reading.new.seat reading.new.exports }
    ensures asked { T.asked ticker.new ≤ T.asked ticker.old + turns }
    ensures all_turns { stop_of result ≡ None →
        higher_count (T.asked ticker.old) turns ≤ T.asked ticker.new }
{
    let mut last = 0;
    for _turn in 0..turns {
        match ticker.next(rt) {
            Tick::Stop(moment, cause) => return Tick::Stop(moment, cause),
            tick => {
                collect_and_export(rt, alloc, provider, tick, reading);
                last = tick.moment();
            }
        }
    }
    Tick::At(last)
}

// Collects at the moment of a tick, hands on what was collected, lets the exporter try again what it keeps where the
// tick was asked for or nothing was handed on, and flushes it.
fn collect_and_export<R: Wait, B: Book, G: Gate, E: MetricExporter, L: Listener>(
    rt: &R,
    alloc: Global,
    provider: &Provider<B, G>,
    tick: Tick,
    reading: &mut Reading<'_, E, L>,
)
    ensures collected { IsCollectedAt provider.now (calls_of E.MetricExporter provider.now.plan)
        tick
        reading.old.seat reading.new.seat reading.old.exports reading.new.exports }
    ensures told { L.told reading.old.listener.now reading.new.exports.exported
        reading.new.exports.failed reading.new.exports.delayed
        reading.new.exports.refused reading.new.exports.unflushed }
{
    let collected = collect_at(rt, alloc, provider, &mut reading.seat, tick.moment());
    reading
        .exports
        .hand_on_collected(alloc, provider.plan(), &collected);
    let is_due = is_retried(tick, &collected);
    reading.exports.retry_where(alloc, provider.plan(), is_due);
    let _counted = reading.exports.flush();
    reading.exports.tell(reading.listener);
}

// Whether what is kept is tried again: where the tick was asked for, or the collection gave no batch.
fn is_retried(tick: Tick, collected: &Result<Vec<Batch>, AllFault>) -> bool
    ensures { result ≡ (is_woken tick || gave_none collected.now) }
{
    tick.is_woken()
        || match collected {
            Ok(batches) => batches.is_empty(),
            Err(fault) => fault.done.is_empty(),
        }
}
