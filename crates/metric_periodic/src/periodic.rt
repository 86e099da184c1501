//! The periodic reader.
ghost use Rattle.std.specs.Prelude.{◌≡◌, ◌+◌, ◌<◌, ◌≤◌, IsSome, None};
ghost use Rattle.metric_io.specs.Counts.{higher_count};
ghost use Rattle.metric_export.specs.ExporterCalls.{calls_of};
ghost use Rattle.metric_export.specs.declared.state.ExporterState.{ExporterState};
ghost use Rattle.metric_periodic.specs.Counts.{HandsOnToEnd, handed};
ghost use Rattle.metric_periodic.specs.Exported.{tally};
ghost use Rattle.metric_periodic.specs.Runs.{IsRun};
ghost use Rattle.metric_periodic.specs.Turns.{progress};

use crate::counts::RunningCounts;
use crate::exports::Exports;
use crate::reading::{Ended, Reading, read_to_end};
use crate::tick::{StopCause, Ticker};
use metric_export::MetricExporter;
use metric_history::Book;
use metric_provider::{Collector, Gate, Provider};
use std::alloc::Global;
use std::marker::Model;
use std::sync::Wait;

/// A reader that collects whenever its ticker says so, and hands each batch on to an exporter (Metrics
/// SDK, periodic exporting metric reader). It asks the ticker a limited number of times.
#[derive(Drop)]
pub struct Periodic<E> {
    exporter: E,
    turns: u32,
}

impl<E> Model for Periodic<E> {
    ghost use Rattle.metric_periodic.specs.Turns.{PeriodicValue};

    ghost Value = { PeriodicValue E };

    ghost view = { λ p. record { exporter = p.exporter; turns = p.turns } };
}

/// What a periodic reader did. Each count stops at 2^64 - 1.
#[derive(Drop)]
pub struct PeriodicEnd<E> {
    /// The exporter, shut down.
    pub exporter: E,
    /// The batches that the exporter took.
    pub exported: u64,
    /// The batches that the exporter neither took nor keeps, and 1 where its shutdown failed.
    pub failed: u64,
    /// The batches that the exporter kept to try them again, each once. What became of them the exporter tells.
    pub delayed: u64,
    /// The collections that were refused.
    pub refused: u64,
    /// The flushes of the exporter that failed.
    pub unflushed: u64,
    /// Why the ticker stopped, where it did before it was asked as often as it may be.
    pub stopped: Option<StopCause>,
    /// The collector, where its last collection was refused.
    pub kept: Option<Collector>,
}

impl<E: MetricExporter> Periodic<E> {
    /// A reader that hands on to this exporter and asks its ticker at most so many times.
    pub fn new(exporter: E, turns: u32) -> Periodic<E>
        ensures { result ≡ record { exporter = exporter; turns = turns } }
    {
        Periodic { exporter, turns }
    }

    /// A reader that hands on to this exporter until its ticker stops, or was asked 2^32 - 1 times, which with a tick
    /// each second takes 136 years.
    pub fn of(exporter: E) -> Periodic<E>
        ensures { result ≡ record { exporter = exporter; turns = 4294967295 } }
    {
        Periodic::new(exporter, u32::MAX)
    }

    /// Collects at each tick, hands on each batch in order, and then flushes the exporter, so that one which holds
    /// batches back can tell where a collection ends. Where a collection is refused, what was collected before is
    /// handed on. An export that fails is not tried again, but by an exporter that keeps its batches, which tries them
    /// also where a collection gave none, and where the tick was asked for by
    /// [`StopFlag::wake`](crate::StopFlag::wake). Contracts see that each turn makes one collection, at
    /// the moment of its tick, calls the exporter once for each batch that the collection gave, and flushes it once.
    ///
    /// When the ticker stops, or was asked as often as it may be, a last collection is made, at the moment of the last
    /// tick, 0 where there was none; then the exporter tries once more what it keeps, and is shut down, which flushes
    /// it.
    pub fn run<R: Wait, B: Book, G: Gate, T: Ticker<R>>(
        self,
        rt: &R,
        alloc: Global,
        provider: &Provider<B, G>,
        collector: Collector,
        ticker: &mut T,
    ) -> PeriodicEnd<E>
        ensures run { IsRun T.next_gives provider.now
            (calls_of E.MetricExporter provider.now.plan) self.turns
            (progress ticker.old 0 collector (tally self.exporter 0 0 0 0 0))
            ticker.new result.stopped result.kept
            (tally result.exporter result.exported result.failed result.delayed
            result.refused result.unflushed) }
        ensures asked { T.asked ticker.new ≤ T.asked ticker.old + self.turns }
        ensures all_turns { result.stopped ≡ None →
            higher_count (T.asked ticker.old) self.turns ≤ T.asked ticker.new }
        ensures handed { HandsOnToEnd (E.text self.exporter provider.now.plan)
            (handed (E.contents self.exporter) 0 0 0)
            (handed (E.contents result.exporter) result.exported result.failed result.delayed) }
        ensures shut_down { E.state result.exporter ≡ ExporterState.ShutDown }
        ensures kept { IsSome result.kept → 0 < result.refused }
    {
        self.run_counted(
            rt,
            alloc,
            provider,
            collector,
            ticker,
            &RunningCounts::new(),
        )
    }

    /// The same, and the reader tells its counts while it runs.
    pub fn run_counted<R: Wait, B: Book, G: Gate, T: Ticker<R>>(
        self,
        rt: &R,
        alloc: Global,
        provider: &Provider<B, G>,
        collector: Collector,
        ticker: &mut T,
        counts: &RunningCounts,
    ) -> PeriodicEnd<E>
        ensures run { IsRun T.next_gives provider.now
            (calls_of E.MetricExporter provider.now.plan) self.turns
            (progress ticker.old 0 collector (tally self.exporter 0 0 0 0 0))
            ticker.new result.stopped result.kept
            (tally result.exporter result.exported result.failed result.delayed
            result.refused result.unflushed) }
        ensures asked { T.asked ticker.new ≤ T.asked ticker.old + self.turns }
        ensures all_turns { result.stopped ≡ None →
            higher_count (T.asked ticker.old) self.turns ≤ T.asked ticker.new }
        ensures handed { HandsOnToEnd (E.text self.exporter provider.now.plan)
            (handed (E.contents self.exporter) 0 0 0)
            (handed (E.contents result.exporter) result.exported result.failed result.delayed) }
        ensures shut_down { E.state result.exporter ≡ ExporterState.ShutDown }
        ensures kept { IsSome result.kept → 0 < result.refused }
    {
        let Periodic { exporter, turns } = self;
        let reading = Reading {
            seat: collector,
            exports: Exports::new(exporter),
            listener: counts,
        };
        let Ended {
            exports,
            stopped,
            kept,
        } = read_to_end(rt, alloc, provider, turns, reading, ticker);
        PeriodicEnd {
            exporter: exports.exporter,
            exported: exports.exported,
            failed: exports.failed,
            delayed: exports.delayed,
            refused: exports.refused,
            unflushed: exports.unflushed,
            stopped,
            kept,
        }
    }
}
