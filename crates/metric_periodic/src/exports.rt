//! Collections handed on to an exporter, and counted.
ghost use Rattle.std.specs.Prelude.{◌≡◌, ◌≤◌, ◌==◌, length, not};
ghost use Rattle.metric_export.specs.ExporterCalls.{IsExport, IsFlush, IsRetry, IsShutdown};
ghost use Rattle.metric_periodic.specs.Counts.{delayed_after, exported_after, refused_after};
ghost use Rattle.metric_export.specs.Handings.{HandsOnInOrder, TakesOrRefuses};
ghost use Rattle.metric_periodic.specs.Exported.{Answered, ExportsCollected, ExportsEach, Flushes};
ghost use Rattle.metric_periodic.specs.Exported.{Retries, RetriesWhere, ShutsDown, failed_after, tally, with_refusal};

use crate::counts::Listener;
use metric_export::{ExportFault, Handed, MetricExporter};
use metric_history::Batch;
use metric_plan::Plan;
use metric_provider::AllFault;
use std::alloc::Global;
use std::marker::Model;

/// An exporter, with the counts of what it was handed. Each count stops at 2^64 - 1.
#[derive(Drop)]
pub(crate) struct Exports<E> {
    pub exporter: E,
    /// The batches that it took.
    pub exported: u64,
    /// Those that it neither took nor keeps, and 1 where its shutdown failed.
    pub failed: u64,
    /// Those that it keeps to try them again.
    pub delayed: u64,
    /// The collections that were refused.
    pub refused: u64,
    /// Its flushes that failed.
    pub unflushed: u64,
}

impl<E> Model for Exports<E> {
    ghost use Rattle.metric_periodic.specs.Exported.{Tally};

    ghost Value = { Tally E };

    ghost view = { λ e. record {
      exporter = e.exporter;
      exported = e.exported;
      failed = e.failed;
      delayed = e.delayed;
      refused = e.refused;
      unflushed = e.unflushed;
    } };
}

impl<E: MetricExporter> Exports<E> {
    /// An exporter that was handed nothing yet.
    pub(crate) fn new(exporter: E) -> Exports<E>
        ensures { result ≡ tally exporter 0 0 0 0 0 }
    {
        Exports {
            exporter,
            exported: 0,
            failed: 0,
            delayed: 0,
            refused: 0,
            unflushed: 0,
        }
    }

    /// Hands on what a collection gave, also where it was refused before its end.
    pub(crate) fn hand_on_collected(
        &mut self,
        alloc: Global,
        plan: &Plan,
        collected: &Result<Vec<Batch>, AllFault>,
    )
        ensures { ExportsCollected (IsExport E.MetricExporter plan.now) self.old self.new
            collected.now }
    {
        self.count_refusal(collected.is_err());
        match collected {
            Ok(batches) => self.hand_on(alloc, plan, batches),
            Err(fault) => self.hand_on(alloc, plan, &fault.done),
        }
    }

    /// The batches that the exporter neither took nor keeps, so far.
    pub(crate) fn failed(&self) -> u64
        ensures { result ≡ self.now.failed }
    {
        self.failed
    }

    /// Whether there are more than so many by now.
    pub(crate) fn has_failed_since(&self, failed: u64) -> bool
        ensures { result ≡ not (self.now.failed == failed) }
    {
        self.failed != failed
    }

    /// Counts a collection in which something was refused.
    pub(crate) fn count_refusal(&mut self, is_refused: bool)
        ensures { self.new ≡ with_refusal self.old is_refused }
    {
        if is_refused {
            self.refused = self.refused.saturating_add(1);
        }
    }

    /// Hands on batches in order, each once, up to the first that the exporter neither takes nor keeps. How many were
    /// taken, and why the next one was refused, where one was.
    pub(crate) fn hand_on_in_order(
        &mut self,
        alloc: Global,
        plan: &Plan,
        batches: &[Batch],
    ) -> Handed
        ensures handed { HandsOnInOrder (Answered (IsExport E.MetricExporter plan.now))
            self.old self.new batches.now result.taken result.refused }
        ensures within { result.taken ≤ length batches.now }
    {
        for (taken, batch) in batches.iter().enumerate() {
            match self.refusal_of(alloc, plan, batch) {
                None => {}
                Some(fault) => {
                    return Handed {
                        taken,
                        refused: Some(fault),
                    };
                }
            }
        }
        Handed {
            taken: batches.len(),
            refused: None,
        }
    }

    // Hands a batch on. Why it was refused, where it was.
    fn refusal_of(&mut self, alloc: Global, plan: &Plan, batch: &Batch) -> Option<ExportFault>
        ensures { TakesOrRefuses (Answered (IsExport E.MetricExporter plan.now)) self.old self.new
            batch.now result }
    {
        match self.hand_on_one(alloc, plan, batch) {
            Ok(()) | Err(ExportFault::Kept) => None,
            Err(fault) => Some(fault),
        }
    }

    /// Hands on each batch in order, once.
    pub(crate) fn hand_on(&mut self, alloc: Global, plan: &Plan, batches: &[Batch])
        ensures { ExportsEach (IsExport E.MetricExporter plan.now) self.old self.new batches.now }
    {
        for batch in batches {
            let _counted = self.hand_on_one(alloc, plan, batch);
        }
    }

    // Hands on a batch, and counts the exporter's answer.
    #[tactic(auto, using(crate::proofs::Calling::one_exported))]
    fn hand_on_one(&mut self, alloc: Global, plan: &Plan, batch: &Batch) -> Result<(), ExportFault>
        ensures { Answered (IsExport E.MetricExporter plan.now) self.old self.new batch.now
            result }
    {
        let answer = self.exporter.export(alloc, plan, batch);
        self.count(&answer);
        answer
    }

    // Counts an export by the exporter's answer.
    fn count(&mut self, answer: &Result<(), ExportFault>)
        ensures exported { self.new.exported ≡ exported_after self.old.exported answer.now }
        ensures failed { self.new.failed ≡ refused_after self.old.failed answer.now }
        ensures delayed { self.new.delayed ≡ delayed_after self.old.delayed answer.now }
        ensures exporter { self.new.exporter ≡ self.old.exporter }
        ensures refused { self.new.refused ≡ self.old.refused }
        ensures unflushed { self.new.unflushed ≡ self.old.unflushed }
    {
        match answer {
            Ok(()) => self.exported = self.exported.saturating_add(1),
            Err(ExportFault::Kept) => self.delayed = self.delayed.saturating_add(1),
            Err(_) => self.failed = self.failed.saturating_add(1),
        }
    }

    /// Tells the counts to who reads them while the reader runs.
    pub(crate) fn tell<L: Listener>(&self, listener: &L)
        ensures { L.told listener.now self.now.exported self.now.failed self.now.delayed
            self.now.refused self.now.unflushed }
    {
        listener.tell(
            self.exported,
            self.failed,
            self.delayed,
            self.refused,
            self.unflushed,
        );
    }

    /// Lets the exporter try once more what it keeps, where that is due.
    pub(crate) fn retry_where(&mut self, alloc: Global, plan: &Plan, is_due: bool)
        ensures { RetriesWhere is_due (IsRetry E.MetricExporter plan.now) self.old self.new }
    {
        if is_due {
            let _told = self.retry(alloc, plan);
        }
    }

    /// Flushes the exporter, and counts its failure.
    #[tactic(auto, using(crate::proofs::Calling::flushed_counted))]
    pub(crate) fn flush(&mut self) -> Result<(), ExportFault>
        ensures { Flushes (IsFlush E.MetricExporter) self.old self.new result }
    {
        let answer = self.exporter.force_flush();
        self.unflushed = failed_after(self.unflushed, &answer);
        answer
    }

    /// Lets the exporter try once more what it keeps. What became of that the exporter tells.
    #[tactic(auto, using(crate::proofs::Calling::retried_counted))]
    pub(crate) fn retry(&mut self, alloc: Global, plan: &Plan) -> Result<(), ExportFault>
        ensures { Retries (IsRetry E.MetricExporter plan.now) self.old self.new result }
    {
        self.exporter.retry(alloc, plan)
    }

    /// Shuts the exporter down, and counts its failure.
    #[tactic(auto, using(crate::proofs::Calling::shut_down_counted))]
    pub(crate) fn shut_down(&mut self)
        ensures { ShutsDown (IsShutdown E.MetricExporter) self.old self.new }
    {
        let answer = self.exporter.shutdown();
        self.failed = failed_after(self.failed, &answer);
    }
}

// The failed calls after one with this answer.
fn failed_after(failed: u64, answer: &Result<(), ExportFault>) -> u64
    ensures { result ≡ failed_after failed answer.now }
{
    match answer {
        Ok(()) => failed,
        Err(_) => failed.saturating_add(1),
    }
}
