//! A queue whose counts other threads read.
ghost use Rattle.std.specs.Prelude.{◌≡◌, [], None};
ghost use Rattle.metric_export.specs.Queues.{HandsIn, PassesFlush, PassesShutdown, RetriesKept};

use crate::exporter::MetricExporter;
use crate::fault::ExportFault;
use crate::queued::Queued;
use metric_history::Batch;
use metric_plan::Plan;
use std::alloc::Global;
use std::marker::Model;
use std::sync::atomic::{AtomicU64, Ordering};

/// What a queue has done so far, for other threads to read while a reader has it. Threads share it by reference; each
/// count stops at 2^64 - 1.
///
/// The queue sets the counts after each call. A thread may read one count before and another after that.
#[derive(Drop)]
pub struct QueueCounts {
    sent: AtomicU64,
    delayed: AtomicU64,
    dropped: AtomicU64,
    unkept: AtomicU64,
}

impl QueueCounts {
    /// Counts of nothing.
    pub fn new() -> QueueCounts {
        QueueCounts {
            sent: AtomicU64::new(0),
            delayed: AtomicU64::new(0),
            dropped: AtomicU64::new(0),
            unkept: AtomicU64::new(0),
        }
    }

    /// The batches that went out.
    pub fn sent(&self) -> u64 {
        self.sent.load(Ordering::SeqCst)
    }

    /// The batches that are kept now.
    pub fn delayed(&self) -> u64 {
        self.delayed.load(Ordering::SeqCst)
    }

    /// The batches that were dropped since more may not be kept: they are lost.
    pub fn dropped(&self) -> u64 {
        self.dropped.load(Ordering::SeqCst)
    }

    /// The batches that were refused and not kept, which who handed them in has.
    pub fn unkept(&self) -> u64 {
        self.unkept.load(Ordering::SeqCst)
    }

    // Sets the counts to those of a queue.
    fn set<E: MetricExporter>(&self, queue: &Queued<E>) {
        self.sent.store(queue.sent(), Ordering::SeqCst);
        self.delayed
            .store(queue.kept().len() as u64, Ordering::SeqCst);
        self.dropped.store(queue.dropped(), Ordering::SeqCst);
        self.unkept.store(queue.unkept(), Ordering::SeqCst);
    }
}

/// A queue that tells its counts after each call. It does what the queue does, as which contracts see it.
#[derive(Drop)]
pub struct ToldQueue<'a, E> {
    queue: Queued<E>,
    counts: &'a QueueCounts,
}

impl<'a, E> Model for ToldQueue<'a, E> {
    ghost use Rattle.metric_export.specs.Queues.{QueuedValue};

    ghost Value = { QueuedValue E };

    ghost view = { λ t. t.queue };
}

impl<'a, E: MetricExporter> ToldQueue<'a, E> {
    /// This queue, which tells its counts from its next call on.
    pub fn new(queue: Queued<E>, counts: &'a QueueCounts) -> ToldQueue<'a, E>
        ensures { result ≡ queue }
    {
        ToldQueue { queue, counts }
    }

    /// The queue.
    pub fn queue(&self) -> &Queued<E>
        ensures { result.now ≡ self.now }
    {
        &self.queue
    }

    /// The queue.
    pub fn into_queue(self) -> Queued<E>
        ensures { result ≡ self.entry }
    {
        let ToldQueue { queue, counts: _ } = self;
        queue
    }
}

impl<E: MetricExporter> MetricExporter for ToldQueue<'_, E> {
    ghost text = { λ _ _ _. [] };

    ghost contents = { λ _. None };

    ghost failures = { λ t. t.failures };

    ghost state = { λ t. t.state };

    ghost takes = { λ q. E.takes q.inner };

    ghost export_gives = { HandsIn E.MetricExporter };

    ghost flush_gives = { PassesFlush E.MetricExporter };

    ghost retry_gives = { RetriesKept E.MetricExporter };

    ghost shutdown_gives = { PassesShutdown E.MetricExporter };

    fn takes(&self, plan: u64, reader: u32) -> bool {
        self.queue.takes(plan, reader)
    }

    fn export(&mut self, alloc: Global, plan: &Plan, batch: &Batch) -> Result<(), ExportFault> {
        let answer = self.queue.export(alloc, plan, batch);
        self.counts.set(&self.queue);
        answer
    }

    fn force_flush(&mut self) -> Result<(), ExportFault> {
        self.queue.force_flush()
    }

    fn retry(&mut self, alloc: Global, plan: &Plan) -> Result<(), ExportFault> {
        let answer = self.queue.retry(alloc, plan);
        self.counts.set(&self.queue);
        answer
    }

    fn shutdown(&mut self) -> Result<(), ExportFault> {
        self.queue.shutdown()
    }
}
