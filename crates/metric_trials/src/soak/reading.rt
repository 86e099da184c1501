//! What the thread of a reader does, and what it saw.
use crate::asserted::{OrFail, Stop, hold};
use crate::soak::INSTRUMENTS;
use crate::soak::figures::{COLLECTIONS, Figures, POINTS};
use crate::soak::seen::{Asked, follows, points_of, rises, sum_of};
use metric_contents::Kind;
use metric_history::{Batch, Book};
use metric_provider::{Collector, NoGate, Provider};
use std::alloc::Global;
use std::mem;
use std::sync::atomic::{AtomicU64, Ordering};
use std::time::Instant;

/// A seat that collects, with what it saw.
pub(crate) struct Watcher {
    collector: Collector,
    asked: Asked,
    /// The last batch of each instrument.
    pub last: Vec<Batch>,
    /// All batches before the last of each instrument, where they are kept.
    pub kept: Vec<Vec<Batch>>,
    /// What the batches of each instrument came to.
    pub sums: [i64; INSTRUMENTS],
    pub figures: Figures,
}

impl Drop for Watcher {
    // A call of its own, so that what owns a reader does not carry the steps of dropping each part.
    fn drop(self) {
        let Watcher {
            collector: _collector,
            asked: _,
            last: _last,
            kept: _kept,
            sums: _,
            figures: _,
        } = self;
    }
}

/// When a round began, how many of its recorders have not ended, and how many recordings each tries.
#[derive(Drop)]
pub(crate) struct Signs {
    pub began: Instant,
    pub left: AtomicU64,
    pub events: u32,
}

impl Watcher {
    /// Before its first collection. The first reader is the one of what came since its last batch.
    pub(crate) fn new<R: Stop>(rt: &R, alloc: Global, collector: Collector) -> Watcher {
        let asked = if collector.number() == 0 {
            Asked::Delta
        } else {
            Asked::Cumulative
        };
        let mut kept = Vec::new(alloc);
        for _ in 0..INSTRUMENTS {
            kept.push(Vec::new(alloc)).ok().or_fail(rt);
        }
        Watcher {
            collector,
            asked,
            last: Vec::new(alloc),
            kept,
            sums: [0; INSTRUMENTS],
            figures: Figures::new(),
        }
    }

    /// Collects all instruments again and again, a last time after all recorders have ended.
    pub(crate) fn watch<R: Stop, B: Book>(
        &mut self,
        rt: &R,
        alloc: Global,
        provider: &Provider<B, NoGate>,
        signs: &Signs,
    ) {
        for _ in 0..u64::MAX {
            let is_last = signs.left.load(Ordering::SeqCst) == 0;
            let now = signs.began.elapsed(rt).or_fail(rt).as_nanos();
            let now = u64::try_from(now).or_fail(rt);
            let batches = self.collector.collect_all(rt, alloc, provider, now);
            let batches = batches.ok().or_fail(rt);
            self.see(rt, provider, &batches);
            let before = mem::replace(&mut self.last, batches);
            if B::KEEPS_ENTRIES {
                self.keep(rt, before);
            }
            if is_last {
                break;
            }
        }
    }

    // Compares each batch of a collection with the one before it.
    fn see<R: Stop, B: Book>(&mut self, rt: &R, provider: &Provider<B, NoGate>, batches: &[Batch]) {
        let instruments = provider.plan().catalogue().instruments();
        hold(
            rt,
            batches.len() == instruments.len(),
            "a collection lacks a batch",
        );
        for (number, instrument) in instruments.iter().enumerate() {
            self.see_one(rt, number, instrument.kind, batches.get(number).or_fail(rt));
        }
        self.figures.add(COLLECTIONS, 1);
    }

    fn see_one<R: Stop>(&mut self, rt: &R, number: usize, kind: Kind, batch: &Batch) {
        let before = self.last.get(number);
        let goes_on = batch.instrument as usize == number && follows(self.asked, before, batch);
        hold(rt, goes_on, "a batch does not go on where one ended");
        if let (Asked::Cumulative, Kind::Counter | Kind::Histogram, Some(before)) = (
            self.asked, kind, before,
        ) {
            let has_risen = rises(before, batch);
            hold(rt, has_risen, "a batch has less than one before it");
        }
        let sum = sum_of(batch);
        hold(rt, sum.is_some(), "streams have other sums");
        let (own, sum) = (self.sums.get_mut(number).or_fail(rt), sum.or_fail(rt));
        *own = match self.asked {
            Asked::Delta => own.wrapping_add(sum),
            Asked::Cumulative => sum,
        };
        self.figures.add(POINTS, points_of(batch));
    }

    /// Keeps batches, one of each instrument.
    pub(crate) fn keep<R: Stop>(&mut self, rt: &R, batches: Vec<Batch>) {
        for (number, batch) in batches.into_iter().enumerate() {
            let kept = self.kept.get_mut(number).or_fail(rt);
            kept.push(batch).ok().or_fail(rt);
        }
    }
}
