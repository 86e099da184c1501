//! The counts of a running reader.
ghost use Rattle.std.specs.Prelude.{ℕ};

use std::sync::atomic::{AtomicU64, Ordering};

/// What a periodic reader has done so far, for other threads to read while it runs. Threads share it by reference; each
/// count stops at 2^64 - 1.
///
/// The reader sets the counts after each collection, when the batches of that were handed on. A thread may read one
/// count before and another after that.
#[derive(Drop)]
pub struct RunningCounts {
    exported: AtomicU64,
    failed: AtomicU64,
    delayed: AtomicU64,
    refused: AtomicU64,
    unflushed: AtomicU64,
}

impl RunningCounts {
    /// Counts of nothing.
    pub fn new() -> RunningCounts {
        RunningCounts {
            exported: AtomicU64::new(0),
            failed: AtomicU64::new(0),
            delayed: AtomicU64::new(0),
            refused: AtomicU64::new(0),
            unflushed: AtomicU64::new(0),
        }
    }

    /// The batches that the exporter took.
    pub fn exported(&self) -> u64 {
        self.exported.load(Ordering::SeqCst)
    }

    /// The batches that the exporter neither took nor keeps, and 1 where its shutdown failed.
    pub fn failed(&self) -> u64 {
        self.failed.load(Ordering::SeqCst)
    }

    /// The batches that the exporter keeps to try them again, each once. What became of them the exporter tells.
    pub fn delayed(&self) -> u64 {
        self.delayed.load(Ordering::SeqCst)
    }

    /// The collections that were refused.
    pub fn refused(&self) -> u64 {
        self.refused.load(Ordering::SeqCst)
    }

    /// The flushes of the exporter that failed.
    pub fn unflushed(&self) -> u64 {
        self.unflushed.load(Ordering::SeqCst)
    }
}

/// Who is told the counts of a running reader. As a trait, so that a run cannot but tell them, all and each in
/// its place.
pub(crate) trait Listener {
    // That it was told these counts: of the batches that the exporter took, of those and of the shutdown that failed,
    // of those that it keeps, of the collections that were refused, and of the flushes that failed.
    ghost told: { Self → ℕ → ℕ → ℕ → ℕ → ℕ → Type 0 };

    fn tell(&self, exported: u64, failed: u64, delayed: u64, refused: u64, unflushed: u64)
        ensures { told self.now exported failed delayed refused unflushed };
}

impl Listener for RunningCounts {
    ghost told = { λ _ _ _ _ _ _. Unit {0} };

    fn tell(&self, exported: u64, failed: u64, delayed: u64, refused: u64, unflushed: u64) {
        self.exported.store(exported, Ordering::SeqCst);
        self.failed.store(failed, Ordering::SeqCst);
        self.delayed.store(delayed, Ordering::SeqCst);
        self.refused.store(refused, Ordering::SeqCst);
        self.unflushed.store(unflushed, Ordering::SeqCst);
    }
}
