//! How often a source was read, and how the reads ended.
use crate::SourceFault;

/// How often a source was read, how often a signal interrupted the read, and how often the source
/// failed. Each count stops at 2^64 - 1.
#[derive(Clone, Copy)]
pub struct ReadCounts {
    /// The reads that were tried, interrupted and failed ones among them.
    pub reads: u64,
    /// The reads that a signal interrupted.
    pub interruptions: u64,
    /// The reads at which the source failed.
    pub failures: u64,
}

impl ReadCounts {
    ghost use Rattle.std.specs.Prelude.{◌≡◌};
    ghost use Rattle.metric_io.specs.Counts.{counts_after, no_reads};

    /// The counts of a source that was not read yet.
    pub fn none() -> ReadCounts
        ensures { result ≡ no_reads }
    {
        ReadCounts {
            reads: 0,
            interruptions: 0,
            failures: 0,
        }
    }

    /// Counts a read that gave this answer.
    pub fn count(&mut self, answer: &Result<usize, SourceFault>)
        ensures { self.new ≡ counts_after self.old answer.now }
    {
        self.reads = self.reads.saturating_add(1);
        match answer {
            Ok(_) => {}
            Err(SourceFault::Interrupted) => {
                self.interruptions = self.interruptions.saturating_add(1);
            }
            Err(SourceFault::Broken) => self.failures = self.failures.saturating_add(1),
        }
    }
}
