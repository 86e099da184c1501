//! How long work takes.
use crate::asserted::{OrFail, Stop};
use std::time::Instant;

/// Takes the time of work from where it is started to where it is stopped. So what has to be made ready, and what is
/// left over, is not measured.
#[derive(Clone, Copy)]
pub(crate) struct Watch {
    begun: Instant,
    /// The nanoseconds; or what is measured in their place, as bytes.
    pub taken: u64,
    /// How many operations the work has.
    pub operations: u64,
}

impl Watch {
    /// Started now.
    pub(crate) fn new<R: Stop>(rt: &R) -> Watch {
        Watch {
            begun: Instant::now(rt).or_fail(rt),
            taken: 0,
            operations: 1,
        }
    }

    /// Starts once more, for so many operations.
    pub(crate) fn start<R: Stop>(&mut self, rt: &R, operations: u64) {
        self.operations = operations;
        self.begun = Instant::now(rt).or_fail(rt);
    }

    /// Stops.
    pub(crate) fn stop<R: Stop>(&mut self, rt: &R) {
        let took = self.begun.elapsed(rt).or_fail(rt);
        self.taken = u64::try_from(took.as_nanos()).unwrap_or(u64::MAX).max(1);
    }

    /// Takes what was measured of so many operations in another way.
    pub(crate) fn set(&mut self, taken: u64, operations: u64) {
        self.taken = taken;
        self.operations = operations;
    }
}
