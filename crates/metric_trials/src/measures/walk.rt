//! Walks that the compiler can not foresee.
use std::sync::atomic::{AtomicU64, Ordering};

/// A walk round a list. How far a step goes is read from memory each time, where another thread could have changed
/// it. So the compiler can not do once what is to be done at each step.
#[derive(Drop)]
pub(crate) struct Walk {
    step: AtomicU64,
}

impl Walk {
    /// A walk by steps of one.
    pub(crate) fn new() -> Walk {
        Walk {
            step: AtomicU64::new(1),
        }
    }

    /// The place after this one in a list of so many: the first one after the last.
    pub(crate) fn after(&self, at: usize, count: usize) -> usize {
        let step = self.step.load(Ordering::SeqCst) as usize;
        let next = at.wrapping_add(step);
        if next < count { next } else { 0 }
    }
}
