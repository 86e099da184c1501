//! Marks a place for who watches allocations.
use std::alloc::{AllocError, Global};

// The bytes of an allocation that marks, which nothing else asks for.
const MARK: usize = 12_345_677;

/// Makes an allocation that marks, and drops it. When out of memory for it, whoever watches misses a mark.
pub(crate) fn mark(alloc: Global) {
    let made: Result<Vec<u8>, AllocError> = Vec::with_capacity(alloc, MARK);
    if let Ok(mut mark) = made {
        let _ = mark.push(0);
    }
}
