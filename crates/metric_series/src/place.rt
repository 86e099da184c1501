//! Where a recording falls.

/// Where in a table the value of a recording falls (Metrics SDK, cardinality limits).
#[derive(Clone, Copy, Debug, PartialEq, Eq, Drop)]
pub enum Place {
    /// Into the held series of this index, in the order in which the series came first.
    Held(usize),
    /// Into a series that is not held and will be, at this index, the next.
    New(usize),
    /// Into the overflow series, in which there is some value.
    Overflow,
    /// Into the overflow series as its first value.
    NewOverflow,
}
