//! What the recordings of an instrument come to.

/// What the recordings of one instrument come to.
#[derive(Clone, Copy, Debug, PartialEq, Eq, Drop)]
pub struct Total {
    /// How many were accepted.
    pub count: u64,
    /// The sum of their values.
    pub sum: i128,
}
