//! An accepted recording.
use metric_contents::SetKey;

/// A recording that was accepted.
#[derive(Clone, Copy, Debug, PartialEq, Eq, Drop)]
pub struct Entry {
    /// The number of its recorder.
    pub recorder: u32,
    /// The set key of its attributes.
    pub set: SetKey,
    /// The value.
    pub value: i64,
}
