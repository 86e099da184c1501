//! What a recorder keeps of its recordings.
use metric_contents::SetKey;

/// An accepted recording, as its recorder keeps it.
#[derive(Clone, Copy, Debug, PartialEq, Eq, Drop)]
pub struct Slip {
    /// The set key of its attributes.
    pub set: SetKey,
    /// The value.
    pub value: i64,
}
