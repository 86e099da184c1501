//! Recordings by set keys that a caller brings back.
ghost use Rattle.std.specs.Prelude.{◌≡◌};
ghost use Rattle.metric_seat.specs.KeyRecordings.{measurement_of};

use metric_contents::SetKey;

/// A recording by the set key of its attributes, which a seat may bring back.
#[repr(C)]
#[derive(Clone, Copy, Debug, PartialEq, Eq, Drop)]
pub struct Measurement {
    /// The set key.
    pub set: SetKey,
    /// The value.
    pub value: i64,
}

// The recording of a value by its set key.
pub(crate) fn recording_of(set: SetKey, value: &i64) -> Measurement
    ensures { result ≡ measurement_of set value.now }
{
    Measurement { set, value: *value }
}
