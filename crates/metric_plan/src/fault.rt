//! Why no plan is made.
ghost use Rattle.std.specs.Prelude.{◌≡◌};
ghost use Rattle.metric_plan.specs.Faults.{name_of, number_of};

use std::alloc::AllocError;
use std::fmt;

/// Why no plan is made of a catalogue and a config. A trial answers only `CountRange` and `Memory`, a
/// certificate that is checked may have any of these faults.
#[derive(Clone, Copy, Debug, PartialEq, Eq, Drop)]
pub enum CheckFault {
    /// A pair of a view and an instrument has no reason in its place, or reasons follow the last.
    PairMissing,
    /// The takes of a reason do not spell the instrument's name.
    BadTakes,
    /// The rows of a reason do not shut the instrument's name out.
    BadRows,
    /// A criterion holds that a reason says fails, or fails where a reason says that the view selects.
    BadMiss,
    /// A stream has no entry in its place.
    StreamMissing,
    /// An entry is of no stream that is due.
    StreamStrange,
    /// An order does not name the streams of its reader so that their identities rise.
    BadOrder,
    /// The sets of a stream are not the number that bounds them.
    BadSets,
    /// The sets of a stream are more than its limit.
    LimitExceeded,
    /// The least sum of an instrument is another than stated, or is kept and below the range of i64.
    SumLow,
    /// The greatest sum of an instrument is another than stated, or is kept and above the range of i64.
    SumHigh,
    /// The budgets and the spare budget of an instrument are together another number than stated, or above the range
    /// of u64.
    CountRange,
    /// The sums of an instrument are further apart than stated, or than the range of u64.
    AmountRange,
    /// Out of memory.
    Memory,
}

impl From<AllocError> for CheckFault {
    ghost use Rattle.std.specs.Prelude.{◌≡◌};
    ghost use Rattle.metric_plan.specs.declared.fault.CheckFault.TheVariants.{Memory};

    ghost from_gives = { λ _ fault. fault ≡ Memory };

    fn from(_refused: AllocError) -> CheckFault {
        CheckFault::Memory
    }
}

impl CheckFault {
    /// The fault's number in printed texts.
    pub fn number(&self) -> u8
        ensures { result ≡ number_of self.now }
    {
        match self {
            CheckFault::PairMissing => 1,
            CheckFault::BadTakes => 2,
            CheckFault::BadRows => 3,
            CheckFault::BadMiss => 4,
            CheckFault::StreamMissing => 5,
            CheckFault::StreamStrange => 6,
            CheckFault::BadOrder => 7,
            CheckFault::BadSets => 8,
            CheckFault::LimitExceeded => 9,
            CheckFault::SumLow => 10,
            CheckFault::SumHigh => 11,
            CheckFault::CountRange => 12,
            CheckFault::AmountRange => 13,
            CheckFault::Memory => 14,
        }
    }

    /// The fault's name in printed texts.
    pub fn name(&self) -> &'static str
        ensures { result.now ≡ name_of self.now }
    {
        match self {
            CheckFault::PairMissing => "PairMissing",
            CheckFault::BadTakes => "BadTakes",
            CheckFault::BadRows => "BadRows",
            CheckFault::BadMiss => "BadMiss",
            CheckFault::StreamMissing => "StreamMissing",
            CheckFault::StreamStrange => "StreamStrange",
            CheckFault::BadOrder => "BadOrder",
            CheckFault::BadSets => "BadSets",
            CheckFault::LimitExceeded => "LimitExceeded",
            CheckFault::SumLow => "SumLow",
            CheckFault::SumHigh => "SumHigh",
            CheckFault::CountRange => "CountRange",
            CheckFault::AmountRange => "AmountRange",
            CheckFault::Memory => "Memory",
        }
    }
}

impl fmt::Display for CheckFault {
    ghost use Rattle.std.specs.Prelude.{Some};
    ghost use Rattle.metric_plan.specs.Faults.{check_fault_text};

    ghost output = { λ fault. Some (check_fault_text fault) };

    fn fmt<W: fmt::Write>(&self, f: &mut fmt::Formatter<W>) -> fmt::Result {
        write!(f, "{} {}", self.number(), self.name())
    }
}

impl std::error::Error for CheckFault {}
