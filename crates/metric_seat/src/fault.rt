//! Why a list of recordings ends early, and why what seats were told is not what was counted.
ghost use Rattle.std.specs.Prelude.{◌≡◌};
ghost use Rattle.metric_seat.specs.Faults.{name_of, number_of};

use metric_contents::Refusal;
use std::alloc::AllocError;
use std::fmt;

/// Where a list of recordings ended: those before it were made.
#[derive(Clone, Copy, Debug, PartialEq, Eq, Drop)]
pub struct SetsFault {
    /// The place in the list of the one that was refused.
    pub place: usize,
    /// Why.
    pub refusal: Refusal,
}

impl fmt::Display for SetsFault {
    ghost use Rattle.std.specs.Prelude.{Some, codes};
    ghost use Rattle.metric_seat.specs.Faults.{refused_text};

    ghost output = { λ fault. Some (refused_text (codes "recording ") fault.place fault.refusal) };

    fn fmt<W: fmt::Write>(&self, f: &mut fmt::Formatter<W>) -> fmt::Result {
        let place = self.place;
        let refusal = self.refusal;
        write!(f, "recording {place}: {refusal}")
    }
}

impl std::error::Error for SetsFault {}

/// Why a provider is not finished, in the order in which the faults are tried: `Stranger`, `RecorderMissing`,
/// `AuditMismatch`, `Memory`.
#[derive(Clone, Copy, Debug, PartialEq, Eq, Drop)]
pub enum FinishFault {
    /// The seat of some recorder is not there.
    RecorderMissing,
    /// A seat is of another run or of a plan of other sizes, or stands twice.
    Stranger,
    /// An instrument's state is not that of the plan and of what its recorders were told.
    AuditMismatch,
    /// Out of memory.
    Memory,
}

impl From<AllocError> for FinishFault {
    ghost use Rattle.std.specs.Prelude.{◌≡◌};
    ghost use Rattle.metric_seat.specs.declared.fault.FinishFault.TheVariants.{Memory};

    ghost from_gives = { λ _ fault. fault ≡ Memory };

    fn from(_refused: AllocError) -> FinishFault {
        FinishFault::Memory
    }
}

impl FinishFault {
    /// The fault's number in printed texts.
    pub fn number(&self) -> u8
        ensures { result ≡ number_of self.now }
    {
        match self {
            FinishFault::RecorderMissing => 1,
            FinishFault::Stranger => 2,
            FinishFault::AuditMismatch => 3,
            FinishFault::Memory => 4,
        }
    }

    /// The fault's name in printed texts.
    pub fn name(&self) -> &'static str
        ensures { result.now ≡ name_of self.now }
    {
        match self {
            FinishFault::RecorderMissing => "RecorderMissing",
            FinishFault::Stranger => "Stranger",
            FinishFault::AuditMismatch => "AuditMismatch",
            FinishFault::Memory => "Memory",
        }
    }
}

impl fmt::Display for FinishFault {
    ghost use Rattle.std.specs.Prelude.{Some};
    ghost use Rattle.metric_seat.specs.Faults.{finish_fault_text};

    ghost output = { λ fault. Some (finish_fault_text fault) };

    fn fmt<W: fmt::Write>(&self, f: &mut fmt::Formatter<W>) -> fmt::Result {
        write!(f, "{} {}", self.number(), self.name())
    }
}

impl std::error::Error for FinishFault {}
