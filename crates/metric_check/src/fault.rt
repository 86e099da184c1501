//! Why a certificate is not accepted.
ghost use Rattle.std.specs.Prelude.{◌≡◌};
ghost use Rattle.metric_check.specs.Findings.{of_none};

use metric_plan::CheckFault;
use std::alloc::AllocError;
use std::fmt;

/// The entry of a certificate that a fault is of, by its number in its list, from 0. Where an entry is missing it is
/// the number at which that is due, and where entries follow the last that is due, that of the first of them.
#[derive(Clone, Copy, Debug, PartialEq, Eq, Drop)]
pub enum ClaimPlace {
    /// A reason. Those of a view stand together, one for each instrument.
    Reason(usize),
    /// A stream, by its number in the plan.
    Stream(usize),
    /// The orders of all readers.
    Orders,
    /// A bound, by the number of its instrument.
    Bound(usize),
    /// No entry: the fault is none of a certificate.
    Nowhere,
}

/// Why a certificate does not show that a catalogue and a config are safe: what is wrong, and the first entry of which
/// it is. It is printed as [`CheckFault`] is, without the entry.
#[derive(Clone, Copy, Debug, PartialEq, Eq, Drop)]
pub struct ClaimFault {
    /// What is wrong.
    pub fault: CheckFault,
    /// The entry.
    pub place: ClaimPlace,
}

impl ClaimFault {
    /// A fault of no entry: out of memory, or a trial whose budgets cannot be counted.
    pub fn of_none(fault: CheckFault) -> ClaimFault
        ensures { result ≡ of_none fault }
    {
        ClaimFault {
            fault,
            place: ClaimPlace::Nowhere,
        }
    }
}

impl From<AllocError> for ClaimFault {
    ghost use Rattle.std.specs.Prelude.{◌≡◌};
    ghost use Rattle.metric_plan.specs.declared.fault.CheckFault.TheVariants.{Memory};
    ghost use Rattle.metric_check.specs.Findings.{of_none};

    ghost from_gives = { λ _ fault. fault ≡ of_none Memory };

    fn from(_refused: AllocError) -> ClaimFault {
        ClaimFault::of_none(CheckFault::Memory)
    }
}

impl fmt::Display for ClaimFault {
    ghost use Rattle.std.specs.Prelude.{Some};
    ghost use Rattle.metric_plan.specs.Faults.{check_fault_text};

    ghost output = { λ claim. Some (check_fault_text claim.fault) };

    fn fmt<W: fmt::Write>(&self, f: &mut fmt::Formatter<W>) -> fmt::Result {
        self.fault.fmt(f)
    }
}

impl std::error::Error for ClaimFault {}
