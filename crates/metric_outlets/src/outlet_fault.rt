//! Why an output can't be made for a reader.
ghost use Rattle.std.specs.Prelude.{◌≡◌};
ghost use Rattle.metric_outlets.specs.Served.{told_exposed, told_target};

use metric_exposition::TargetFault;
use metric_exposure::ExposureFault;
use std::alloc::AllocError;

/// Why an output can't be made for a reader, in the order in which that is found out.
#[derive(Clone, Copy, Debug, PartialEq, Eq, Drop, thiserror::Error)]
pub enum OutletFault {
    /// The plan has no reader of this number.
    #[error("1 UnknownReader")]
    UnknownReader,
    /// What receives the output would lose something of a stream of the reader.
    #[error("2 Exposed: {0}")]
    Exposed(ExposureFault),
    /// The attributes of the resource can't be the labels of one line.
    #[error("3 Target: {0}")]
    Target(TargetFault),
    /// Out of memory.
    #[error("4 Memory")]
    Memory,
}

/// What a fault of a reader's streams is told as.
pub(crate) fn told_exposed(fault: ExposureFault) -> OutletFault
    ensures { result ≡ told_exposed fault }
{
    match fault {
        ExposureFault::Memory => OutletFault::Memory,
        fault => OutletFault::Exposed(fault),
    }
}

/// The same of a resource.
pub(crate) fn told_target(fault: TargetFault) -> OutletFault
    ensures { result ≡ told_target fault }
{
    match fault {
        TargetFault::Memory => OutletFault::Memory,
        fault => OutletFault::Target(fault),
    }
}

impl From<AllocError> for OutletFault {
    ghost use Rattle.metric_outlets.specs.declared.outlet_fault.OutletFault.TheVariants.{Memory};

    ghost from_gives = { λ _ fault. fault ≡ Memory };

    fn from(_refused: AllocError) -> OutletFault {
        OutletFault::Memory
    }
}
