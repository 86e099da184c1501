//! Why a table is not written.
ghost use Rattle.std.specs.Prelude.{◌≡◌};

use metric_io::Broken;
use std::alloc::AllocError;
use thiserror::Error;

/// Why a table is not written whole.
#[derive(Clone, Copy, Debug, PartialEq, Eq, Error)]
pub enum SheetFault {
    /// The sink failed.
    #[error("the device failed")]
    Write,
    /// Out of memory.
    #[error("out of memory")]
    Memory,
}

impl From<AllocError> for SheetFault {
    ghost use Rattle.metric_sheet.specs.declared.fault.SheetFault.TheVariants.{Memory};

    ghost from_gives = { λ _ fault. fault ≡ Memory };

    fn from(_refused: AllocError) -> SheetFault {
        SheetFault::Memory
    }
}

impl From<Broken> for SheetFault {
    ghost use Rattle.metric_sheet.specs.declared.fault.SheetFault.TheVariants.{Write};

    ghost from_gives = { λ _ fault. fault ≡ Write };

    fn from(_broken: Broken) -> SheetFault {
        SheetFault::Write
    }
}
