//! Why attributes are no resource.
ghost use Rattle.std.specs.Prelude.{◌≡◌};

use std::alloc::AllocError;
use thiserror::Error;

/// Why attributes are no resource, in the order in which the faults are tried.
#[derive(Clone, Copy, Debug, PartialEq, Eq, Drop, Error)]
pub enum ResourceFault {
    /// There are more than 64.
    #[error("1 TooMany")]
    TooMany,
    /// One has an empty key.
    #[error("2 EmptyKey")]
    EmptyKey,
    /// A key stands twice.
    #[error("3 RepeatedKey")]
    RepeatedKey,
    /// Out of memory.
    #[error("4 Memory")]
    Memory,
}

impl From<AllocError> for ResourceFault {
    ghost use Rattle.metric_resource.specs.declared.fault.ResourceFault.TheVariants.{Memory};

    ghost from_gives = { λ _ e. e ≡ Memory };

    fn from(_refused: AllocError) -> ResourceFault {
        ResourceFault::Memory
    }
}
