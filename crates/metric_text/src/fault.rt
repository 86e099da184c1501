//! Why what is spelled is not read.
ghost use Rattle.std.specs.Prelude.{◌≡◌};

use std::alloc::AllocError;
use thiserror::Error;

/// Why what is spelled is not read.
#[derive(Clone, Copy, Debug, Error)]
pub enum SpellingFault {
    /// The bytes are outside the grammar.
    #[error("outside the grammar")]
    Bad,
    /// Out of memory.
    #[error("out of memory")]
    Memory,
}

impl From<AllocError> for SpellingFault {
    ghost use Rattle.metric_text.specs.declared.fault.SpellingFault.TheVariants.{Memory};

    ghost from_gives = { λ _ e. e ≡ Memory };

    fn from(_refused: AllocError) -> SpellingFault {
        SpellingFault::Memory
    }
}
