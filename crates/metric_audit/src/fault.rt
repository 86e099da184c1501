//! Why an audit fails.
use std::alloc::AllocError;
use thiserror::Error;

/// What does not agree with a journal. The slips are tried first, then the entries, then the batches.
#[derive(Clone, Copy, Debug, PartialEq, Eq, Drop, Error)]
pub enum AuditFault {
    /// The entries of this recorder are not its slips; of several such recorders, the least.
    #[error("1 Slips of recorder {recorder}")]
    Slips {
        /// The recorder's number.
        recorder: u32,
    },
    /// The batch at this place, counted from 0, is the first that the journal can not have given.
    #[error("2 Batch at {at}")]
    Batch {
        /// The batch's place.
        at: usize,
    },
    /// Out of memory.
    #[error("3 Memory")]
    Memory,
    /// The entry at this place, counted from 0, is the first that the instrument would have refused: its set is none
    /// that the catalogue allows, or its value is out of range. No run can have such a journal.
    #[error("4 Entry at {at}")]
    Entry {
        /// The entry's place in the journal.
        at: usize,
    },
}

impl From<AllocError> for AuditFault {
    ghost use Rattle.std.specs.Prelude.{◌≡◌};
    ghost use Rattle.metric_audit.specs.declared.fault.AuditFault.TheVariants.{Memory};

    ghost from_gives = { λ _ fault. fault ≡ Memory };

    fn from(_refused: AllocError) -> AuditFault {
        AuditFault::Memory
    }
}
