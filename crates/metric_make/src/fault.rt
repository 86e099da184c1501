//! Why a catalogue and a config get no certificate.
use std::alloc::AllocError;
use thiserror::Error;

/// Why a catalogue and a config get no certificate: the first part of safety that fails, with what it is about, or out
/// of memory. Instruments are numbered as in the catalogue, readers as in the config, and streams as they are resolved.
#[derive(Clone, Copy, Debug, PartialEq, Eq, Drop, Error)]
pub enum MakeFault {
    /// Two streams have one identity (Metrics data model, identity).
    #[error("1 Collision")]
    Collision {
        /// The number of the first stream of the identity.
        first: u32,
        /// The number of a later one, of which no stream before it collides.
        later: u32,
    },
    /// A stream may have more series than its limit (Metrics SDK, cardinality limits).
    #[error("2 LimitExceeded")]
    LimitExceeded {
        /// The number of the stream.
        stream: u32,
        /// The number of its reader.
        reader: u32,
        /// The number of its instrument.
        instrument: u32,
    },
    /// A sum may be below the least 64-bit number.
    #[error("3 SumLow")]
    SumLow {
        /// The number of the instrument.
        instrument: u32,
    },
    /// A sum may be above the greatest 64-bit number.
    #[error("4 SumHigh")]
    SumHigh {
        /// The number of the instrument.
        instrument: u32,
    },
    /// An instrument may be recorded 2^64 times or more.
    #[error("5 CountRange")]
    CountRange {
        /// The number of the instrument.
        instrument: u32,
    },
    /// Two sums of an instrument's values may be 2^64 or more apart.
    #[error("6 AmountRange")]
    AmountRange {
        /// The number of the instrument.
        instrument: u32,
    },
    /// Out of memory.
    #[error("7 Memory")]
    Memory,
}

impl From<AllocError> for MakeFault {
    ghost use Rattle.std.specs.Prelude.{◌≡◌};
    ghost use Rattle.metric_make.specs.declared.fault.MakeFault.TheVariants.{Memory};

    ghost from_gives = { λ _ fault. fault ≡ Memory };

    fn from(_refused: AllocError) -> MakeFault {
        MakeFault::Memory
    }
}
