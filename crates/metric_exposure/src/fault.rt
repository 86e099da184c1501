//! Why streams cannot be exposed.
ghost use Rattle.std.specs.Prelude.{◌≡◌};

use std::alloc::AllocError;
use std::fmt;

/// Why a reader's streams cannot stand in a page or a request, in the order in which the faults of a stream are tried.
/// A stream is told by its place among all streams of the plan, a key by its place among those that its instrument
/// declares, each counted from 0.
#[derive(Clone, Copy, Debug, PartialEq, Eq, Drop)]
pub enum ExposureFault {
    /// The stream is a delta: a page has what was recorded since the start.
    Delta {
        /// The stream.
        stream: usize,
    },
    /// A boundary is below -2^53 or above 2^53: as doubles, two of them could be one.
    Boundary {
        /// The stream.
        stream: usize,
    },
    /// No word is left for the family's name.
    Nameless {
        /// The stream.
        stream: usize,
    },
    /// Another claims a name that is the family's or one of its samples'.
    NameCollision {
        /// The stream.
        stream: usize,
        /// The first stream of the reader that claims the name, or none where it is the target's: `target_info`, or what a
        /// server writes itself, as `up`.
        with: Option<usize>,
    },
    /// The key has no letter and no digit, so that its label says nothing.
    BadLabel {
        /// The stream.
        stream: usize,
        /// The key.
        key: usize,
    },
    /// The key's label is that of a kept key before it, one of the scope that has a text, `otel_metric_overflow`, `le` in
    /// a histogram, or one under which a server that renames `job` and `instance` would make two series one.
    LabelCollision {
        /// The stream.
        stream: usize,
        /// The key.
        key: usize,
    },
    /// Two values of the key have one text, or it may be absent and a value is the empty text.
    ValueCollision {
        /// The stream.
        stream: usize,
        /// The key.
        key: usize,
    },
    /// Out of memory.
    Memory,
}

impl fmt::Display for ExposureFault {
    ghost use Rattle.std.specs.Prelude.{Some};
    ghost use Rattle.metric_exposure.specs.Faults.{exposure_fault_text};

    ghost output = { λ fault. Some (exposure_fault_text fault) };

    fn fmt<W: fmt::Write>(&self, f: &mut fmt::Formatter<W>) -> fmt::Result {
        match self {
            ExposureFault::Delta { stream } => write!(f, "1 Delta of stream {stream}"),
            ExposureFault::Boundary { stream } => write!(f, "2 Boundary of stream {stream}"),
            ExposureFault::Nameless { stream } => write!(f, "3 Nameless of stream {stream}"),
            ExposureFault::NameCollision { stream, with: None } => {
                write!(f, "4 NameCollision of stream {stream} and the target")
            }
            ExposureFault::NameCollision {
                stream,
                with: Some(other),
            } => { write!(f, "4 NameCollision of stream {stream} and stream {other}") }
            ExposureFault::BadLabel { stream, key } => {
                write!(f, "5 BadLabel of stream {stream}, key {key}")
            }
            ExposureFault::LabelCollision { stream, key } => {
                write!(f, "6 LabelCollision of stream {stream}, key {key}")
            }
            ExposureFault::ValueCollision { stream, key } => {
                write!(f, "7 ValueCollision of stream {stream}, key {key}")
            }
            ExposureFault::Memory => f.write_str("8 Memory"),
        }
    }
}

impl std::error::Error for ExposureFault {}

impl From<AllocError> for ExposureFault {
    ghost use Rattle.metric_exposure.specs.declared.fault.ExposureFault.TheVariants.{Memory};

    ghost from_gives = { λ _ fault. fault ≡ Memory };

    fn from(_refused: AllocError) -> ExposureFault {
        ExposureFault::Memory
    }
}
