//! Why an input is not read.
use std::alloc::AllocError;
use thiserror::Error;

/// Why an input has no parts, or the lines of its script are no script.
#[derive(Clone, Copy, Debug, PartialEq, Eq, Error)]
pub enum InputFault {
    /// No input, or no script, goes on with the line of this number. Where a line is missing at
    /// the end, it is one more than the number of lines.
    #[error("input line {line}")]
    Input {
        /// The line's number in the input, counted from 1.
        line: u64,
    },
    /// Out of memory.
    #[error("memory")]
    Memory,
}

impl From<AllocError> for InputFault {
    ghost use Rattle.std.specs.Prelude.{◌≡◌};
    ghost use Rattle.metric_parts.specs.declared.fault.InputFault.TheVariants.{Memory};

    ghost from_gives = { λ _ fault. fault ≡ Memory };

    fn from(_refused: AllocError) -> InputFault {
        InputFault::Memory
    }
}
