//! What a command line asks for, and why it is refused.
ghost use Rattle.std.specs.Prelude.{◌≡◌};
ghost use Rattle.clap.specs.Words.{kind_of};
ghost use Rattle.metric_command_lines.specs.declared.kit.line.LineFault.TheVariants.{Memory};
ghost use Rattle.metric_command_lines.specs.LineFaults.{line_fault};

use clap::error::ErrorKind;
use std::alloc::AllocError;
use thiserror::Error;

// How often `threads` records at most, by each recorder on each instrument.
pub(crate) const MOST_EACH: u64 = 1_000_000;

/// A command of the program, with its flags.
#[derive(Clone, Copy, Debug, PartialEq, Eq)]
pub enum Line {
    /// Print a certificate that a catalogue and a config are safe.
    Make,
    /// Check a certificate that a catalogue and a config are safe.
    Check,
    /// Print the streams and the warnings of a config.
    Show,
    /// Replay a script and print its replies.
    Replay {
        /// Whether the plan is made as a trial, without a certificate.
        trial: bool,
        /// Whether the replies are audited before they are printed.
        audit: bool,
    },
    /// Record and collect in threads, and print what was recorded.
    Threads {
        /// How often each recorder records on each instrument.
        each: u32,
    },
}

/// Why a command line is refused. The text is what the program tells after `refused: `.
#[derive(Clone, Copy, Debug, PartialEq, Eq, Error)]
pub enum LineFault {
    /// The words are no command line of this program, or ask for its help or version.
    #[error("usage")]
    Usage,
    /// Out of memory.
    #[error("memory")]
    Memory,
}

impl From<clap::Error> for LineFault {
    ghost from_gives = { λ error fault. fault ≡ line_fault (kind_of error) };

    fn from(error: clap::Error) -> LineFault {
        match error.kind() {
            ErrorKind::OutOfMemory => LineFault::Memory,
            _ => LineFault::Usage,
        }
    }
}

impl From<AllocError> for LineFault {
    ghost from_gives = { λ _ fault. fault ≡ Memory };

    fn from(_refused: AllocError) -> LineFault {
        LineFault::Memory
    }
}
