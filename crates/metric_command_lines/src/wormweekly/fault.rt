//! Why a command line asks for nothing.

ghost use Rattle.clap.specs.Words.{kind_of};
ghost use Rattle.metric_command_lines.specs.RequestFaults.{IsToldOrMemory, IsUsageOrMemory, TellsKind};

use clap::Error;
use clap::error::ErrorKind;
use std::alloc::{AllocError, Global};

/// What an option does not take.
#[derive(Clone, Copy, Debug, PartialEq, Eq, Drop)]
pub enum Misuse {
    /// `--deny` was given no kind of remark, or of `diff` of change, nor the word for all.
    Deny,
    /// `--allow` was given no such kind.
    Allow,
    /// `--for` was given no way out that there is.
    Outlet,
    /// `--as` was given no form that there is.
    Form,
    /// `--for` was given no language that code is made for, or was not given.
    Language,
    /// `--audit` stands beside `--as`, which prints no replies that were audited.
    Audit,
    /// `--resource` stands without `--as`.
    Resource,
    /// `--reader` stands without a page to print.
    Reader,
    /// Two of the files that are read are standard input.
    Input,
    /// A word of `--resource` has no `=`.
    NoEquals,
    /// There are more attributes than a resource has.
    TooMany,
    /// The key of an attribute is empty.
    EmptyKey,
    /// Two attributes have one key.
    RepeatedKey,
}

/// Why a command line asks for no command.
#[derive(Debug, Drop)]
pub enum RequestFault {
    /// The words ask for help or for the version, which is this text for standard output.
    Told(String),
    /// The words are no command line of this program. The text says why, for standard error.
    Usage(String),
    /// The words name no command.
    Nothing,
    /// The words are a command line, and an option was given what it does not take.
    Misused(Misuse),
    /// Out of memory.
    Memory,
}

impl From<AllocError> for RequestFault {
    ghost use Rattle.std.specs.Prelude.{◌≡◌};
    ghost use Rattle.metric_command_lines.specs.declared.wormweekly.fault.RequestFault.TheVariants.{Memory};

    ghost from_gives = { λ _ fault. fault ≡ Memory };

    fn from(_refused: AllocError) -> RequestFault {
        RequestFault::Memory
    }
}

/// What clap's refusal of a command line comes to, with its text.
pub(crate) fn fault_of(alloc: Global, error: &Error) -> RequestFault
    ensures { TellsKind (kind_of error.now) result }
{
    match error.kind() {
        ErrorKind::OutOfMemory => RequestFault::Memory,
        ErrorKind::DisplayHelp | ErrorKind::DisplayVersion => told(alloc, error),
        _ => misused(alloc, error),
    }
}

// A call for help or for the version.
fn told(alloc: Global, error: &Error) -> RequestFault
    ensures { IsToldOrMemory result }
{
    match error.to_string(alloc) {
        Ok(text) => RequestFault::Told(text),
        Err(_) => RequestFault::Memory,
    }
}

// A misuse.
fn misused(alloc: Global, error: &Error) -> RequestFault
    ensures { IsUsageOrMemory result }
{
    match error.to_string(alloc) {
        Ok(text) => RequestFault::Usage(text),
        Err(_) => RequestFault::Memory,
    }
}
