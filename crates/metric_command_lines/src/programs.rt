//! Programs, put together of their commands for clap.
ghost use Rattle.std.specs.Prelude.{◌≡◌, false, IfOk};
ghost use Rattle.clap.specs.Words.{App, app_of, with_subcommand};
ghost use Rattle.clap.specs.declared.builder.command.Command.TheViews.{out-Command as fields_of};

use clap::Command;
use std::alloc::AllocError;

/// A program with one more command, where both could be made. It is the only place where one of the two is dropped.
pub(crate) fn with_command<'a>(
    program: Result<Command<'a>, AllocError>,
    more: Result<Command<'a>, AllocError>,
) -> Result<Command<'a>, AllocError>
    ensures { (before added : App) → IfOk program.entry (λ command. app_of command ≡ before)
        → IfOk more.entry (λ command. app_of command ≡ added)
        → IfOk more.entry (λ command. (fields_of command).has_globals ≡ false)
        → IfOk result (λ command. app_of command ≡ with_subcommand before added.top) }
{
    program?.subcommand(more?)
}
