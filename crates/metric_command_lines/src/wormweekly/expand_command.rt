//! The command that expands a short catalogue.
ghost use Rattle.std.specs.Prelude.{◌≡◌, false, IfOk};
ghost use Rattle.clap.specs.Words.{app_of};
ghost use Rattle.clap.specs.declared.builder.command.Command.TheViews.{out-Command as fields_of};
ghost use Rattle.metric_command_lines.specs.Apps.{expand_app, single_app};

use crate::wormweekly::arguments::{file, output};
use crate::wormweekly::commands::{named, with_argument};
use clap::Command;
use std::alloc::{AllocError, Global};

const ABOUT: &str = "Prints a catalogue of format 3 as the catalogue of format 2 that it means";

const EXAMPLE: &str =
    "For readers of format 2 alone; every command of wormweekly reads format 3 too.

Example:
  wormweekly expand catalogue.toml -o expanded.toml";

/// The command `expand`.
pub(crate) fn expand<'a>(alloc: Global) -> Result<Command<'a>, AllocError>
    ensures app { IfOk result (λ command. app_of command ≡ expand_app) }
    ensures local { IfOk result (λ command. (fields_of command).has_globals ≡ false) }
{
    let command = single(alloc);
    with_argument(command, output(alloc))
}

// The command with its one file.
fn single<'a>(alloc: Global) -> Result<Command<'a>, AllocError>
    ensures app { IfOk result (λ command. app_of command ≡ single_app) }
    ensures local { IfOk result (λ command. (fields_of command).has_globals ≡ false) }
{
    let command = Ok(named(alloc, "expand", ABOUT, EXAMPLE));
    let help = "The catalogue";
    with_argument(command, file(alloc, "catalogue", "CATALOGUE", help, true))
}
