//! The command that makes code of a catalogue.
ghost use Rattle.std.specs.Prelude.{◌≡◌, false, IfOk};
ghost use Rattle.clap.specs.Words.{app_of, rule_of};
ghost use Rattle.clap.specs.declared.builder.command.Command.TheViews.{out-Command as fields_of};
ghost use Rattle.metric_command_lines.specs.Apps.{bind_app, bound_app, old_rule};

use crate::wormweekly::arguments::{file, output, text};
use crate::wormweekly::commands::{named, with_argument};
use clap::{Arg, Command};
use std::alloc::{AllocError, Global};

const ABOUT: &str = "Makes code of a catalogue, in which what is not declared does not compile";

const EXAMPLE: &str = "Example:
  wormweekly bind --for rust catalogue.toml -o src/bound.rs
  wormweekly bind --for rust catalogue.toml --check src/bound.rs";

/// The command `bind`.
pub(crate) fn bind<'a>(alloc: Global) -> Result<Command<'a>, AllocError>
    ensures app { IfOk result (λ command. app_of command ≡ bind_app) }
    ensures local { IfOk result (λ command. (fields_of command).has_globals ≡ false) }
{
    let command = over_files(alloc);
    let help = "The language: `rust`, `go`, `python`, `c` or `rattle`";
    let language = renamed(alloc, "language", "for", "LANGUAGE", help);
    let command = with_argument(command, language);
    let help = "Write nothing, and end with status 1 if this file would be made otherwise";
    let command = with_argument(command, renamed(alloc, "bound", "check", "FILE", help));
    with_argument(command, output(alloc))
}

// The command with its files, of which the config may be missing.
fn over_files<'a>(alloc: Global) -> Result<Command<'a>, AllocError>
    ensures app { IfOk result (λ command. app_of command ≡ bound_app) }
    ensures local { IfOk result (λ command. (fields_of command).has_globals ≡ false) }
{
    let command = Ok(named(alloc, "bind", ABOUT, EXAMPLE));
    let help = "What may be recorded";
    let command = with_argument(command, file(alloc, "catalogue", "CATALOGUE", help, true));
    let help = "The readers: they become fields too";
    with_argument(command, file(alloc, "config", "CONFIG", help, false))
}

// An option that has another name than its words.
fn renamed<'a>(alloc: Global, id: &'a str, long: &'a str, name: &'a str, help: &'a str) -> Arg<'a>
    ensures rule { rule_of result ≡ old_rule id.entry.now long.entry.now }
    ensures own { result.global ≡ false }
{
    text(alloc, id, name, help).long(long)
}
