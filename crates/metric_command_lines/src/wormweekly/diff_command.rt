//! The command that compares two catalogues and configs.
ghost use Rattle.std.specs.Prelude.{◌≡◌, false, IfOk};
ghost use Rattle.clap.specs.Words.{app_of};
ghost use Rattle.clap.specs.declared.builder.command.Command.TheViews.{out-Command as fields_of};
ghost use Rattle.metric_command_lines.specs.Apps.{compared_app, denied_app, diff_app, old_app};

use crate::wormweekly::arguments::{file, flag, text, texts};
use crate::wormweekly::commands::{named, with_argument, with_queries};
use clap::Command;
use std::alloc::{AllocError, Global};

const ABOUT: &str = "Prints what a change of a catalogue or a config does, and what it breaks";

const EXAMPLE: &str =
    "Breaking: what dashboards and alerts name goes or is made otherwise, or a recording that was declared may be refused.

Kinds, each to be named as often as wanted:
  gone-reader        a reader that is gone
  new-reader         a reader that is new
  gone-collision     streams no longer have one name
  new-collision      streams have one name that had not
  gone-stream        a stream that is gone
  new-stream         a stream that is new
  gone-key           a key that a stream keeps or an instrument declares, gone
  new-key            a key that is new
  gone-instrument    an instrument that is gone
  new-instrument     an instrument that is new
  gone-value         a value that is gone
  new-value          a value that is new
  gone-combination   a combination that is refused now
  new-combination    a combination that is allowed now
  gone-recorder      a recorder that is gone
  new-recorder       a recorder that is new
  reader             a reader of another name
  series             how many series a stream may have
  name               capitals of a name
  description        another description
  unit               another unit
  kind               another kind of instrument
  aggregation        another aggregation
  boundaries         other boundaries
  limit              another limit of series
  temporality        another temporality
  instrument         a stream of another instrument
  key                a key that turns required or optional
  range              another range
  spare              another spare budget
  combinations       combinations that are listed now, or no longer
  budget             another budget
  headroom           another greatest total
  broken-query       a query of which nothing was told before: see `queries`

Example:
  wormweekly diff old/catalogue.toml old/config.toml catalogue.toml config.toml --deny breaking";

/// The command `diff`.
pub(crate) fn diff<'a>(alloc: Global) -> Result<Command<'a>, AllocError>
    ensures app { IfOk result (λ command. app_of command ≡ diff_app) }
    ensures local { IfOk result (λ command. (fields_of command).has_globals ≡ false) }
{
    let command = denied(alloc);
    let help = "Print a line of JSON for each change";
    with_queries(alloc, with_argument(command, flag(alloc, "json", help)))
}

// The command with what counts of the changes.
fn denied<'a>(alloc: Global) -> Result<Command<'a>, AllocError>
    ensures app { IfOk result (λ command. app_of command ≡ denied_app) }
    ensures local { IfOk result (λ command. (fields_of command).has_globals ≡ false) }
{
    let command = compared(alloc);
    let help = "A certificate of the old ones: whether it holds for the new ones too";
    let certificate = text(alloc, "certificate", "FILE", help);
    let command = with_argument(command, certificate);
    let help = "Changes that are accepted: a line for each as it is printed";
    let command = with_argument(command, text(alloc, "accepted", "FILE", help));
    let help = "End with status 1 where there are such changes; `breaking`: any that breaks";
    let command = with_argument(command, texts(alloc, "deny", "KIND", help));
    let help = "Leave such changes out";
    with_argument(command, texts(alloc, "allow", "KIND", help))
}

// The command with its four files.
fn compared<'a>(alloc: Global) -> Result<Command<'a>, AllocError>
    ensures app { IfOk result (λ command. app_of command ≡ compared_app) }
    ensures local { IfOk result (λ command. (fields_of command).has_globals ≡ false) }
{
    let command = old(alloc);
    let help = "The new catalogue";
    let command = with_argument(
        command,
        file(alloc, "catalogue", "NEW_CATALOGUE", help, true),
    );
    let help = "The new config";
    with_argument(command, file(alloc, "config", "NEW_CONFIG", help, true))
}

// The command with the two old files.
fn old<'a>(alloc: Global) -> Result<Command<'a>, AllocError>
    ensures app { IfOk result (λ command. app_of command ≡ old_app) }
    ensures local { IfOk result (λ command. (fields_of command).has_globals ≡ false) }
{
    let command = Ok(named(alloc, "diff", ABOUT, EXAMPLE));
    let help = "The old catalogue";
    let command = with_argument(
        command,
        file(alloc, "old_catalogue", "OLD_CATALOGUE", help, true),
    );
    let help = "The old config";
    with_argument(command, file(alloc, "old_config", "OLD_CONFIG", help, true))
}
