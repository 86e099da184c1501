//! The command that writes a page for people, and what it has in common with the picture.
ghost use Rattle.std.specs.Prelude.{◌≡◌, false, IfOk};
ghost use Rattle.clap.specs.Words.{app_of, rule_of};
ghost use Rattle.clap.specs.declared.builder.command.Command.TheViews.{out-Command as fields_of};
ghost use Rattle.metric_command_lines.specs.Apps.{changed_app, old_rule, report_app};

use crate::wormweekly::arguments::{flag, number, output, text, texts};
use crate::wormweekly::commands::{
    FAULT_AS_JSON, MOST_INSTANCES, MOST_RATE, over_pair, with_argument, with_queries,
};
use clap::{Arg, Command};
use std::alloc::{AllocError, Global};

const ABOUT: &str =
    "Writes a page for whoever reviews a change: streams, remarks, budgets and the picture";

const EXAMPLE: &str = "The page is one file of HTML without a script, and loads nothing.

Example:
  wormweekly report catalogue.toml config.toml --old-config main/config.toml -o report.html";

/// The command `report`.
pub(crate) fn report<'a>(alloc: Global) -> Result<Command<'a>, AllocError>
    ensures app { IfOk result (λ command. app_of command ≡ report_app) }
    ensures local { IfOk result (λ command. (fields_of command).has_globals ≡ false) }
{
    let command = over_change(alloc, "report", ABOUT, EXAMPLE);
    let help = "Leave such remarks out";
    let command = with_argument(command, texts(alloc, "allow", "KIND", help));
    let help =
        "Tell too what a way out would lose, as often as wanted: `prometheus` or `otlp`, of one reader with `=` and its name";
    let command = with_argument(command, texts(alloc, "for", "OUTLET", help));
    let help = "Recordings a second on each instrument";
    let command = with_argument(command, number(alloc, "rate", help, 1, MOST_RATE, "10000"));
    let help = "Processes that a backend adds up";
    let instances = number(alloc, "instances", help, 1, MOST_INSTANCES, "1");
    with_queries(alloc, with_argument(command, instances))
}

/// A command over a catalogue and a config, with its output and the old files.
pub(crate) fn over_change<'a>(
    alloc: Global,
    name: &'a str,
    about: &'a str,
    example: &'a str,
) -> Result<Command<'a>, AllocError>
    ensures app { IfOk result (λ command. app_of command ≡ changed_app name.entry.now) }
    ensures local { IfOk result (λ command. (fields_of command).has_globals ≡ false) }
{
    let command = over_pair(alloc, name, about, example);
    let command = with_argument(command, output(alloc));
    let command = with_argument(command, flag(alloc, "json", FAULT_AS_JSON));
    let help = "The catalogue before the change; without one, the same";
    let catalogue = old(alloc, "old_catalogue", "old-catalogue", help);
    let command = with_argument(command, catalogue);
    let help = "The config before the change; without one, the same";
    with_argument(command, old(alloc, "old_config", "old-config", help))
}

// The option of an old file.
fn old<'a>(alloc: Global, id: &'a str, long: &'a str, help: &'a str) -> Arg<'a>
    ensures rule { rule_of result ≡ old_rule id.entry.now long.entry.now }
    ensures own { result.global ≡ false }
{
    text(alloc, id, "FILE", help).long(long)
}
