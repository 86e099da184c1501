//! The command that holds queries against what pages can have.
ghost use Rattle.std.specs.Prelude.{◌≡◌, false, IfOk};
ghost use Rattle.clap.specs.Words.{app_of, rule_of};
ghost use Rattle.clap.specs.declared.builder.command.Command.TheViews.{out-Command as fields_of};
ghost use Rattle.metric_command_lines.specs.Apps.{concerned_app, files_rule, queries_app};

use crate::wormweekly::arguments::{flag, text, texts};
use crate::wormweekly::commands::{over_pair, with_argument};
use clap::{Arg, ArgAction, Command};
use std::alloc::{AllocError, Global};

const ABOUT: &str = "Prints what queries ask for that no page can ever have, with its place";

const KINDS: &str =
    "A file is rules of Prometheus (.yaml), a dashboard of Grafana (.json), or PromQL, one a line.

Kinds, each to be named as often as wanted:
  unread            a text that is no PromQL
  bad-pattern       an expression that cannot be read
  unknown-family    a name that no page has
  unknown-suffix    an end of a name that its type does not have
  left-out          a sum or a count that pages leave out
  unknown-label     a label that no line of the name has
  unknown-value     a value that is not declared
  unknown-boundary  an `le` that no bucket has
  matches-none      an expression that matches no value
  matches-all       what excludes each value
  never-together    matchers that no line fulfils together
  rate-of-gauge     a rate of what is no counter
  no-buckets        a quantile over what has no `le` left

Example:
  wormweekly queries catalogue.toml config.toml rules.yaml dashboard.json --deny remarks";

/// The command `queries`.
pub(crate) fn queries<'a>(alloc: Global) -> Result<Command<'a>, AllocError>
    ensures app { IfOk result (λ command. app_of command ≡ queries_app) }
    ensures local { IfOk result (λ command. (fields_of command).has_globals ≡ false) }
{
    let command = concerned(alloc);
    let help =
        "Which page: `prometheus`, `openmetrics`, which is the default, or `openmetrics-created`";
    let command = with_argument(command, text(alloc, "as", "FORM", help));
    let help = "The reader of the page; else each that a page can be made of";
    let command = with_argument(command, text(alloc, "reader", "NAME", help));
    let help =
        "A label that the server adds to each line, as often as wanted, beside `job` and `instance`";
    let command = with_argument(command, texts(alloc, "label", "NAME", help));
    with_argument(command, files(alloc, "queries", "FILE", "The queries"))
}

// The same with the options of what is told alone.
fn concerned<'a>(alloc: Global) -> Result<Command<'a>, AllocError>
    ensures app { IfOk result (λ command. app_of command ≡ concerned_app) }
    ensures local { IfOk result (λ command. (fields_of command).has_globals ≡ false) }
{
    let command = over_pair(alloc, "queries", ABOUT, KINDS);
    let help = "Print a line of JSON for each";
    let command = with_argument(command, flag(alloc, "json", help));
    let help = "End with status 1 where there are such; `remarks`: any";
    let command = with_argument(command, texts(alloc, "deny", "KIND", help));
    let help = "Leave such out";
    with_argument(command, texts(alloc, "allow", "KIND", help))
}

// The paths of files, by their place behind all others: one at least.
fn files<'a>(alloc: Global, id: &'a str, name: &'a str, help: &'a str) -> Arg<'a>
    ensures rule { rule_of result ≡ files_rule id.entry.now }
    ensures own { result.global ≡ false }
{
    Arg::new(alloc, id)
        .value_name(name)
        .help(help)
        .required(true)
        .action(ArgAction::Append)
}
