//! The program and its commands, as clap is told of them.
ghost use Rattle.std.specs.Prelude.{◌≡◌, false, IfOk};
ghost use Rattle.clap.specs.Words.{App, Rule, app_of, new_app, rule_of, with_rule};
ghost use Rattle.clap.specs.declared.builder.command.Command.TheViews.{out-Command as fields_of};
ghost use Rattle.metric_command_lines.specs.Apps.{bare_app, check_app, draw_app, first_app, headroom_app, lint_app, make_app, pair_app, program_app, queried_app};
ghost use Rattle.metric_command_lines.specs.Apps.{replay_app, second_app, show_app, table_app};

use crate::programs::with_command;
use crate::wormweekly::arguments::{file, flag, number, output, text, texts};
use crate::wormweekly::bind_command::bind;
use crate::wormweekly::diff_command::diff;
use crate::wormweekly::expand_command::expand;
use crate::wormweekly::queries_command::queries;
use crate::wormweekly::report_command::{over_change, report};
use clap::{Arg, Command};
use std::alloc::{AllocError, Global};

// The widest table, the highest rate, the most processes and the longest time.
const MOST_WIDTH: u64 = 1_000;

pub(crate) const MOST_RATE: u64 = 1_000_000_000;

pub(crate) const MOST_INSTANCES: u64 = 1_000_000;

const MOST_SECONDS: u64 = 1_000_000_000;

/// The version of the program.
pub const VERSION: &str = "0.4.0";

const ABOUT: &str = "Tells before a deploy what a catalogue and a config of metrics will give.";

const EXAMPLE: &str = "Example:
  wormweekly lint catalogue.toml config.toml
  wormweekly make catalogue.toml config.toml -o certificate.toml
  wormweekly check catalogue.toml config.toml certificate.toml

Status: 0 done, 1 refused or denied, 2 usage, 3 a file with a fault, 4 no memory, 5 a write failed,
141 the pipe of standard output was closed.";

const FORMS: &str =
    "Print batches alone, `otlp-json` or `otlp-bytes`, or the page of the last of them, \
    `prometheus`, `openmetrics` or `openmetrics-created`";

pub(crate) const FAULT_AS_JSON: &str = "Print a fault as a line of JSON";

const LINTS: &str = "Kinds, each to be named as often as wanted:
  unfit              a view that names an aggregation that does not fit
  collision          two streams of one identity
  selects-nothing    a view that selects no instrument
  unknown-key        a key of a view that no selected instrument declares
  unused-boundaries  boundaries of a view that makes no histogram
  says-nothing       a view without a criterion and a setting
  kept-and-excluded  a key that a view both keeps and excludes
  unrecorded         an instrument that nobody can record on
  nothing-allowed    an instrument that lists no combination
  one-value          an instrument of one value, which tells nothing
  unused-value       a value that no allowed combination has
  one-bucket         boundaries of which one bucket takes each value
  far-boundaries     boundaries that look like numbers of another unit
  over-budget        budgets above what is safe
  no-budget          a recorder without any budget
  no-recorder        a catalogue without a recorder
  no-stream          a reader of which each stream is dropped
  level-delta        a delta reader of up-down counters or gauges
  no-reader          a config without a reader
  exposure           what a way out would lose

Example:
  wormweekly lint catalogue.toml config.toml --deny remarks --allow no-budget";

/// The program with all its commands.
pub(crate) fn program<'a>(alloc: Global) -> Result<Command<'a>, AllocError>
    ensures { IfOk result (λ command. app_of command ≡ program_app) }
{
    let program = with_command(second(alloc), replay(alloc));
    let program = with_command(program, draw(alloc));
    let program = with_command(program, diff(alloc));
    let program = with_command(program, report(alloc));
    let program = with_command(program, expand(alloc));
    let program = with_command(program, queries(alloc));
    with_command(program, bind(alloc))
}

fn second<'a>(alloc: Global) -> Result<Command<'a>, AllocError>
    ensures { IfOk result (λ command. app_of command ≡ second_app) }
{
    let program = with_command(first(alloc), make(alloc));
    with_command(program, check(alloc))
}

fn first<'a>(alloc: Global) -> Result<Command<'a>, AllocError>
    ensures { IfOk result (λ command. app_of command ≡ first_app) }
{
    let program = with_command(Ok(bare(alloc)), lint(alloc));
    let program = with_command(program, show(alloc));
    with_command(program, headroom(alloc))
}

// A command with one more argument, where it could be made. The argument is dropped nowhere else.
pub(crate) fn with_argument<'a>(
    command: Result<Command<'a>, AllocError>,
    argument: Arg<'a>,
) -> Result<Command<'a>, AllocError>
    ensures app { (before : App) → (rule : Rule)
        → IfOk command.entry (λ command. app_of command ≡ before)
        → rule_of argument.entry ≡ rule → argument.entry.global ≡ false
        → IfOk result (λ command. app_of command ≡ with_rule before rule) }
    ensures local { IfOk command.entry (λ command. (fields_of command).has_globals ≡ false)
        → argument.entry.global ≡ false
        → IfOk result (λ command. (fields_of command).has_globals ≡ false) }
{
    command?.arg(argument)
}

/// A command that may be asked about queries.
pub(crate) fn with_queries<'a>(
    alloc: Global,
    command: Result<Command<'a>, AllocError>,
) -> Result<Command<'a>, AllocError>
    ensures app { (before : App) → IfOk command.entry (λ command. app_of command ≡ before)
        → IfOk result (λ command. app_of command ≡ queried_app before) }
    ensures local { IfOk command.entry (λ command. (fields_of command).has_globals ≡ false)
        → IfOk result (λ command. (fields_of command).has_globals ≡ false) }
{
    let help = "Rules, a dashboard or queries, as often as wanted: what they ask for in vain";
    let command = with_argument(command, texts(alloc, "queries", "FILE", help));
    let help = "A label that the server adds to each line, beside `job` and `instance`";
    with_argument(command, texts(alloc, "label", "NAME", help))
}

// The program without a command.
fn bare<'a>(alloc: Global) -> Command<'a>
    ensures { app_of result ≡ bare_app }
{
    named(alloc, "wormweekly", ABOUT, EXAMPLE).version(VERSION)
}

// A command, with what it does and an example.
pub(crate) fn named<'a>(
    alloc: Global,
    name: &'a str,
    about: &'a str,
    example: &'a str,
) -> Command<'a>
    ensures app { app_of result ≡ new_app name.entry.now }
    ensures local { (fields_of result).has_globals ≡ false }
{
    Command::new(alloc, name).about(about).after_help(example)
}

// A command over a catalogue and a config.
pub(crate) fn over_pair<'a>(
    alloc: Global,
    name: &'a str,
    about: &'a str,
    example: &'a str,
) -> Result<Command<'a>, AllocError>
    ensures app { IfOk result (λ command. app_of command ≡ pair_app name.entry.now) }
    ensures local { IfOk result (λ command. (fields_of command).has_globals ≡ false) }
{
    let command = Ok(named(alloc, name, about, example));
    let help = "What may be recorded";
    let command = with_argument(command, file(alloc, "catalogue", "CATALOGUE", help, true));
    let help = "The readers and views";
    with_argument(command, file(alloc, "config", "CONFIG", help, true))
}

// One that prints a table.
fn over_table<'a>(
    alloc: Global,
    name: &'a str,
    about: &'a str,
    example: &'a str,
) -> Result<Command<'a>, AllocError>
    ensures app { IfOk result (λ command. app_of command ≡ table_app name.entry.now) }
    ensures local { IfOk result (λ command. (fields_of command).has_globals ≡ false) }
{
    let command = over_pair(alloc, name, about, example);
    let help = "Print a line of JSON for each row";
    let command = with_argument(command, flag(alloc, "json", help));
    let help = "How wide the table may be; 0: as the variable COLUMNS says, else as wide as it is";
    with_argument(command, number(alloc, "width", help, 0, MOST_WIDTH, "0"))
}

fn lint<'a>(alloc: Global) -> Result<Command<'a>, AllocError>
    ensures app { IfOk result (λ command. app_of command ≡ lint_app) }
    ensures local { IfOk result (λ command. (fields_of command).has_globals ≡ false) }
{
    let command = over_pair(
        alloc,
        "lint",
        "Prints what looks like a mistake, with its place",
        LINTS,
    );
    let help = "Print a line of JSON for each remark";
    let command = with_argument(command, flag(alloc, "json", help));
    let help = "End with status 1 where there are such remarks; `remarks`: any";
    let command = with_argument(command, texts(alloc, "deny", "KIND", help));
    let help = "Leave such remarks out";
    let command = with_argument(command, texts(alloc, "allow", "KIND", help));
    let help =
        "Tell too what a way out would lose, as often as wanted: `prometheus` or `otlp`, of one reader with `=` and its name";
    with_argument(command, texts(alloc, "for", "OUTLET", help))
}

fn show<'a>(alloc: Global) -> Result<Command<'a>, AllocError>
    ensures app { IfOk result (λ command. app_of command ≡ show_app) }
    ensures local { IfOk result (λ command. (fields_of command).has_globals ≡ false) }
{
    over_table(
        alloc,
        "show",
        "Prints the streams that the config gives, with what they hold at most",
        "Example:\n  wormweekly show catalogue.toml config.toml",
    )
}

fn headroom<'a>(alloc: Global) -> Result<Command<'a>, AllocError>
    ensures app { IfOk result (λ command. app_of command ≡ headroom_app) }
    ensures local { IfOk result (λ command. (fields_of command).has_globals ≡ false) }
{
    let command = over_table(
        alloc,
        "headroom",
        "Prints how often each instrument may be recorded, and what would fail first",
        "Example:\n  wormweekly headroom catalogue.toml config.toml --rate 10000 --instances 500",
    );
    let help = "Recordings a second on each instrument";
    let command = with_argument(command, number(alloc, "rate", help, 1, MOST_RATE, "10000"));
    let help = "Processes that a backend adds up";
    let instances = number(alloc, "instances", help, 1, MOST_INSTANCES, "1");
    let command = with_argument(command, instances);
    let help = "Seconds that each total is to last: status 1 where one ends earlier; 0: any";
    with_argument(command, number(alloc, "lasts", help, 0, MOST_SECONDS, "0"))
}

fn make<'a>(alloc: Global) -> Result<Command<'a>, AllocError>
    ensures app { IfOk result (λ command. app_of command ≡ make_app) }
    ensures local { IfOk result (λ command. (fields_of command).has_globals ≡ false) }
{
    let command = over_pair(
        alloc,
        "make",
        "Makes a certificate that the two are safe, or says what is not",
        "Example:\n  wormweekly make catalogue.toml config.toml -o certificate.toml",
    );
    let command = with_argument(command, output(alloc));
    with_argument(command, flag(alloc, "json", FAULT_AS_JSON))
}

fn check<'a>(alloc: Global) -> Result<Command<'a>, AllocError>
    ensures app { IfOk result (λ command. app_of command ≡ check_app) }
    ensures local { IfOk result (λ command. (fields_of command).has_globals ≡ false) }
{
    let command = over_pair(
        alloc,
        "check",
        "Checks a certificate, and prints `accepted`",
        "Example:\n  wormweekly check catalogue.toml config.toml certificate.toml",
    );
    let help = "The certificate, whoever made it";
    let certificate = file(alloc, "certificate", "CERTIFICATE", help, true);
    let command = with_argument(command, certificate);
    let help = "Print the answer, or a fault, as a line of JSON";
    with_argument(command, flag(alloc, "json", help))
}

fn replay<'a>(alloc: Global) -> Result<Command<'a>, AllocError>
    ensures app { IfOk result (λ command. app_of command ≡ replay_app) }
    ensures local { IfOk result (λ command. (fields_of command).has_globals ≡ false) }
{
    let command = over_pair(
        alloc,
        "replay",
        "Runs a script of events and prints each reply; without a certificate as a trial",
        "Example:\n  wormweekly replay catalogue.toml config.toml certificate.toml script.txt --audit",
    );
    let help = "The certificate, or the script where no other file follows";
    let third = file(alloc, "third", "[CERTIFICATE] SCRIPT", help, true);
    let command = with_argument(command, third);
    let help = "The script, after a certificate";
    let command = with_argument(command, file(alloc, "fourth", "SCRIPT", help, false));
    let help = "Audit the replies before they are printed";
    let command = with_argument(command, flag(alloc, "audit", help));
    let command = with_argument(command, text(alloc, "as", "FORM", FORMS));
    let help = "An attribute of what produces them, as often as wanted";
    let command = with_argument(command, texts(alloc, "resource", "KEY=VALUE", help));
    let help = "The reader of a page, where the config has several";
    let command = with_argument(command, text(alloc, "reader", "NAME", help));
    with_argument(command, flag(alloc, "json", FAULT_AS_JSON))
}

fn draw<'a>(alloc: Global) -> Result<Command<'a>, AllocError>
    ensures app { IfOk result (λ command. app_of command ≡ draw_app) }
    ensures local { IfOk result (λ command. (fields_of command).has_globals ≡ false) }
{
    over_change(
        alloc,
        "draw",
        "Draws readers, views, instruments and streams, as an SVG",
        "Example:\n  wormweekly draw catalogue.toml config.toml -o streams.svg",
    )
}
