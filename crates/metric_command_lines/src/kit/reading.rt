//! The reading of a command line.
ghost use Rattle.std.specs.Prelude.{◌≡◌, [], IfOk, IsErrOf, OnOk, Some, map, false, true};
ghost use Rattle.clap.specs.Words.{app_of, fault_of, found_of, rows_of, rule_of, subcommand_of, subcommand_rows_of, takes};
ghost use Rattle.clap.specs.declared.builder.command.Command.TheViews.{out-Command as fields_of};
ghost use Rattle.metric_command_lines.specs.Kit.{audit_flag, each_option, kit_app, plain_app, replay_app, threads_app, trial_flag};
ghost use Rattle.metric_command_lines.specs.Lines.{IsRefused, has_flag, line_in};

use crate::kit::line::{Line, LineFault, MOST_EACH};
use crate::numbers::number_of;
use crate::programs::with_command;
use clap::builder::ValueParser;
use clap::{Arg, ArgAction, ArgMatches, Command};
use std::alloc::{AllocError, Global};

/// The command that the words of a command line ask for: `make`, `check`, `show`, `replay`,
/// `replay --trial`, either with `--audit` too, or `threads --each N`, with `N` from 0 to 1,000,000. The
/// first word is the program's name, whatever it is. No further word asks for a trial, and so does the word
/// `--` alone, which clap takes as the end of the flags.
///
/// # Errors
///
/// [`LineFault::Usage`] where clap refuses the words for another cause than memory, as it does with
/// other words, with a flag that is given twice, and with each call for help or for a version; and
/// [`LineFault::Memory`]. No text of clap is printed.
pub fn command_of<'a>(alloc: Global, words: &'a [&'a str]) -> Result<Line, LineFault>
    ensures answers { IfOk result (λ line.
        line ≡ line_in (subcommand_of kit_app (map (λ w. w.now) words.entry.now))) }

    // Clap has a fault to tell of refused words, and none of the others.
    ensures accepted { OnOk result (fault_of kit_app (map (λ w. w.now) words.entry.now) ≡ []) }
    ensures refused { IsErrOf result LineFault.Usage →
        IsRefused (map (λ w. w.now) words.entry.now) }
    ensures usage { IsErrOf result LineFault.Usage →
        takes kit_app (map (λ w. w.now) words.entry.now) ≡ true → ⊥ }
{
    let matches = kit_command(alloc)?.try_get_matches_from(words)?;
    Ok(line_asked(&matches))
}

fn kit_command<'a>(alloc: Global) -> Result<Command<'a>, AllocError>
    ensures { IfOk result (λ command. app_of command ≡ kit_app) }
{
    let program = with_command(plain_command(alloc), replay(alloc));
    with_command(program, threads(alloc))
}

fn replay<'a>(alloc: Global) -> Result<Command<'a>, AllocError>
    ensures app { IfOk result (λ command. app_of command ≡ replay_app) }
    ensures local { IfOk result (λ command. (fields_of command).has_globals ≡ false) }
{
    Command::new(alloc, "replay")
        .arg(trial_flag(alloc))?
        .arg(audit_flag(alloc))
}

fn threads<'a>(alloc: Global) -> Result<Command<'a>, AllocError>
    ensures app { IfOk result (λ command. app_of command ≡ threads_app) }
    ensures local { IfOk result (λ command. (fields_of command).has_globals ≡ false) }
{
    Command::new(alloc, "threads").arg(each_option(alloc))
}

fn trial_flag<'a>(alloc: Global) -> Arg<'a>
    ensures rule { rule_of result ≡ trial_flag }
    ensures own { result.global ≡ false }
{
    Arg::new(alloc, "trial")
        .long("trial")
        .action(ArgAction::SetTrue)
}

fn audit_flag<'a>(alloc: Global) -> Arg<'a>
    ensures rule { rule_of result ≡ audit_flag }
    ensures own { result.global ≡ false }
{
    Arg::new(alloc, "audit")
        .long("audit")
        .action(ArgAction::SetTrue)
}

fn each_option<'a>(alloc: Global) -> Arg<'a>
    ensures rule { rule_of result ≡ each_option }
    ensures own { result.global ≡ false }
{
    Arg::new(alloc, "each")
        .long("each")
        .required(true)
        .action(ArgAction::Set)
        .value_parser(ValueParser::unsigned(0, MOST_EACH))
}

// The program with the commands that have no flags.
fn plain_command<'a>(alloc: Global) -> Result<Command<'a>, AllocError>
    ensures { IfOk result (λ command. app_of command ≡ plain_app) }
{
    let program = Ok(Command::new(alloc, "metric_kit"));
    let program = with_command(program, Ok(Command::new(alloc, "make")));
    let program = with_command(program, Ok(Command::new(alloc, "check")));
    with_command(program, Ok(Command::new(alloc, "show")))
}

fn line_asked(matches: &ArgMatches<'_>) -> Line
    ensures { result ≡ line_in (subcommand_rows_of matches.now) }
{
    match matches.subcommand() {
        Some((command, flags)) => named_line(command, flags),
        None => Line::Replay {
            trial: true,
            audit: false,
        },
    }
}

fn named_line(command: &str, flags: &ArgMatches<'_>) -> Line
    ensures { result ≡ line_in (Some (command.now, rows_of (found_of flags.now))) }
{
    match command {
        "make" => Line::Make,
        "check" => Line::Check,
        "show" => Line::Show,
        "threads" => Line::Threads {
            each: number_of(flags, "each"),
        },
        _ => Line::Replay {
            trial: is_given(flags, "trial"),
            audit: is_given(flags, "audit"),
        },
    }
}

fn is_given(flags: &ArgMatches<'_>, flag: &str) -> bool
    ensures { result ≡ has_flag flag.now (rows_of (found_of flags.now)) }
{
    flags.get_str(flag) == Some("true")
}
