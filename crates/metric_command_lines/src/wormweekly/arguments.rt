//! The arguments that commands have.
ghost use Rattle.std.specs.Prelude.{◌≡◌, false};
ghost use Rattle.clap.specs.Words.{rule_of};
ghost use Rattle.metric_command_lines.specs.Apps.{file_rule, flag_rule, number_rule, output_rule, text_rule, texts_rule};

use clap::builder::ValueParser;
use clap::{Arg, ArgAction};
use std::alloc::Global;

/// The path of a file, by its place.
pub(crate) fn file<'a>(
    alloc: Global,
    id: &'a str,
    name: &'a str,
    help: &'a str,
    required: bool,
) -> Arg<'a>
    ensures rule { rule_of result ≡ file_rule id.entry.now required }
    ensures own { result.global ≡ false }
{
    Arg::new(alloc, id)
        .value_name(name)
        .help(help)
        .required(required)
        .action(ArgAction::Set)
}

/// An option with a text.
pub(crate) fn text<'a>(alloc: Global, id: &'a str, name: &'a str, help: &'a str) -> Arg<'a>
    ensures rule { rule_of result ≡ text_rule id.entry.now }
    ensures own { result.global ≡ false }
{
    Arg::new(alloc, id)
        .long(id)
        .value_name(name)
        .help(help)
        .action(ArgAction::Set)
}

/// An option with a text, which may be given several times.
pub(crate) fn texts<'a>(alloc: Global, id: &'a str, name: &'a str, help: &'a str) -> Arg<'a>
    ensures rule { rule_of result ≡ texts_rule id.entry.now }
    ensures own { result.global ≡ false }
{
    Arg::new(alloc, id)
        .long(id)
        .value_name(name)
        .help(help)
        .action(ArgAction::Append)
}

/// The option of a file to write to.
pub(crate) fn output<'a>(alloc: Global) -> Arg<'a>
    ensures rule { rule_of result ≡ output_rule }
    ensures own { result.global ≡ false }
{
    text(
        alloc,
        "output",
        "FILE",
        "The file to write to, in place of standard output, which `-` is",
    )
    .short('o')
}

/// A flag.
pub(crate) fn flag<'a>(alloc: Global, id: &'a str, help: &'a str) -> Arg<'a>
    ensures rule { rule_of result ≡ flag_rule id.entry.now }
    ensures own { result.global ≡ false }
{
    Arg::new(alloc, id)
        .long(id)
        .help(help)
        .action(ArgAction::SetTrue)
}

/// An option with a number between two, and the one that it is where it is not given.
pub(crate) fn number<'a>(
    alloc: Global,
    id: &'a str,
    help: &'a str,
    least: u64,
    most: u64,
    default: &'a str,
) -> Arg<'a>
    ensures rule { rule_of result ≡ number_rule id.entry.now least most default.entry.now }
    ensures own { result.global ≡ false }
{
    Arg::new(alloc, id)
        .long(id)
        .value_name("N")
        .help(help)
        .default_value(default)
        .action(ArgAction::Set)
        .value_parser(ValueParser::unsigned(least, most))
}
