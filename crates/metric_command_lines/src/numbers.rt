//! The numbers of options.
ghost use Rattle.std.specs.Prelude.{◌≡◌};
ghost use Rattle.clap.specs.Words.{first_of, found_of, rows_of};
ghost use Rattle.metric_command_lines.specs.Numbers.{number_in, number_of};

use clap::ArgMatches;

/// The number that an option has, and 0 without one.
pub(crate) fn number_of(arguments: &ArgMatches<'_>, option: &str) -> u32
    ensures { result ≡ number_in (first_of option.now (rows_of (found_of arguments.now))) }
{
    match arguments.get_str(option) {
        Some(text) => number_from(text),
        None => 0,
    }
}

// The number that a text is, and 0 where it is none.
fn number_from(text: &str) -> u32
    ensures { result ≡ number_of text.now }
{
    text.parse().unwrap_or(0)
}
