//! The lines of a script.
ghost use Rattle.std.specs.Prelude.{◌≡◌, ◌+◌, ◌≤◌, length};
ghost use Rattle.metric_parts.specs.Reading.{texts};

use std::marker::Model;

/// The lines of a script, with the numbers that they have in the whole input.
#[derive(Drop)]
pub struct Script<'a> {
    lines: &'a [&'a [u8]],
    first_line: u64,
}

impl<'a> Model for Script<'a> {
    ghost use Rattle.std.specs.Prelude.{◌+◌, ◌^◌, ◌<◌, length};
    ghost use Rattle.metric_parts.specs.Texts.{ScriptLines};
    ghost use Rattle.metric_parts.specs.Reading.{texts};

    ghost Value = { ScriptLines };

    ghost view = { λ s. record { first_line = s.first_line; lines = texts s.lines.now } };

    ghost invariant = { λ s. s.first_line + length s.lines.now < 2 ^ 64 };
}

impl<'a> Script<'a> {
    /// The lines of a text that is a script, numbered from 1.
    pub fn of_lines(lines: &'a [&'a [u8]]) -> Script<'a>
        ensures lines { result.lines ≡ texts lines.entry.now }
        ensures first { result.first_line ≡ 1 }
    {
        Script {
            lines,
            first_line: 1,
        }
    }

    // The lines at the end of an input, with their numbers there.
    pub(crate) fn at_end(lines: &'a [&'a [u8]], input: &[&[u8]]) -> Script<'a>
        requires { length lines.now ≤ length input.now }
        ensures lines { result.lines ≡ texts lines.entry.now }
        ensures first { result.first_line + length lines.entry.now ≡ length input.entry.now + 1 }
    {
        Script {
            lines,
            first_line: (input.len() - lines.len()) as u64 + 1,
        }
    }

    /// The lines in order.
    pub fn lines(&self) -> &'a [&'a [u8]]
        ensures lines { texts result.now ≡ self.now.lines }
        ensures len { length result.now ≡ length self.now.lines }
    {
        self.lines
    }

    /// The number that the line at this place has in the input, whose first line has the number 1.
    /// At the place after the last line it is one more than the number of the input's lines.
    pub fn line_number(&self, place: usize) -> u64
        requires { place ≤ length self.now.lines }
        ensures { result ≡ self.now.first_line + place }
    {
        self.first_line + place as u64
    }
}
