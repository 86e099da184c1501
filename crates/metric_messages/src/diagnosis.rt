//! What is told of one fault.
ghost use Rattle.std.specs.Prelude.{◌≡◌};

use crate::excerpt::Excerpt;
use crate::sentence::{write_part, write_two};
use crate::shown::FileName;
use crate::sources::NamedText;
use metric_lint::Position;
use std::fmt;

/// A fault with its place and its cause, told for people. As a text it is one line, `catalogue.toml:14:1: ` and the
/// cause.
#[derive(Drop)]
pub struct Diagnosis<'t, F> {
    /// The fault, as the library answered it.
    pub fault: F,
    /// The name of the file that the fault is in.
    pub file: &'t str,
    /// Where the field of the fault stands, or the table that a remark is of or that lacks a field, or where a text
    /// breaks off that is no TOML; nothing where that is not found.
    pub position: Option<Position>,
    /// The line at the position, without its end; empty where there is no position.
    pub line: &'t str,
    /// The cause in words, in one line without an end.
    pub words: String,
}

impl<'t, F> Diagnosis<'t, F> {
    // What is told of a fault at a position of a text.
    pub(crate) fn new(
        source: NamedText<'t>,
        fault: F,
        position: Option<Position>,
        words: String,
    ) -> Diagnosis<'t, F>
        ensures fault { result.fault ≡ fault }
        ensures file { result.file.now ≡ source.entry.name.now }
        ensures position { result.position ≡ position }
    {
        Diagnosis {
            fault,
            file: source.name,
            position,
            line: line_at(source.text, position),
            words,
        }
    }

    /// The line of the text with a mark below the place. It is empty where there is no position.
    pub fn excerpt(&self) -> Excerpt<'_> {
        Excerpt::new(self.position, self.line)
    }
}

impl<F> fmt::Display for Diagnosis<'_, F> {
    fn fmt<W: fmt::Write>(&self, f: &mut fmt::Formatter<W>) -> fmt::Result {
        f.write(FileName(self.file))?;
        if let Some(Position { line, column }) = self.position {
            write_two(f, (":", &line), (":", &column), "")?;
        }
        write_part(f, (": ", &self.words.as_str()))
    }
}

// The line at a position of a text.
fn line_at(text: &str, position: Option<Position>) -> &str {
    match position {
        Some(position) => text
            .lines()
            .nth(position.line.saturating_sub(1))
            .unwrap_or(""),
        None => "",
    }
}
