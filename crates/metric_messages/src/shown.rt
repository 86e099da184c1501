//! Values and names of a text, as a person reads them.
use crate::sentence::write_part;
use std::fmt;
use toml::Value;

// How many characters of a text are shown.
const MOST: usize = 100;

// A value. Of a list, a table and a date only what it is.
#[derive(Clone, Copy)]
pub(crate) struct Shown<'v>(pub(crate) &'v Value);

impl fmt::Display for Shown<'_> {
    fn fmt<W: fmt::Write>(&self, f: &mut fmt::Formatter<W>) -> fmt::Result {
        match self.0 {
            Value::String(text) => f.write(Quoted(text.as_str())),
            Value::Integer(number) => f.write(number),
            Value::Float(number) => f.write(number),
            Value::Boolean(flag) => f.write(flag),
            Value::Datetime(_) => f.write_str("a date"),
            Value::Array(_) => f.write_str("a list"),
            Value::Table(_) => f.write_str("a table"),
        }
    }
}

/// A text in quotes, which is cut where it is long.
#[derive(Clone, Copy)]
pub struct Quoted<'t>(pub &'t str);

impl fmt::Display for Quoted<'_> {
    fn fmt<W: fmt::Write>(&self, f: &mut fmt::Formatter<W>) -> fmt::Result {
        let text = self.0;
        if text.chars().count() <= MOST {
            return write!(f, "{text:?}");
        }
        f.write_str("\"")?;
        let mut left = MOST;
        for character in text.chars() {
            if left == 0 {
                break;
            }
            left -= 1;
            f.write_char(visible(character))?;
        }
        f.write_str("..\"")
    }
}

// The name of a file, without what moves a terminal's cursor.
#[derive(Clone, Copy)]
pub(crate) struct FileName<'t>(pub(crate) &'t str);

impl fmt::Display for FileName<'_> {
    fn fmt<W: fmt::Write>(&self, f: &mut fmt::Formatter<W>) -> fmt::Result {
        for character in self.0.chars() {
            f.write_char(visible(character))?;
        }
        Ok(())
    }
}

// A character that takes one place in a line and moves nothing: a control character is shown by a sign for one.
pub(crate) fn visible(character: char) -> char {
    match character {
        '\t' => ' ',
        '\u{1b}' => '\u{241b}',
        '\0'..='\u{1f}' | '\u{7f}'..='\u{9f}' => '\u{fffd}',
        '\u{200b}'..='\u{200f}' | '\u{2028}'..='\u{202e}' => '\u{fffd}',
        '\u{2060}'..='\u{2069}' | '\u{feff}' => '\u{fffd}',
        _ => character,
    }
}

// Words in a row, with commas between them, and a word before the last.
#[derive(Clone, Copy)]
pub(crate) struct Words(pub(crate) &'static [&'static str]);

impl fmt::Display for Words {
    fn fmt<W: fmt::Write>(&self, f: &mut fmt::Formatter<W>) -> fmt::Result {
        let last = self.0.len().saturating_sub(1);
        for (place, word) in self.0.iter().enumerate() {
            write_part(f, (before(place, last), word))?;
        }
        Ok(())
    }
}

// What stands before the word of a place.
pub(crate) fn before(place: usize, last: usize) -> &'static str {
    if place == 0 {
        ""
    } else if place == last {
        " or "
    } else {
        ", "
    }
}
