//! The expressions of rules in YAML: what stands behind each `expr`, and the names behind each `record`.
//!
//! Rules are written line by line, so that is how they are read: a field is the first of its line, but for the dashes
//! of lists. A map in braces is not looked into.
ghost use Rattle.std.specs.Prelude.{◌≡◌, false, IfErr, IfOk};
ghost use Rattle.metric_promql.specs.Files.{IsFaultIn};
ghost use Rattle.metric_promql.specs.declared.files.FileForm.TheVariants.{Rules};

use crate::bytes::{after, between, closing_of, is_blank, line_length};
use crate::escapes::{Language, put_unescaped};
use crate::expression::{Expression, Expressions, Writer};
use crate::fault::{PromqlFault, Unread};
use metric_base::Text;
use std::alloc::{AllocError, Global};

/// The expressions of a text of rules.
pub(crate) fn expressions_of_rules(alloc: Global, text: &[u8]) -> Result<Expressions, PromqlFault>
    ensures found { IfOk result (λ found. found.is_template ≡ false) }
    ensures fault { IfErr result (IsFaultIn Rules) }
{
    let mut walk = Walk {
        alloc,
        text,
        at: 0,
        list: Vec::new(alloc),
        recorded: Vec::new(alloc),
    };
    // Each step takes a line at least.
    for _step in 0..text.len() {
        if walk.at >= text.len() {
            break;
        }
        walk.take()?;
    }
    let Walk { list, recorded, .. } = walk;
    Ok(Expressions {
        list,
        recorded,
        is_template: false,
    })
}

// What a field has.
#[derive(Clone, Copy, Debug, PartialEq, Eq)]
enum Field {
    Expression,
    Record,
    Other,
}

// A field: how many bytes stand before its name, and the bytes of the text between which its value stands in its line.
#[derive(Clone, Copy, Debug)]
struct Value {
    field: Field,
    indent: usize,
    start: usize,
    end: usize,
}

#[derive(Drop)]
struct Walk<'t> {
    alloc: Global,
    text: &'t [u8],
    // Where the next line begins.
    at: usize,
    list: Vec<Expression>,
    recorded: Vec<Text>,
}

impl<'t> Walk<'t> {
    // The next line.
    fn line(&self) -> &'t [u8] {
        let rest = after(self.text, self.at);
        between(rest, 0, line_length(rest))
    }

    // Goes behind the line in which a byte stands.
    fn go_behind(&mut self, place: usize) {
        let length = line_length(after(self.text, place));
        self.at = place.saturating_add(length).saturating_add(1);
    }

    // Takes a field, with the lines that its value goes on in.
    fn take(&mut self) -> Result<(), PromqlFault>
        ensures { IfErr result (IsFaultIn Rules) }
    {
        let line = self.line();
        let start = self.at;
        self.go_behind(start);
        let Some(value) = value_of(line, start) else {
            return Ok(());
        };
        let mut writer = Writer::new(self.alloc);
        match self.text.get(value.start).copied() {
            Some(b'|') => self.take_lines(&mut writer, value, b"\n")?,
            Some(b'>') => self.take_lines(&mut writer, value, b" ")?,
            Some(b'"') => self.take_double(&mut writer, value)?,
            Some(b'\'') => self.take_single(&mut writer, value)?,
            _ if value.field == Field::Other => {}
            _ => {
                let first = between(self.text, value.start, value.end);
                writer.put(plain_of(first), value.start)?;
                self.take_lines(&mut writer, value, b"")?;
            }
        }
        Ok(self.put(value.field, writer)?)
    }

    // Takes the lines that are indented more than a field, with this before each of a block. A text without a mark has
    // blanks there, and ends at a remark.
    fn take_lines(
        &mut self,
        writer: &mut Writer,
        value: Value,
        mark: &[u8],
    ) -> Result<(), AllocError> {
        // Each step takes a line.
        for _line in 0..self.text.len() {
            let line = self.line();
            let is_in = line.trim_ascii_start().is_empty() || spaces_length(line) > value.indent;
            if self.at >= self.text.len() || !is_in {
                break;
            }
            if mark.is_empty() {
                writer.put(b" ", self.at)?;
                writer.put(plain_of(line), self.at)?;
            } else {
                writer.put(mark, self.at)?;
                writer.put(line, self.at)?;
            }
            self.go_behind(self.at);
        }
        Ok(())
    }

    // Takes a text in double quotes, which may go on over lines.
    fn take_double(&mut self, writer: &mut Writer, value: Value) -> Result<(), PromqlFault>
        ensures { IfErr result (IsFaultIn Rules) }
    {
        let start = value.start.saturating_add(1);
        let body = after(self.text, start);
        let length = closing_of(body, b'"');
        let inner = between(body, 0, length.unwrap_or(0));
        let is_right = put_unescaped(writer, inner, start, Language::Markup)?;
        self.close(value, start, length.filter(|_length| is_right))
    }

    // The same in single quotes, two of which are one.
    fn take_single(&mut self, writer: &mut Writer, value: Value) -> Result<(), PromqlFault>
        ensures { IfErr result (IsFaultIn Rules) }
    {
        let start = value.start.saturating_add(1);
        let body = after(self.text, start);
        let mut length = 0usize;
        // Each piece has a byte at least.
        for _piece in 0..body.len() {
            let rest = after(body, length);
            let place = start.saturating_add(length);
            let Some(plain) = rest.iter().position(|byte| *byte == b'\'') else {
                return self.close(value, start, None);
            };
            writer.put(between(rest, 0, plain), place)?;
            length = length.saturating_add(plain);
            if !after(rest, plain).starts_with(b"''") {
                break;
            }
            writer.put(b"'", place.saturating_add(plain))?;
            length = length.saturating_add(2);
        }
        self.close(value, start, Some(length))
    }

    // Goes behind a text in quotes of so many bytes; a fault where it is none.
    fn close(
        &mut self,
        value: Value,
        start: usize,
        length: Option<usize>,
    ) -> Result<(), PromqlFault>
        ensures { IfErr result (IsFaultIn Rules) }
    {
        match length {
            Some(length) => self.go_behind(start.saturating_add(length)),
            None if value.field == Field::Other => {}
            None => return Err(PromqlFault::new(Unread::Unclosed, value.start)),
        }
        Ok(())
    }

    // Puts what a field has last.
    fn put(&mut self, field: Field, writer: Writer) -> Result<(), AllocError> {
        match field {
            Field::Expression => writer.put_into(&mut self.list)?,
            Field::Record => {
                if let Some(name) = writer.finish() {
                    let name = Text::new(self.alloc, name.text.as_str().trim())?;
                    self.recorded.push(name)?;
                }
            }
            Field::Other => {}
        }
        Ok(())
    }
}

// How many spaces a line begins with.
fn spaces_length(line: &[u8]) -> usize {
    line.iter().take_while(|byte| **byte == b' ').count()
}

// The field that a line has, which begins at a byte of the text, with what stands behind it.
fn value_of(line: &[u8], start: usize) -> Option<Value> {
    let indent = line
        .iter()
        .take_while(|byte| matches!(**byte, b' ' | b'-'))
        .count();
    let rest = after(line, indent);
    let colon = colon_of(rest)?;
    let behind = after(rest, colon.saturating_add(1)).trim_ascii_start();
    let end = start.saturating_add(line.len());
    Some(Value {
        field: field_of(without_quotes(between(rest, 0, colon))),
        indent,
        start: end.saturating_sub(behind.len()),
        end,
    })
}

// Where the first colon stands that ends a name: a blank or the end follows it.
fn colon_of(line: &[u8]) -> Option<usize> {
    for (at, byte) in line.iter().enumerate() {
        let next = line.get(at.saturating_add(1)).copied().unwrap_or(b' ');
        if *byte == b':' && is_blank(next) {
            return Some(at);
        }
    }
    None
}

fn field_of(name: &[u8]) -> Field {
    match name {
        [b'e', b'x', b'p', b'r'] => Field::Expression,
        [b'r', b'e', b'c', b'o', b'r', b'd'] => Field::Record,
        _ => Field::Other,
    }
}

fn without_quotes(name: &[u8]) -> &[u8] {
    match name {
        [b'"', inner @ .., b'"'] | [b'\'', inner @ .., b'\''] => inner,
        _ => name.trim_ascii_end(),
    }
}

// A text without quotes as far as no remark stands behind it.
fn plain_of(line: &[u8]) -> &[u8] {
    let mut is_after_blank = false;
    for (at, byte) in line.iter().enumerate() {
        if *byte == b'#' && is_after_blank {
            return between(line, 0, at).trim_ascii_end();
        }
        is_after_blank = is_blank(*byte);
    }
    line.trim_ascii_end()
}
