//! The expressions of a dashboard: each `expr` and each `definition` of what asks Prometheus.
use crate::bytes::{after, between, closing_of};
use crate::escapes::{Language, put_unescaped};
use crate::expression::{Expression, Writer};
use std::alloc::{AllocError, Global};

/// The expressions of a text, which is right JSON.
pub(crate) fn expressions_of_dashboard(
    alloc: Global,
    text: &[u8],
) -> Result<Vec<Expression>, AllocError> {
    let mut walk = Walk {
        alloc,
        text,
        at: 0,
        field: Field::Other,
        frames: Vec::new(alloc),
        found: Vec::new(alloc),
    };
    // Each step takes a byte at least.
    for _step in 0..text.len() {
        let Some(byte) = text.get(walk.at).copied() else {
            break;
        };
        walk.take(byte)?;
    }
    let Walk { found, .. } = walk;
    Ok(found)
}

// What the name of a field says: an expression, what is asked, or the kind of that.
#[derive(Clone, Copy, Debug, PartialEq, Eq)]
enum Field {
    Expression,
    Source,
    Type,
    Other,
}

// An object or a list that is open: whether it is what is asked, and whether its fields ask something else than
// Prometheus.
#[derive(Clone, Copy, Debug)]
struct Frame {
    is_source: bool,
    is_other: bool,
}

#[derive(Drop)]
struct Walk<'t> {
    alloc: Global,
    text: &'t [u8],
    at: usize,
    // The field whose value stands next.
    field: Field,
    frames: Vec<Frame>,
    found: Vec<Expression>,
}

impl Walk<'_> {
    // Takes a text, or this byte.
    fn take(&mut self, byte: u8) -> Result<(), AllocError> {
        self.at = self.at.saturating_add(1);
        match byte {
            b'"' => return self.take_text(),
            b'{' | b'[' => {
                self.frames.push(Frame {
                    is_source: self.field == Field::Source,
                    is_other: self.frames.last().is_some_and(|outer| outer.is_other),
                })?;
                self.field = Field::Other;
            }
            b'}' | b']' => {
                let _frame = self.frames.pop();
            }
            b',' => self.field = Field::Other,
            _ => {}
        }
        Ok(())
    }

    // Takes a text, behind whose first quote it stands: the name of a field, or a value.
    fn take_text(&mut self) -> Result<(), AllocError> {
        let start = self.at;
        let rest = after(self.text, start);
        let length = closing_of(rest, b'"').unwrap_or(rest.len());
        let text = between(rest, 0, length);
        self.at = start.saturating_add(length).saturating_add(1);
        let frame = self.frames.last().copied();
        let Some(
            Frame {
                is_source,
                is_other,
            },
        ) = frame
        else {
            return Ok(());
        };
        if after(self.text, self.at)
            .trim_ascii_start()
            .starts_with(b":")
        {
            self.field = field_of(text);
        } else if self.field == Field::Expression && !is_other {
            let mut writer = Writer::new(self.alloc);
            let _is_right = put_unescaped(&mut writer, text, start, Language::Markup)?;
            writer.put_into(&mut self.found)?;
        } else if self.field == Field::Type && is_source {
            self.ask(text);
        }
        Ok(())
    }

    // What is asked is of this type, as `prometheus`.
    fn ask(&mut self, text: &[u8]) {
        let outer = self.frames.len().saturating_sub(2);
        let word = b"prometheus".as_slice();
        if let Some(frame) = self.frames.get_mut(outer) {
            frame.is_other = !text.windows(10).any(|part| part == word);
        }
    }
}

fn field_of(name: &[u8]) -> Field {
    if name == b"expr".as_slice() || name == b"definition".as_slice() {
        Field::Expression
    } else if name == b"datasource".as_slice() {
        Field::Source
    } else if name == b"type".as_slice() {
        Field::Type
    } else {
        Field::Other
    }
}
