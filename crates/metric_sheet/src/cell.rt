//! What stands at a place of a table.
ghost use Rattle.std.specs.Prelude.{IfOk};
ghost use Rattle.metric_sheet.specs.Rows.{IsText};

use std::alloc::{AllocError, Global};

/// What stands at a place of a table.
#[derive(Debug, Drop)]
pub enum Cell {
    /// A text.
    Text(String),
    /// A number.
    Number(u128),
    /// A list of numbers.
    Numbers(Vec<i64>),
    /// Whether something is so.
    Flag(bool),
    /// A list of texts.
    Texts(Vec<String>),
    /// Nothing.
    Nothing,
}

impl Cell {
    /// A cell of a text. Fails only when out of memory.
    pub fn text(alloc: Global, text: &str) -> Result<Cell, AllocError>
        ensures { IfOk result (IsText text.now) }
    {
        Ok(Cell::Text(String::from_str(alloc, text)?))
    }

    /// Whether the cell stands at the right of its column.
    pub fn is_number(&self) -> bool {
        matches!(self, Cell::Number(_))
    }

    /// The cell as people see it, in one line. Fails only when out of memory.
    pub fn shown(&self, alloc: Global) -> Result<String, AllocError> {
        match self {
            Cell::Text(text) => visible(alloc, text.as_str()),
            Cell::Number(number) => format!(in alloc; "{number}"),
            Cell::Numbers(numbers) => numbered(alloc, numbers),
            Cell::Flag(flag) => String::from_str(alloc, if *flag { "yes" } else { "no" }),
            Cell::Texts(texts) => listed(alloc, texts),
            Cell::Nothing => String::from_str(alloc, "-"),
        }
    }
}

// Texts one after the other.
fn listed(alloc: Global, texts: &[String]) -> Result<String, AllocError> {
    let mut all = String::new(alloc);
    for text in texts {
        if !all.is_empty() {
            all.push_str(", ")?;
        }
        let text = visible(alloc, text.as_str())?;
        all.push_str(text.as_str())?;
    }
    if all.is_empty() {
        all.push('-')?;
    }
    Ok(all)
}

// Numbers one after the other.
fn numbered(alloc: Global, numbers: &[i64]) -> Result<String, AllocError> {
    let mut all = String::new(alloc);
    for number in numbers {
        let before = if all.is_empty() { "" } else { ", " };
        write!(all, "{before}{number}")?;
    }
    Ok(all)
}

// A text without what moves a terminal's cursor.
fn visible(alloc: Global, text: &str) -> Result<String, AllocError> {
    let mut shown = String::new(alloc);
    for letter in text.chars() {
        shown.push(visible_letter(letter))?;
    }
    Ok(shown)
}

fn visible_letter(letter: char) -> char {
    if letter < ' ' || letter == '\u{7f}' {
        '?'
    } else {
        letter
    }
}
