//! Changes that a file accepts.
ghost use Rattle.std.specs.Prelude.{◌≡◌, IfOk, None, []};

use crate::change_sheet::ChangeSheet;
use crate::delivering::print;
use crate::fault::Role;
use crate::telling::path_of;
use metric_base::Text;
use metric_command_lines::Files;
use metric_io::Sink;
use metric_sheet::{Cell, Sheet};
use std::alloc::{AllocError, Global};
use std::collections::BTreeMap;

/// Which changes a file accepts, and which of its lines accept none.
#[derive(Drop)]
pub(crate) struct Accepted {
    /// Of each change whether a line of the file is that of its row.
    pub changes: Vec<bool>,
    // The numbers of the other lines.
    unused: Vec<usize>,
}

/// The changes that a file accepts, where there is one: a line accepts the change whose row has its words.
pub(crate) fn accepted_of(
    alloc: Global,
    sheet: &ChangeSheet<'_>,
    text: &Option<Text>,
) -> Result<Accepted, AllocError>
    ensures { IfOk result (λ accepted. text.now ≡ None → accepted.changes.items ≡ []) }
{
    match text {
        Some(text) => accepted_by(alloc, sheet, text.as_str()),
        None => Ok(Accepted {
            changes: Vec::new(alloc),
            unused: Vec::new(alloc),
        }),
    }
}

fn accepted_by(alloc: Global, sheet: &ChangeSheet<'_>, text: &str) -> Result<Accepted, AllocError> {
    let mut lines = lines_of(alloc, text)?;
    let mut changes = Vec::new(alloc);
    for number in 0..sheet.changes.len() {
        let row = row_words(alloc, &sheet.row(alloc, number)?)?;
        changes.push(is_taken(&mut lines, row.as_str()))?;
    }
    let unused = unused_of(alloc, &lines)?;
    Ok(Accepted { changes, unused })
}

// The number of a line, and whether it is that of a change.
#[derive(Clone, Copy, Drop)]
struct Line {
    number: usize,
    is_used: bool,
}

// The lines of a text by their words. One that begins with `#` or has no word accepts nothing.
fn lines_of(alloc: Global, text: &str) -> Result<BTreeMap<String, Line>, AllocError> {
    let mut lines = BTreeMap::new(alloc);
    for (place, line) in text.lines().enumerate() {
        let words = words_of(alloc, line)?;
        if words.is_empty() || words.starts_with('#') {
            continue;
        }
        let line = Line {
            number: place.saturating_add(1),
            is_used: false,
        };
        lines.insert(words, line)?;
    }
    Ok(lines)
}

// The words of a row, as a table shows them.
fn row_words(alloc: Global, row: &[Cell]) -> Result<String, AllocError> {
    let mut words = String::new(alloc);
    for cell in row {
        words.push_str(cell.shown(alloc)?.as_str())?;
        words.push(' ')?;
    }
    words_of(alloc, words.as_str())
}

// The words of a line, with one blank between two.
fn words_of(alloc: Global, line: &str) -> Result<String, AllocError> {
    let mut words = String::new(alloc);
    for word in line.split_whitespace() {
        if !words.is_empty() {
            words.push(' ')?;
        }
        words.push_str(word)?;
    }
    Ok(words)
}

// Whether there is a line of these words, which is used then.
fn is_taken(lines: &mut BTreeMap<String, Line>, words: &str) -> bool {
    match lines.get_mut(words) {
        Some(line) => {
            line.is_used = true;
            true
        }
        None => false,
    }
}

fn unused_of(alloc: Global, lines: &BTreeMap<String, Line>) -> Result<Vec<usize>, AllocError> {
    let mut unused = Vec::new(alloc);
    for line in lines.values() {
        if !line.is_used {
            unused.push(line.number)?;
        }
    }
    unused.sort()?;
    Ok(unused)
}

/// Tells the lines that accept no change, whatever becomes of the telling.
pub(crate) fn tell_unused<E: Sink>(
    alloc: Global,
    files: &Files,
    accepted: &Accepted,
    errors: &mut E,
) {
    let path = path_of(files, Role::Accepted);
    let _told = match unused_message(alloc, path, &accepted.unused) {
        Ok(text) => print(errors, text.as_str()),
        Err(_) => print(errors, "out of memory\n"),
    };
}

fn unused_message(alloc: Global, path: &str, unused: &[usize]) -> Result<String, AllocError> {
    let mut told = String::new(alloc);
    for number in unused {
        write!(
            told,
            "{path}:{number}:1: no change is the one of this line\n"
        )?;
    }
    Ok(told)
}
