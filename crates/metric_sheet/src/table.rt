//! A table for people.
ghost use Rattle.std.specs.Prelude.{◌≡◌, IfErr, OnOk};
ghost use Rattle.metric_sheet.specs.Written.{IsSheetFault};

use crate::cell::Cell;
use crate::columns::{letters, widths_of};
use crate::fault::SheetFault;
use crate::sheet::Sheet;
use metric_io::{Sink, write_all};
use std::alloc::{AllocError, Global};

/// Writes a table: a line of titles, and a line for each row. Columns are as wide as what stands in them, or cut so
/// that a line has at most `most` letters, where that can be; with 0 nothing is cut. What is cut ends in `…`.
///
/// # Errors
///
/// [`SheetFault::Write`] where the sink failed, and [`SheetFault::Memory`].
pub fn write_table<S: Sheet, W: Sink>(
    alloc: Global,
    sink: &mut W,
    sheet: &S,
    most: usize,
) -> Result<(), SheetFault>
    ensures broken { IfErr result (IsSheetFault (W.failures sink.old) (W.failures sink.new)) }
    ensures counted { OnOk result (W.failures sink.new ≡ W.failures sink.old) }
{
    let widths = widths_of(alloc, sheet, most)?;
    let titles = title_line(alloc, sheet.titles(), &widths)?;
    write_all(sink, titles.as_bytes())?;
    write_rows(alloc, sink, sheet, &widths)
}

fn write_rows<S: Sheet, W: Sink>(
    alloc: Global,
    sink: &mut W,
    sheet: &S,
    widths: &[usize],
) -> Result<(), SheetFault>
    ensures broken { IfErr result (IsSheetFault (W.failures sink.old) (W.failures sink.new)) }
    ensures counted { OnOk result (W.failures sink.new ≡ W.failures sink.old) }
{
    for number in 0..sheet.rows() {
        let line = row_line(alloc, sheet, number, widths)?;
        write_all(sink, line.as_bytes())?;
    }
    Ok(())
}

fn title_line(alloc: Global, titles: &[&str], widths: &[usize]) -> Result<String, AllocError> {
    let mut line = String::new(alloc);
    for (title, width) in titles.iter().zip(widths) {
        push_cell(&mut line, title, *width, false)?;
    }
    ended(alloc, line.as_str())
}

fn row_line<S: Sheet>(
    alloc: Global,
    sheet: &S,
    number: usize,
    widths: &[usize],
) -> Result<String, AllocError> {
    let row = sheet.row(alloc, number)?;
    cells_line(alloc, &row, widths)
}

fn cells_line(alloc: Global, row: &[Cell], widths: &[usize]) -> Result<String, AllocError> {
    let mut line = String::new(alloc);
    for (cell, width) in row.iter().zip(widths) {
        let text = cell.shown(alloc)?;
        push_cell(&mut line, text.as_str(), *width, cell.is_number())?;
    }
    ended(alloc, line.as_str())
}

// A line without the blanks at its end, and with a line feed.
fn ended(alloc: Global, line: &str) -> Result<String, AllocError> {
    let mut ended = String::from_str(alloc, line.trim_end())?;
    ended.push('\n')?;
    Ok(ended)
}

// Puts a text of this width and the gap after it last.
fn push_cell(line: &mut String, text: &str, width: usize, right: bool) -> Result<(), AllocError> {
    let count = letters(text);
    if width < count {
        push_cut(line, text, width)?;
    } else if right {
        push_blanks(line, width - count)?;
        line.push_str(text)?;
    } else {
        line.push_str(text)?;
        push_blanks(line, width - count)?;
    }
    line.push_str("  ")
}

// Puts the first letters of a text last, and a mark that it goes on.
fn push_cut(line: &mut String, text: &str, width: usize) -> Result<(), AllocError> {
    let mut left = width.saturating_sub(1);
    for letter in text.chars() {
        if left == 0 {
            break;
        }
        left -= 1;
        line.push(letter)?;
    }
    line.push('…')
}

fn push_blanks(line: &mut String, count: usize) -> Result<(), AllocError> {
    for _ in 0..count {
        line.push(' ')?;
    }
    Ok(())
}
