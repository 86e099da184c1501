//! Lines of JSON for machines.
ghost use Rattle.std.specs.Prelude.{◌≡◌, IfErr, OnOk};
ghost use Rattle.metric_sheet.specs.Written.{IsSheetFault};

use crate::cell::Cell;
use crate::fault::SheetFault;
use crate::sheet::Sheet;
use metric_io::{Sink, write_all};
use std::alloc::{AllocError, Global};

// The format of the lines, which the first one names.
const SCHEMA: &str = "{\"schema\":1}\n";

// The greatest number up to which a double has each.
const EXACT: u128 = 1 << 53;

/// Writes a line that names the format, and a line for each row: an object of JSON, whose fields have the names of the
/// titles. A cell with nothing is `null`, and a number that not every double tells apart from its neighbours is a text.
///
/// # Errors
///
/// [`SheetFault::Write`] where the sink failed, and [`SheetFault::Memory`].
pub fn write_json<S: Sheet, W: Sink>(
    alloc: Global,
    sink: &mut W,
    sheet: &S,
) -> Result<(), SheetFault>
    ensures broken { IfErr result (IsSheetFault (W.failures sink.old) (W.failures sink.new)) }
    ensures counted { OnOk result (W.failures sink.new ≡ W.failures sink.old) }
{
    write_all(sink, SCHEMA.as_bytes())?;
    for number in 0..sheet.rows() {
        let line = json_line(alloc, sheet, number)?;
        write_all(sink, line.as_bytes())?;
    }
    Ok(())
}

fn json_line<S: Sheet>(alloc: Global, sheet: &S, number: usize) -> Result<String, AllocError> {
    let row = sheet.row(alloc, number)?;
    json_object(alloc, sheet.titles(), &row)
}

fn json_object(alloc: Global, titles: &[&str], row: &[Cell]) -> Result<String, AllocError> {
    let mut line = String::new(alloc);
    for (title, cell) in titles.iter().zip(row) {
        line.push(if line.is_empty() { '{' } else { ',' })?;
        push_json_text(&mut line, title)?;
        line.push(':')?;
        push_json_cell(&mut line, cell)?;
    }
    line.push_str("}\n")?;
    Ok(line)
}

fn push_json_cell(line: &mut String, cell: &Cell) -> Result<(), AllocError> {
    match cell {
        Cell::Text(text) => push_json_text(line, text.as_str()),
        Cell::Number(number) => push_json_number(line, "", *number),
        Cell::Numbers(numbers) => push_json_numbers(line, numbers),
        Cell::Flag(flag) => line.push_str(if *flag { "true" } else { "false" }),
        Cell::Texts(texts) => push_json_texts(line, texts),
        Cell::Nothing => line.push_str("null"),
    }
}

fn push_json_number(line: &mut String, sign: &str, number: u128) -> Result<(), AllocError> {
    if number <= EXACT {
        write!(line, "{sign}{number}")
    } else {
        write!(line, "\"{sign}{number}\"")
    }
}

fn push_json_numbers(line: &mut String, numbers: &[i64]) -> Result<(), AllocError> {
    line.push('[')?;
    for (place, number) in numbers.iter().enumerate() {
        if place > 0 {
            line.push(',')?;
        }
        let sign = if *number < 0 { "-" } else { "" };
        push_json_number(line, sign, u128::from(number.unsigned_abs()))?;
    }
    line.push(']')
}

fn push_json_texts(line: &mut String, texts: &[String]) -> Result<(), AllocError> {
    line.push('[')?;
    for (place, text) in texts.iter().enumerate() {
        if place > 0 {
            line.push(',')?;
        }
        push_json_text(line, text.as_str())?;
    }
    line.push(']')
}

/// Puts a text last, as JSON spells it. Fails only when out of memory.
pub fn push_json_text(line: &mut String, text: &str) -> Result<(), AllocError> {
    line.push('"')?;
    for letter in text.chars() {
        push_json_letter(line, letter)?;
    }
    line.push('"')
}

fn push_json_letter(line: &mut String, letter: char) -> Result<(), AllocError> {
    match letter {
        '"' => line.push_str("\\\""),
        '\\' => line.push_str("\\\\"),
        '\n' => line.push_str("\\n"),
        '\r' => line.push_str("\\r"),
        '\t' => line.push_str("\\t"),
        '\0'..='\u{1f}' => push_json_control(line, letter as usize),
        _ => line.push(letter),
    }
}

// Puts a character below U+0020 last, which JSON spells by its number.
fn push_json_control(line: &mut String, code: usize) -> Result<(), AllocError> {
    line.push_str(if code < 16 { "\\u000" } else { "\\u001" })?;
    line.push(HEX[code % 16] as char)
}

const HEX: [u8; 16] = *b"0123456789abcdef";
