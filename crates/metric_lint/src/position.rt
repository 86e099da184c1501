//! Where the table of a fault stands in its text.
ghost use Rattle.std.specs.Prelude.{◌≡◌, ◌≤◌, ◌<◌, IfOk, IfSome, length, map, not, slice_get};
ghost use Rattle.std.specs.List.{list_any, position_from};
ghost use Rattle.metric_text.specs.Lines.{lines_of};
ghost use Rattle.metric_lint.specs.Positions.{begins, catalogue_place, config_place, headed, indent_of, is_blank, located, located_in, position_of, skips};

use metric_catalogue::CataloguePlace;
use metric_text::lines;
use metric_views::ConfigPlace;
use std::alloc::{AllocError, Global};

/// A place in a text. Both numbers are counted from 1.
#[derive(Clone, Copy, Debug, PartialEq, Eq, Drop)]
pub struct Position {
    /// The number of the line.
    pub line: usize,
    /// The number of the character in the line.
    pub column: usize,
}

/// Where the table that a place names begins in the text of a catalogue: the line with its header, `[[key]]`,
/// `[[meter]]`, `[[meter.instrument]]` or `[[recorder]]`, of those of its kind in order. The top table begins with the
/// text, and a key or a budget stands where its instrument or recorder does.
///
/// Nothing where the text has no such header, or has a list of such tables in one line, as `recorder = [{ name = "main"
/// }]`. A line of a text in several lines that looks like a header is taken for one. Fails only when out of memory.
pub fn locate_in_catalogue(
    alloc: Global,
    text: &str,
    place: CataloguePlace,
) -> Result<Option<Position>, AllocError>
    ensures { IfOk result (λ found. found ≡ located text.now (catalogue_place place)) }
{
    match place {
        CataloguePlace::Top => Ok(Some(start())),
        CataloguePlace::Meter(number) => located(alloc, text, "[[meter]]", "meter=[", number),
        CataloguePlace::Instrument(number) | CataloguePlace::Key(number, _) => {
            located(alloc, text, "[[meter.instrument]]", "instrument=[", number)
        }
        CataloguePlace::SharedKey(number) => located(alloc, text, "[[key]]", "key=[{", number),
        CataloguePlace::Recorder(number) | CataloguePlace::Budget(number, _) => {
            located(alloc, text, "[[recorder]]", "recorder=[", number)
        }
    }
}

/// Where the table that a place names begins in the text of a config, by the headers `[[reader]]` and `[[view]]`, as
/// `locate_in_catalogue` finds it.
pub fn locate_in_config(
    alloc: Global,
    text: &str,
    place: ConfigPlace,
) -> Result<Option<Position>, AllocError>
    ensures { IfOk result (λ found. found ≡ located text.now (config_place place)) }
{
    match place {
        ConfigPlace::Top => Ok(Some(start())),
        ConfigPlace::Reader(number) => located(alloc, text, "[[reader]]", "reader=[", number),
        ConfigPlace::View(number) => located(alloc, text, "[[view]]", "view=[", number),
    }
}

// Where a text begins.
fn start() -> Position
    ensures line { result.line ≡ 1 }
    ensures column { result.column ≡ 1 }
{
    Position { line: 1, column: 1 }
}

// Where the header of this number stands, unless a line begins a list of such tables.
fn located(
    alloc: Global,
    text: &str,
    header: &str,
    list: &str,
    number: u32,
) -> Result<Option<Position>, AllocError>
    ensures { IfOk result (λ found. found
        ≡ located_in header.now list.now number (lines_of text.now)) }
{
    let lines = lines(alloc, text.as_bytes())?;
    if has_line(lines.as_slice(), list.as_bytes()) {
        return Ok(None);
    }
    Ok(nth_header(lines.as_slice(), header.as_bytes(), number))
}

// Whether a line begins with these bytes.
fn has_line(lines: &[&[u8]], first: &[u8]) -> bool
    ensures { result ≡ list_any (λ line. begins first.now line.now) lines.now }
{
    lines.iter().any(|line| begins(first, line))
}

// Where the line of this number stands, of those that begin with a header.
fn nth_header(lines: &[&[u8]], header: &[u8], number: u32) -> Option<Position>
    ensures { result
        ≡ position_of (slice_get (headed header.now (map (λ line. line.now) lines.now)) number) }
{
    let mut left = number;
    for (before, line) in lines.iter().enumerate() {
        if begins(header, line) {
            if left == 0 {
                return Some(Position {
                    line: before + 1,
                    column: indent_of(line) + 1,
                });
            }
            left -= 1;
        }
    }
    None
}

/// Whether a line, without its blanks and quotes, begins with these bytes.
pub fn begins(first: &[u8], line: &[u8]) -> bool
    ensures { result ≡ begins first.now line.now }
{
    let mut left = first;
    for byte in line {
        if skips(*byte) {
            continue;
        }
        let Some((wanted, rest)) = left.split_first() else {
            return true;
        };
        if wanted != byte {
            return false;
        }
        left = rest;
    }
    left.is_empty()
}

// Whether a byte is left out where a header is looked for.
fn skips(byte: u8) -> bool
    ensures { result ≡ skips byte }
{
    is_blank(byte) || byte == b'"' || byte == b'\''
}

fn is_blank(byte: u8) -> bool
    ensures { result ≡ is_blank byte }
{
    byte == b' ' || byte == b'\t'
}

// How many blanks a line begins with.
fn indent_of(line: &[u8]) -> usize
    ensures value { result ≡ indent_of line.now }
    ensures bound { result ≤ length line.now }
{
    first_other(line).unwrap_or(line.len())
}

fn first_other(line: &[u8]) -> Option<usize>
    ensures place { result ≡ position_from (λ byte. not (is_blank byte)) 0 line.now }
    ensures bound { IfSome result (λ place. place < length line.now) }
{
    line.iter().position(|byte| !is_blank(*byte))
}
