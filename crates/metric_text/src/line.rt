//! The lines of an input.
ghost use Rattle.std.specs.Prelude.{◌≡◌, ◌<◌, length, map, IfOk, IfSome};
ghost use Rattle.std.specs.List.{position_from};
ghost use Rattle.metric_text.specs.Lines.{is_feed, line_in, lines_of, without_return};
ghost use Rattle.metric_text.specs.Reading.{split_before};

use std::alloc::{AllocError, Global};

/// The lines of an input: a line feed ends a line, a carriage return before it is dropped, and the
/// last line feed may be missing.
pub fn lines<'a>(alloc: Global, bytes: &'a [u8]) -> Result<Vec<&'a [u8]>, AllocError>
    ensures { IfOk result (λ lines. map (λ line. line.now) lines.items ≡ lines_of bytes.entry.now) }
{
    let mut lines = Vec::new(alloc);
    let mut rest = bytes;
    while !rest.is_empty() {
        let (line, others) = line_at(rest);
        lines.push(line)?;
        rest = others;
    }
    Ok(lines)
}

// The first line, without its end, and what follows it.
fn line_at(bytes: &[u8]) -> (&[u8], &[u8])
    ensures line { result.0.now ≡ (line_in bytes.now).0 }
    ensures rest { result.1.now ≡ (line_in bytes.now).1 }
{
    let (line, end) = split_feed(bytes);
    match end {
        [] => (line, end),
        [_feed, rest @ ..] => (without_return(line), rest),
    }
}

// The bytes before the first line feed, and the rest from it on.
fn split_feed(bytes: &[u8]) -> (&[u8], &[u8])
    ensures line { result.0.now ≡ (split_before is_feed bytes.now).0 }
    ensures end { result.1.now ≡ (split_before is_feed bytes.now).1 }
{
    bytes.split_at(first_feed(bytes).unwrap_or(bytes.len()))
}

fn first_feed(bytes: &[u8]) -> Option<usize>
    ensures place { result ≡ position_from is_feed 0 bytes.now }
    ensures bound { IfSome result (λ place. place < length bytes.now) }
{
    bytes.iter().position(|byte| *byte == b'\n')
}

// A line without the carriage return at its end.
fn without_return(line: &[u8]) -> &[u8]
    ensures { result.now ≡ without_return line.now }
{
    line.strip_suffix(b"\r".as_slice()).unwrap_or(line)
}
