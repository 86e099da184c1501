//! Texts in quotes.
ghost use Rattle.std.specs.Prelude.{◌≡◌, ◌<◌, ◌++◌, false, length, IfSome, OnOk};
ghost use Rattle.std.specs.List.{flat_map, position_from};
ghost use Rattle.std.specs.Option.{option_map};
ghost use Rattle.metric_text.specs.Reading.{Tells, byte_of, closed_in, escaped_in, is_special, split_before, text_in, unquoted_in};
ghost use Rattle.metric_text.specs.Written.{escape, letter_of, quoted};

use crate::fault::SpellingFault;
use crate::scanning::after_byte;
use crate::writing::push_byte;
use metric_base::Text;
use std::alloc::{AllocError, Global};

/// Writes a text in quotes: `"`, a backslash, a line feed, a carriage return and a tab with a
/// backslash before them, and every other character as itself.
pub fn push_quoted(out: &mut Vec<u8>, text: &str) -> Result<(), AllocError>
    ensures { OnOk result (out.new.items ≡ out.old.items ++ quoted text.now) }
{
    push_byte(out, b'"')?;
    push_escaped(out, text.as_bytes())?;
    push_byte(out, b'"')
}

/// Reads a text in quotes, and gives it with what follows. `Bad` where none stands first, where it
/// has an escape or a raw byte that no spelling has, and where it is not UTF-8.
#[tactic(auto, unfolding(crate::specs::Reading::text_in))]
pub fn quoted_at(alloc: Global, bytes: &[u8]) -> Result<(Text, &[u8]), SpellingFault>
    ensures { Tells (λ x. (x.0, x.1.now)) result (text_in bytes.now) }
{
    let start = after_byte(bytes, b'"').ok_or(SpellingFault::Bad)?;
    let (text, rest) = unquoted_at(alloc, start)?;
    match String::from_utf8(text) {
        Ok(string) => Ok((Text::from_string(string), rest)),
        Err(_) => Err(SpellingFault::Bad),
    }
}

fn push_escaped(out: &mut Vec<u8>, text: &[u8]) -> Result<(), AllocError>
    ensures { OnOk result (out.new.items ≡ out.old.items ++ flat_map escape text.now) }
{
    let (plain, mut rest) = split_plain(text);
    out.extend_from_slice(plain)?;
    while let Some((byte, others)) = rest.split_first() {
        push_escape(out, *byte)?;
        let (plain, after) = split_plain(others);
        out.extend_from_slice(plain)?;
        rest = after;
    }
    Ok(())
}

fn push_escape(out: &mut Vec<u8>, byte: u8) -> Result<(), AllocError>
    ensures { OnOk result (out.new.items ≡ out.old.items ++ escape byte) }
{
    match letter_of(byte) {
        None => push_byte(out, byte),
        Some(letter) => out.extend_from_slice(&[b'\\', letter]),
    }
}

// The bytes up to the closing quote, and what follows it.
fn unquoted_at(alloc: Global, bytes: &[u8]) -> Result<(Vec<u8>, &[u8]), SpellingFault>
    ensures { Tells (λ x. (x.0.items, x.1.now)) result (unquoted_in false bytes.now) }
{
    let (plain, mut rest) = split_plain(bytes);
    let mut text = Vec::from_slice(alloc, plain)?;
    while let Some((byte, others)) = escaped_at(rest) {
        push_byte(&mut text, byte)?;
        let (plain, after) = split_plain(others);
        text.extend_from_slice(plain)?;
        rest = after;
    }
    closed_at(text, rest).ok_or(SpellingFault::Bad)
}

// A text that was read up to a quote, if one stands there, with what follows the quote.
fn closed_at(text: Vec<u8>, rest: &[u8]) -> Option<(Vec<u8>, &[u8])>
    ensures { option_map (λ x. (x.0.items, x.1.now)) result ≡ closed_in text.items rest.now }
{
    let after = after_byte(rest, b'"')?;
    Some((text, after))
}

// The byte of an escape that stands first, with what follows.
fn escaped_at(bytes: &[u8]) -> Option<(u8, &[u8])>
    ensures { option_map (λ x. (x.0, x.1.now)) result ≡ escaped_in bytes.now }
{
    match bytes {
        [b'\\', letter, rest @ ..] => Some((byte_of(*letter)?, rest)),
        _ => None,
    }
}

// The bytes before the first that is written with a backslash, and the rest from that byte on.
fn split_plain(bytes: &[u8]) -> (&[u8], &[u8])
    ensures plain { result.0.now ≡ (split_before is_special bytes.now).0 }
    ensures rest { result.1.now ≡ (split_before is_special bytes.now).1 }
{
    bytes.split_at(first_special(bytes).unwrap_or(bytes.len()))
}

fn first_special(bytes: &[u8]) -> Option<usize>
    ensures place { result ≡ position_from is_special 0 bytes.now }
    ensures bound { IfSome result (λ place. place < length bytes.now) }
{
    bytes.iter().position(|byte| letter_of(*byte).is_some())
}

// The letter that stands for a byte after a backslash.
fn letter_of(byte: u8) -> Option<u8>
    ensures { result ≡ letter_of byte }
{
    match byte {
        b'"' => Some(b'"'),
        b'\\' => Some(b'\\'),
        b'\n' => Some(b'n'),
        b'\r' => Some(b'r'),
        b'\t' => Some(b't'),
        _ => None,
    }
}

// The byte that a letter after a backslash stands for.
fn byte_of(letter: u8) -> Option<u8>
    ensures { result ≡ byte_of letter }
{
    match letter {
        b'"' => Some(b'"'),
        b'\\' => Some(b'\\'),
        b'n' => Some(b'\n'),
        b'r' => Some(b'\r'),
        b't' => Some(b'\t'),
        _ => None,
    }
}
