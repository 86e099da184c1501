//! Escapes in quotes, of PromQL, and of YAML and JSON.
ghost use Rattle.std.specs.Prelude.{◌≤◌};

use crate::bytes::{after, between, blanks_length};
use crate::expression::Writer;
use crate::fault::{PromqlFault, Unread};
use metric_base::Text;
use std::alloc::{AllocError, Global};

/// Whose escapes a text has.
#[derive(Clone, Copy, Debug, PartialEq, Eq)]
pub(crate) enum Language {
    /// PromQL, in quotes of this kind.
    Promql(u8),
    /// YAML, or JSON.
    Markup,
}

/// The text that stands in quotes of PromQL, which begin at a place. In backquotes there are no escapes.
pub(crate) fn text_in_quotes(alloc: Global, quoted: &[u8], at: usize) -> Result<Text, PromqlFault> {
    let mut writer = Writer::new(alloc);
    let is_right = match quoted {
        [b'`', body @ .., _] => {
            writer.put(body, at)?;
            true
        }
        [quote, body @ .., _] => put_unescaped(&mut writer, body, at, Language::Promql(*quote))?,
        _ => false,
    };
    match writer.finish() {
        Some(expression) if is_right => Ok(expression.text),
        _ => Err(PromqlFault::new(Unread::Escape, at)),
    }
}

/// Puts the text last that stands from a place on, with its escapes read. Whether each is one.
pub(crate) fn put_unescaped(
    writer: &mut Writer,
    body: &[u8],
    place: usize,
    language: Language,
) -> Result<bool, AllocError> {
    let mut at = 0usize;
    // Each step takes a byte at least.
    for _step in 0..body.len() {
        let here = place.saturating_add(at);
        let length = match after(body, at) {
            [] => break,
            [b'\\', escape @ ..] => match put_escape(writer, escape, here, language)? {
                Some(length) => length.saturating_add(1),
                None => return Ok(false),
            },
            rest => put_plain(writer, rest, here)?,
        };
        at = at.saturating_add(length);
    }
    Ok(true)
}

// Puts the bytes last up to the next that has a meaning of its own. How many they are: one at least.
fn put_plain(writer: &mut Writer, rest: &[u8], here: usize) -> Result<usize, AllocError> {
    let length = rest.iter().take_while(|byte| **byte != b'\\').count();
    writer.put(between(rest, 0, length), here)?;
    Ok(length)
}

// Puts what an escape means last, behind whose backslash it stands. How many bytes it has there; nothing where it
// is none.
fn put_escape(
    writer: &mut Writer,
    bytes: &[u8],
    at: usize,
    language: Language,
) -> Result<Option<usize>, AllocError> {
    let is_markup = language == Language::Markup;
    let count = match bytes {
        [b'\n', ..] if is_markup => return Ok(Some(blanks_length(bytes))),
        [b'0'..=b'7', ..] if !is_markup => {
            return put_byte(writer, number_of(bytes, 3, 8), 3, at);
        }
        [b'x', digits @ ..] if !is_markup => {
            return put_byte(writer, number_of(digits, 2, 16), 3, at);
        }
        [b'x', ..] => 2,
        [b'u', ..] => 4,
        [b'U', ..] => 8,
        _ => 0,
    };
    let (character, length) = match bytes.first().copied() {
        Some(letter) if count == 0 => (plain_escape(letter, language), 1),
        _ => character_of(after(bytes, 1), count),
    };
    match character {
        Some(character) => {
            writer.put_character(character, at)?;
            Ok(Some(length))
        }
        None => Ok(None),
    }
}

fn put_byte(
    writer: &mut Writer,
    number: Option<u32>,
    length: usize,
    at: usize,
) -> Result<Option<usize>, AllocError> {
    match u8::try_from(number.unwrap_or(u32::MAX)) {
        Ok(byte) => {
            writer.put(&[byte], at)?;
            Ok(Some(length))
        }
        Err(_) => Ok(None),
    }
}

// The character of so many digits behind a letter, or of two such numbers of UTF-16, and how many bytes it has with it.
fn character_of(digits: &[u8], count: usize) -> (Option<char>, usize) {
    let number = number_of(digits, count, 16).unwrap_or(u32::MAX);
    let length = count.saturating_add(1);
    let (b'\\', b'u') = pair_of(after(digits, count)) else {
        return (char::from_u32(number), length);
    };
    let low = number_of(after(digits, count.saturating_add(2)), 4, 16).unwrap_or(0);
    if !((0xd800..0xdc00).contains(&number) && (0xdc00..0xe000).contains(&low)) {
        return (char::from_u32(number), length);
    }
    let high = number.saturating_sub(0xd800).saturating_mul(0x400);
    let whole = high
        .saturating_add(low.saturating_sub(0xdc00))
        .saturating_add(0x1_0000);
    (char::from_u32(whole), length.saturating_add(6))
}

fn pair_of(bytes: &[u8]) -> (u8, u8) {
    match bytes {
        [first, second, ..] => (*first, *second),
        _ => (0, 0),
    }
}

fn plain_escape(letter: u8, language: Language) -> Option<char> {
    match letter {
        b'a' => Some('\u{7}'),
        b'b' => Some('\u{8}'),
        b't' => Some('\t'),
        b'n' => Some('\n'),
        b'v' => Some('\u{b}'),
        b'f' => Some('\u{c}'),
        b'r' => Some('\r'),
        b'\\' => Some('\\'),
        _ => match language {
            Language::Promql(quote) if letter == quote => Some(char::from(letter)),
            Language::Promql(_) => None,
            Language::Markup => markup_escape(letter),
        },
    }
}

fn markup_escape(letter: u8) -> Option<char> {
    match letter {
        b'"' | b'/' | b' ' | b'\t' => Some(char::from(letter)),
        b'0' => Some('\0'),
        b'e' => Some('\u{1b}'),
        _ => None,
    }
}

// The number of so many digits that a text begins with.
fn number_of(bytes: &[u8], count: usize, base: u32) -> Option<u32>
    requires low { 2 ≤ base }
    requires high { base ≤ 36 }
{
    let digits = bytes.get(..count)?;
    let mut number: u32 = 0;
    for byte in digits {
        let digit = char::from(*byte).to_digit(base)?;
        number = number.checked_mul(base)?.checked_add(digit)?;
    }
    Some(number)
}
