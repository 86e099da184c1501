//! The tokens of a text in PromQL.
use crate::bytes::{
    after, between, blanks_length, closing_of, digits_length, is_name_byte, line_length,
};
use crate::fault::{PromqlFault, Unread};
use crate::selector::Sign;
use crate::token::{Keyword, Kind, Token, keyword_of};
use crate::variable::variable_length;
use metric_base::Items;
use std::alloc::Global;

/// The tokens of a text, without blanks and comments.
pub(crate) fn tokens_of(alloc: Global, text: &[u8]) -> Result<Items<Token>, PromqlFault> {
    let mut tokens = Items::new(alloc);
    let mut start = 0usize;
    let mut is_range = false;
    // Each step takes a byte at least.
    for _step in 0..text.len() {
        let passed = passed_length(after(text, start));
        start = start.saturating_add(passed);
        let rest = after(text, start);
        if rest.is_empty() {
            break;
        }
        if passed > 0 {
            continue;
        }
        let (kind, length) = match token_at(rest, is_range) {
            Ok(found) => found,
            Err(cause) => return Err(PromqlFault::new(cause, start)),
        };
        is_range = match kind {
            Kind::Mark(b'[') => true,
            Kind::Mark(b']') => false,
            _ => is_range,
        };
        let end = start.saturating_add(length);
        tokens.push(Token { kind, start, end })?;
        start = end;
    }
    Ok(tokens)
}

// How many bytes of blanks, or of a comment, a text begins with.
fn passed_length(rest: &[u8]) -> usize {
    if rest.starts_with(b"#") {
        line_length(rest)
    } else {
        blanks_length(rest)
    }
}

// The token that a text begins with, and its length. In the brackets of a range `:` is a mark of its own.
fn token_at(rest: &[u8], is_range: bool) -> Result<(Kind, usize), Unread> {
    match rest {
        [b'`', body @ ..] => match body.iter().position(|byte| *byte == b'`') {
            Some(length) => Ok((Kind::Quoted, length.saturating_add(2))),
            None => Err(Unread::Unclosed),
        },
        [quote, body @ ..] if matches!(*quote, b'"' | b'\'') => {
            match closing_of(between(body, 0, line_length(body)), *quote) {
                Some(length) => Ok((Kind::Quoted, length.saturating_add(2))),
                None => Err(Unread::Unclosed),
            }
        }
        _ => match word_at(rest, is_range) {
            (_, 0) => mark_at(rest),
            (has_variable, length) => {
                let kind = kind_of(between(rest, 0, length), has_variable)?;
                Ok((kind, length))
            }
        },
    }
}

// Whether a variable stands in the word that a text begins with, and its length, 0 where it begins with none.
fn word_at(rest: &[u8], is_range: bool) -> (bool, usize) {
    let is_number = begins_number(rest);
    let mut has_variable = false;
    let mut length = 0usize;
    // Each piece has a byte at least.
    for _piece in 0..rest.len() {
        let variable = variable_length(after(rest, length));
        let piece = if variable > 0 {
            variable
        } else if is_number {
            number_length(rest, length)
        } else {
            name_length(after(rest, length), is_range)
        };
        if piece == 0 {
            break;
        }
        has_variable = has_variable || variable > 0;
        length = length.saturating_add(piece);
    }
    (has_variable, length)
}

/// Whether a text begins with a digit, or with a point and one.
pub(crate) fn begins_number(bytes: &[u8]) -> bool {
    match bytes {
        [b'.', others @ ..] => digits_length(others) > 0,
        _ => digits_length(bytes) > 0,
    }
}

fn name_length(bytes: &[u8], is_range: bool) -> usize {
    bytes
        .iter()
        .take_while(|byte| is_name_byte(**byte) || (!is_range && **byte == b':'))
        .count()
}

// How many bytes of a number follow a place, or of the sign of its exponent with a digit.
fn number_length(bytes: &[u8], from: usize) -> usize {
    let plain = after(bytes, from)
        .iter()
        .take_while(|byte| is_name_byte(**byte) || **byte == b'.')
        .count();
    let with_sign = between(bytes, 0, from.saturating_add(2));
    if plain == 0 && !with_sign.is_empty() && is_number(with_sign) {
        2
    } else {
        plain
    }
}

// What a word is.
fn kind_of(word: &[u8], has_variable: bool) -> Result<Kind, Unread> {
    if has_variable {
        return Ok(Kind::Variable);
    }
    if !begins_number(word) {
        return match keyword_of(word) {
            Keyword::Number => Ok(Kind::Number),
            keyword => Ok(Kind::Word(keyword)),
        };
    }
    if is_number(word) {
        Ok(Kind::Number)
    } else if is_duration(word) {
        Ok(Kind::Duration)
    } else {
        Err(Unread::Number)
    }
}

// The mark that a text begins with, and its length.
fn mark_at(rest: &[u8]) -> Result<(Kind, usize), Unread> {
    match rest {
        [b'!', b'=', ..] => Ok((Kind::Sign(Sign::NotEqual), 2)),
        [b'=', b'~', ..] => Ok((Kind::Sign(Sign::Like), 2)),
        [b'!', b'~', ..] => Ok((Kind::Sign(Sign::Unlike), 2)),
        [b'=' | b'<' | b'>', b'=', ..] => Ok((Kind::Operator, 2)),
        [b'=', ..] => Ok((Kind::Sign(Sign::Equal), 1)),
        [b'+' | b'-', ..] => Ok((Kind::Plus, 1)),
        [b'*' | b'/' | b'%' | b'^' | b'<' | b'>', ..] => Ok((Kind::Operator, 1)),
        [mark, ..] if is_mark(*mark) => Ok((Kind::Mark(*mark), 1)),
        _ => Err(Unread::Character),
    }
}

fn is_mark(byte: u8) -> bool {
    matches!(
        byte,
        b'(' | b')' | b'{' | b'}' | b'[' | b']' | b':' | b',' | b'@'
    )
}

// Whether a word that begins with a digit or a point is a number, as `5`, `.5`, `1_000`, `1e-3` or `0x1f`.
fn is_number(word: &[u8]) -> bool {
    if let [b'0', b'x' | b'X', first, others @ ..] = word {
        return first.is_ascii_hexdigit() && others.iter().all(|byte| byte.is_ascii_hexdigit());
    }
    if word
        .iter()
        .all(|byte| byte.is_ascii_digit() || *byte == b'_')
    {
        return true;
    }
    match std::str::from_utf8(word) {
        Ok(text) => text.parse::<f64>().is_ok(),
        Err(_) => false,
    }
}

static UNITS: [&str; 7] = ["y", "w", "d", "h", "m", "s", "ms"];

// Whether a word that begins with a digit is a duration, as `5m` or `1h30m`: each unit once, the greater ones first.
fn is_duration(word: &[u8]) -> bool {
    let mut rest = word;
    for unit in UNITS.iter() {
        rest = without_amount(rest, unit.as_bytes());
    }
    rest.is_empty()
}

// The bytes without the amount of a unit that they begin with, if they do.
fn without_amount<'t>(bytes: &'t [u8], unit: &[u8]) -> &'t [u8] {
    let digits = digits_length(bytes);
    match after(bytes, digits).strip_prefix(unit) {
        Some(rest) if digits > 0 && (rest.is_empty() || digits_length(rest) > 0) => rest,
        _ => bytes,
    }
}
