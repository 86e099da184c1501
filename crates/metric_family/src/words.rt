//! Words of a text, written with `_` between.
ghost use Rattle.std.specs.Prelude.{◌≡◌, ◌+◌, ◌<◌, ◌&&◌, ◌∷◌, [], IfSome, OnOk, drop, filter, length, take};
ghost use Rattle.std.specs.List.{after_first, before_first, position_from};
ghost use Rattle.std.specs.Option.{unwrap_or};
ghost use Rattle.std.specs.Str.{bytes_eq};
ghost use Rattle.metric_family.specs.Words.{is_among, is_between, is_some, with_part, with_parts, without, words};

use metric_text::push_byte;
use std::alloc::AllocError;

/// Writes a part, with `_` before it unless it is the first.
pub(crate) fn push_part(out: &mut Vec<u8>, part: &[u8]) -> Result<(), AllocError>
    ensures { OnOk result (out.new.items ≡ with_part out.old.items part.now) }
{
    if !out.is_empty() {
        push_byte(out, b'_')?;
    }
    out.extend_from_slice(part)
}

/// Writes a part, unless it is empty or the other one.
pub(crate) fn push_other(
    out: &mut Vec<u8>,
    part: &[u8],
    other_than: &[u8],
) -> Result<(), AllocError>
    ensures { OnOk result (out.new.items
        ≡ with_parts out.old.items (without other_than.now (filter is_some (part.now ∷ [])))) }
{
    if part.is_empty() || part == other_than {
        return Ok(());
    }
    push_part(out, part)
}

/// Writes the words of a text other than one.
pub(crate) fn push_words(
    out: &mut Vec<u8>,
    text: &[u8],
    other_than: &[u8],
) -> Result<(), AllocError>
    ensures { OnOk result (out.new.items
        ≡ with_parts out.old.items (without other_than.now (words text.now))) }
{
    let mut rest = text;
    'rest: while !rest.is_empty() {
        let (word, others) = split_word(rest);
        push_other(out, word, other_than)?;
        rest = others;
    }
    Ok(())
}

/// Whether a part is one of the words of a text.
pub(crate) fn has_word(text: &[u8], part: &[u8]) -> bool
    ensures { result ≡ is_among (words text.now) part.now }
{
    let mut rest = text;
    'rest: while !rest.is_empty() {
        let (word, others) = split_word(rest);
        if is_word(word, part) {
            return true;
        }
        rest = others;
    }
    false
}

fn is_word(word: &[u8], part: &[u8]) -> bool
    ensures { result ≡ (is_some word.now && bytes_eq part.now word.now) }
{
    !word.is_empty() && part == word
}

// What stands before the first character other than a letter and a digit, and what stands after it.
fn split_word(text: &[u8]) -> (&[u8], &[u8])
    ensures word { result.0.now ≡ before_first is_between text.now }
    ensures others { result.1.now ≡ after_first is_between text.now }
    ensures shorter { 0 < length text.now → length result.1.now < length text.now }
{
    split_around(text, first_between(text))
}

fn first_between(text: &[u8]) -> Option<usize>
    ensures place { result ≡ position_from is_between 0 text.now }
    ensures bound { IfSome result (λ place. place < length text.now) }
{
    text.iter().position(|byte| !byte.is_ascii_alphanumeric())
}

/// What stands before a place, and what stands after it; without a place all stands before it.
pub(crate) fn split_around(text: &[u8], place: Option<usize>) -> (&[u8], &[u8])
    requires { IfSome place (λ at. at < length text.now) }
    ensures before { result.0.now ≡ take (unwrap_or place (length text.now)) text.now }
    ensures after { result.1.now ≡ drop (unwrap_or place (length text.now) + 1) text.now }
{
    match place {
        Some(at) => (&text[..at], &text[at + 1..]),
        None => (text, &[]),
    }
}
