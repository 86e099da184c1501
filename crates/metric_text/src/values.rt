//! Attribute values, and keys with their values.
ghost use Rattle.std.specs.Prelude.{◌≡◌, ◌++◌, OnOk};
ghost use Rattle.std.specs.Option.{option_map};
ghost use Rattle.metric_text.specs.Reading.{Tells, bare_in, bare_of, quoted_value_in, value_in};
ghost use Rattle.metric_text.specs.Written.{pair_text, value_text};

use crate::fault::SpellingFault;
use crate::numbers::i64_of;
use crate::quotes::{push_quoted, quoted_at};
use crate::scanning::word_at;
use crate::spelled::Spelled;
use crate::writing::{push_byte, push_signed, push_text};
use metric_names::AttrValue;
use std::alloc::{AllocError, Global};

/// A key with its value, borrowed.
#[derive(Clone, Copy)]
pub struct Pair<'a> {
    /// The key.
    pub key: &'a str,
    /// The value.
    pub value: &'a AttrValue,
}

/// Writes an attribute's value: a text in quotes, a number in decimal, or `true` or `false`.
pub fn push_value(out: &mut Vec<u8>, value: &AttrValue) -> Result<(), AllocError>
    ensures { OnOk result (out.new.items ≡ out.old.items ++ value_text value.now) }
{
    match value {
        AttrValue::Text(text) => push_quoted(out, text.as_str()),
        AttrValue::Whole(number) => push_signed(out, *number),
        AttrValue::Flag(true) => push_text(out, "true"),
        AttrValue::Flag(false) => push_text(out, "false"),
    }
}

/// Writes a key in quotes, `=` and the value.
pub fn push_pair(out: &mut Vec<u8>, key: &str, value: &AttrValue) -> Result<(), AllocError>
    ensures { OnOk result (out.new.items ≡ out.old.items ++ pair_text key.now value.now) }
{
    push_quoted(out, key)?;
    push_byte(out, b'=')?;
    push_value(out, value)
}

/// Reads an attribute's value, and gives it with what follows. `Bad` where none stands first.
#[tactic(auto, unfolding(crate::specs::Reading::value_in))]
pub fn value_at(alloc: Global, bytes: &[u8]) -> Result<(AttrValue, &[u8]), SpellingFault>
    ensures { Tells (λ x. (x.0, x.1.now)) result (value_in bytes.now) }
{
    match bytes {
        [b'"', ..] => quoted_value_at(alloc, bytes),
        _ => bare_at(bytes).ok_or(SpellingFault::Bad),
    }
}

#[tactic(auto, unfolding(crate::specs::Reading::quoted_value_in))]
fn quoted_value_at(alloc: Global, bytes: &[u8]) -> Result<(AttrValue, &[u8]), SpellingFault>
    ensures { Tells (λ x. (x.0, x.1.now)) result (quoted_value_in bytes.now) }
{
    let (text, rest) = quoted_at(alloc, bytes)?;
    Ok((AttrValue::Text(text), rest))
}

#[tactic(auto, unfolding(crate::specs::Reading::bare_in))]
fn bare_at(bytes: &[u8]) -> Option<(AttrValue, &[u8])>
    ensures { option_map (λ x. (x.0, x.1.now)) result ≡ bare_in bytes.now }
{
    let (word, rest) = word_at(bytes);
    Some((bare_of(word)?, rest))
}

// The number or the flag that a whole word spells, if it spells one.
#[tactic(auto, unfolding(crate::specs::Reading::bare_of))]
fn bare_of(word: &[u8]) -> Option<AttrValue>
    ensures { result ≡ bare_of word.now }
{
    if word == b"true".as_slice() {
        return Some(AttrValue::Flag(true));
    }
    if word == b"false".as_slice() {
        return Some(AttrValue::Flag(false));
    }
    i64_of(word).map(AttrValue::Whole)
}

impl Spelled for AttrValue {
    ghost use Rattle.metric_text.specs.Written.{value_text};

    ghost text = { value_text };

    fn push(&self, out: &mut Vec<u8>) -> Result<(), AllocError> {
        push_value(out, self)
    }
}

impl Spelled for Pair<'_> {
    ghost use Rattle.metric_text.specs.Written.{pair_text};

    ghost text = { λ pair. pair_text pair.key.now pair.value.now };

    fn push(&self, out: &mut Vec<u8>) -> Result<(), AllocError> {
        push_pair(out, self.key, self.value)
    }
}
