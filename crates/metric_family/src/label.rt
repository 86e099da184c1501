//! The label of a key and the text of a value.
ghost use Rattle.std.specs.Prelude.{◌≡◌, ◌++◌, false, IfOk, OnOk};
ghost use Rattle.metric_names.specs.Values.{value_text};
ghost use Rattle.metric_family.specs.Labels.{is_bad, label_of, squeezed, squeezed_one};

use crate::ascii::text_of_ascii;
use metric_base::Text;
use metric_names::AttrValue;
use metric_text::{push_byte, push_signed, push_text};
use std::alloc::{AllocError, Global};

/// The label of a key: each run of others than ASCII letters and digits is one `_`, and `key_` stands before a digit at
/// the front. Fails only when out of memory.
pub fn label_of(alloc: Global, key: &str) -> Result<Text, AllocError>
    ensures { IfOk result (λ label. label ≡ label_of key.now) }
{
    let mut out = Vec::new(alloc);
    push_label(&mut out, key)?;
    Ok(text_of_ascii(out))
}

/// Writes the label of a key. Fails only when out of memory, and may then have written a part of it.
#[tactic(auto, unfolding(crate::specs::Labels::label_of))]
pub fn push_label(out: &mut Vec<u8>, key: &str) -> Result<(), AllocError>
    ensures { OnOk result (out.new.items ≡ out.old.items ++ label_of key.now) }
{
    let key = key.as_bytes();
    if matches!(key, [first, ..] if first.is_ascii_digit()) {
        push_text(out, "key_")?;
    }
    push_squeezed(out, key)
}

// Writes each run of others than letters and digits as one `_`.
fn push_squeezed(out: &mut Vec<u8>, key: &[u8]) -> Result<(), AllocError>
    ensures { OnOk result (out.new.items ≡ out.old.items ++ squeezed false key.now) }
{
    let mut is_after = false;
    for byte in key {
        push_one(out, is_after, *byte)?;
        is_after = !byte.is_ascii_alphanumeric();
    }
    Ok(())
}

fn push_one(out: &mut Vec<u8>, is_after: bool, byte: u8) -> Result<(), AllocError>
    ensures { OnOk result (out.new.items ≡ out.old.items ++ squeezed_one is_after byte) }
{
    if byte.is_ascii_alphanumeric() {
        return push_byte(out, byte);
    }
    if is_after {
        return Ok(());
    }
    push_byte(out, b'_')
}

/// Whether a label says nothing of its key: whether it is `_`, or empty.
pub fn is_bad_label(label: &str) -> bool
    ensures { result ≡ is_bad label.now }
{
    label == "_" || label.is_empty()
}

/// The text of a value: a text as it stands, a number in decimal, `true` or `false`. Fails only when out of memory.
pub fn text_of(alloc: Global, value: &AttrValue) -> Result<Text, AllocError>
    ensures { IfOk result (λ text. text ≡ value_text value.now) }
{
    let string = format!(in alloc; "{value}")?;
    Ok(Text::from_string(string))
}

/// Writes the text of a value. Fails only when out of memory.
pub fn push_value(out: &mut Vec<u8>, value: &AttrValue) -> Result<(), AllocError>
    ensures { OnOk result (out.new.items ≡ out.old.items ++ value_text value.now) }
{
    match value {
        AttrValue::Text(text) => push_text(out, text.as_str()),
        AttrValue::Whole(number) => push_signed(out, *number),
        AttrValue::Flag(true) => push_text(out, "true"),
        AttrValue::Flag(false) => push_text(out, "false"),
    }
}
