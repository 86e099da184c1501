//! Fields of messages.
ghost use Rattle.std.specs.Prelude.{◌≡◌, ◌++◌, OnOk};
ghost use Rattle.metric_otlp.specs.Fields.{fixed_field, number_field, optional_double};
ghost use Rattle.metric_otlp.specs.Fields.{packed_doubles, packed_words};
ghost use Rattle.metric_otlp.specs.Series.{text_field};

use metric_wire::{
    push_block, push_double_field, push_doubles_block, push_varint_field, push_word_field,
    push_words_block,
};
use std::alloc::AllocError;

/// Writes a text, unless it is empty.
#[tactic(auto, unfolding(crate::specs::Series::text_field))]
pub(crate) fn push_text(out: &mut Vec<u8>, field: u32, text: &str) -> Result<(), AllocError>
    ensures { OnOk result (out.new.items ≡ out.old.items ++ text_field field text.now) }
{
    if text.is_empty() {
        return Ok(());
    }
    push_block(out, field, text.as_bytes())
}

/// Writes a number of an enum, or 1 for a flag that is set, unless it is 0.
#[tactic(auto, unfolding(crate::specs::Fields::number_field))]
pub(crate) fn push_number(out: &mut Vec<u8>, field: u32, number: u64) -> Result<(), AllocError>
    ensures { OnOk result (out.new.items ≡ out.old.items ++ number_field field number) }
{
    if number == 0 {
        return Ok(());
    }
    push_varint_field(out, field, number)
}

/// Writes a number of eight bytes, unless it is 0.
#[tactic(auto, unfolding(crate::specs::Fields::fixed_field))]
pub(crate) fn push_fixed(out: &mut Vec<u8>, field: u32, number: u64) -> Result<(), AllocError>
    ensures { OnOk result (out.new.items ≡ out.old.items ++ fixed_field field number) }
{
    if number == 0 {
        return Ok(());
    }
    push_word_field(out, field, number)
}

/// Writes a double, where there is one.
pub(crate) fn push_double(
    out: &mut Vec<u8>,
    field: u32,
    number: Option<i64>,
) -> Result<(), AllocError>
    ensures { OnOk result (out.new.items ≡ out.old.items ++ optional_double field number) }
{
    match number {
        None => Ok(()),
        Some(number) => push_double_field(out, field, number),
    }
}

/// Writes a packed list of numbers of eight bytes, unless it is empty.
#[tactic(auto, unfolding(crate::specs::Fields::packed_words))]
pub(crate) fn push_words(out: &mut Vec<u8>, field: u32, numbers: &[u64]) -> Result<(), AllocError>
    ensures { OnOk result (out.new.items ≡ out.old.items ++ packed_words field numbers.now) }
{
    if numbers.is_empty() {
        return Ok(());
    }
    push_words_block(out, field, numbers)
}

/// Writes a packed list of doubles, unless it is empty.
#[tactic(auto, unfolding(crate::specs::Fields::packed_doubles))]
pub(crate) fn push_doubles(out: &mut Vec<u8>, field: u32, numbers: &[i64]) -> Result<(), AllocError>
    ensures { OnOk result (out.new.items ≡ out.old.items ++ packed_doubles field numbers.now) }
{
    if numbers.is_empty() {
        return Ok(());
    }
    push_doubles_block(out, field, numbers)
}
