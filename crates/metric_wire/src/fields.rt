//! Fields: a mark and a value. Each call fails only when out of memory, and may then have written a part.
ghost use Rattle.std.specs.Prelude.{◌≡◌, ◌<◌, ◌++◌, ◌∷◌, [], OnOk, IfOk, length};
ghost use Rattle.std.specs.List.{flat_map};
ghost use Rattle.metric_wire.specs.Closing.{closed};
ghost use Rattle.metric_wire.specs.Wire.{block, block_head, double, double_field, doubles_block, mark, signed_field};
ghost use Rattle.metric_wire.specs.Wire.{varint_field, word, word_field, words_block};

use crate::varint::push_varint;
use std::alloc::AllocError;
use std::num::nearest_i64_to_f64;

// How the value of a field is written.
const VARINT: u64 = 0;

const WORD: u64 = 1;

const BLOCK: u64 = 2;

/// Writes a field that is a varint, as `bool` and enums are.
#[tactic(auto, unfolding(crate::specs::Wire::varint_field))]
pub fn push_varint_field(out: &mut Vec<u8>, field: u32, number: u64) -> Result<(), AllocError>
    ensures { OnOk result (out.new.items ≡ out.old.items ++ varint_field field number) }
{
    push_mark(out, field, VARINT)?;
    push_varint(out, number)
}

/// Writes a field of eight bytes, the least first, as `fixed64` is.
#[tactic(auto, unfolding(crate::specs::Wire::word_field))]
pub fn push_word_field(out: &mut Vec<u8>, field: u32, number: u64) -> Result<(), AllocError>
    ensures { OnOk result (out.new.items ≡ out.old.items ++ word_field field number) }
{
    push_mark(out, field, WORD)?;
    push_word(out, number)
}

/// Writes the same in two's complement, as `sfixed64` is.
#[tactic(auto, unfolding(crate::specs::Wire::signed_field))]
pub fn push_signed_field(out: &mut Vec<u8>, field: u32, number: i64) -> Result<(), AllocError>
    ensures { OnOk result (out.new.items ≡ out.old.items ++ signed_field field number) }
{
    push_mark(out, field, WORD)?;
    push_word(out, number.cast_unsigned())
}

/// Writes a field that is the `double` nearest to a number; of two that are as near, the one whose last bit is 0.
#[tactic(auto, unfolding(crate::specs::Wire::double_field))]
pub fn push_double_field(out: &mut Vec<u8>, field: u32, number: i64) -> Result<(), AllocError>
    ensures { OnOk result (out.new.items ≡ out.old.items ++ double_field field number) }
{
    push_mark(out, field, WORD)?;
    push_double(out, number)
}

/// Writes a field that is a block of bytes, as texts, messages and packed lists are: how many bytes there are, and the
/// bytes.
#[tactic(auto, unfolding(crate::specs::Wire::block))]
pub fn push_block(out: &mut Vec<u8>, field: u32, bytes: &[u8]) -> Result<(), AllocError>
    ensures { OnOk result (out.new.items ≡ out.old.items ++ block field bytes.now) }
{
    push_mark(out, field, BLOCK)?;
    push_varint(out, bytes.len() as u64)?;
    out.extend_from_slice(bytes)
}

/// Writes how a block of so many bytes begins, which are written next.
#[tactic(auto, unfolding(crate::specs::Wire::block_head))]
pub fn push_block_head(out: &mut Vec<u8>, field: u32, count: usize) -> Result<(), AllocError>
    ensures { OnOk result (out.new.items ≡ out.old.items ++ block_head field count) }
{
    push_mark(out, field, BLOCK)?;
    push_varint(out, count as u64)
}

/// Writes a block whose bytes stand in two places, so that those that are many are copied once.
#[tactic(auto, using(crate::proofs::Parts::block_of_two))]
pub fn push_block_of_two(
    out: &mut Vec<u8>,
    field: u32,
    first: &[u8],
    second: &[u8],
) -> Result<(), AllocError>
    ensures { OnOk result (out.new.items
        ≡ out.old.items ++ block field (first.now ++ second.now)) }
{
    push_block_head(out, field, first.len() + second.len())?;
    out.extend_from_slice(first)?;
    out.extend_from_slice(second)
}

/// Begins a block whose bytes are written next, and gives the place of one byte for how many they will be.
pub fn begin_block(out: &mut Vec<u8>, field: u32) -> Result<usize, AllocError>
    ensures bytes { OnOk result (out.new.items ≡ (out.old.items ++ mark field 2) ++ 0 ∷ []) }
    ensures place { IfOk result (λ place. place ≡ length (out.old.items ++ mark field 2)) }
{
    push_mark(out, field, BLOCK)?;
    let place = out.len();
    out.push(0)?;
    Ok(place)
}

/// Ends a block: writes at its place how many bytes stand after it. From 128 bytes on they move, so a long block
/// is better written apart and pushed.
#[tactic(auto, unfolding(crate::specs::Closing::closed), using(crate::proofs::Closed::short_closed, crate::proofs::Closed::middle_closed))]
pub fn end_block(out: &mut Vec<u8>, place: usize) -> Result<(), AllocError>
    requires { place < length out.old.items }
    ensures { OnOk result (out.new.items ≡ closed place out.old.items) }
{
    let count = out.len() - place - 1;
    if count < 128 {
        out[place] = count as u8;
        return Ok(());
    }
    if count < 128 * 128 {
        out[place] = (128 + count % 128) as u8;
        out.insert(place + 1, (count / 128) as u8)?;
        return Ok(());
    }
    let content = out.split_off(place + 1)?;
    out.truncate(place);
    push_varint(out, count as u64)?;
    out.extend_from_slice(content.as_slice())
}

/// Writes a packed list of `fixed64`.
#[tactic(auto, using(crate::proofs::Packed::words_counted))]
pub fn push_words_block(out: &mut Vec<u8>, field: u32, numbers: &[u64]) -> Result<(), AllocError>
    ensures { OnOk result (out.new.items ≡ out.old.items ++ words_block field numbers.now) }
{
    push_mark(out, field, BLOCK)?;
    push_varint(out, numbers.len() as u64 * 8)?;
    push_words(out, numbers)
}

/// Writes a packed list of `double`, each the nearest to its number.
#[tactic(auto, using(crate::proofs::Packed::doubles_counted))]
pub fn push_doubles_block(out: &mut Vec<u8>, field: u32, numbers: &[i64]) -> Result<(), AllocError>
    ensures { OnOk result (out.new.items ≡ out.old.items ++ doubles_block field numbers.now) }
{
    push_mark(out, field, BLOCK)?;
    push_varint(out, numbers.len() as u64 * 8)?;
    push_doubles(out, numbers)
}

#[tactic(auto, unfolding(crate::specs::Wire::mark))]
fn push_mark(out: &mut Vec<u8>, field: u32, form: u64) -> Result<(), AllocError>
    requires { form < 8 }
    ensures { OnOk result (out.new.items ≡ out.old.items ++ mark field form) }
{
    push_varint(out, u64::from(field) * 8 + form)
}

#[tactic(auto, using(crate::proofs::Steps::steps))]
fn push_words(out: &mut Vec<u8>, numbers: &[u64]) -> Result<(), AllocError>
    ensures { OnOk result (out.new.items ≡ out.old.items ++ flat_map word numbers.now) }
{
    for number in numbers {
        push_word(out, *number)?;
    }
    Ok(())
}

#[tactic(auto, using(crate::proofs::Steps::steps))]
fn push_doubles(out: &mut Vec<u8>, numbers: &[i64]) -> Result<(), AllocError>
    ensures { OnOk result (out.new.items ≡ out.old.items ++ flat_map double numbers.now) }
{
    for number in numbers {
        push_double(out, *number)?;
    }
    Ok(())
}

#[tactic(auto, unfolding(crate::specs::Wire::word))]
fn push_word(out: &mut Vec<u8>, number: u64) -> Result<(), AllocError>
    ensures { OnOk result (out.new.items ≡ out.old.items ++ word number) }
{
    out.extend_from_slice(&number.to_le_bytes())
}

#[tactic(auto, unfolding(crate::specs::Wire::double))]
fn push_double(out: &mut Vec<u8>, number: i64) -> Result<(), AllocError>
    ensures { OnOk result (out.new.items ≡ out.old.items ++ double number) }
{
    out.extend_from_slice(&nearest_i64_to_f64(number).to_le_bytes())
}
