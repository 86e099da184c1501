//! Texts and numbers in JSON.
ghost use Rattle.std.specs.Prelude.{◌≡◌, ◌<◌, ◌++◌, [], ◌∷◌, OnOk};
ghost use Rattle.std.specs.List.{flat_map};
ghost use Rattle.metric_text.specs.Lists.{joined, led_by};
ghost use Rattle.metric_otlp.specs.Json.{bracketed, digits, escape, hex_digit, quoted, signed_digits};

use metric_text::{push_byte, push_number, push_signed, push_text};
use std::alloc::AllocError;

/// Writes a text in quotes: `"` and a backslash with a backslash before them, a line feed, a carriage return and a
/// tab as `\n`, `\r` and `\t`, other control characters by their numbers, and every other character as itself.
#[tactic(auto, unfolding(crate::specs::Json::quoted))]
pub(crate) fn push_quoted(out: &mut Vec<u8>, text: &str) -> Result<(), AllocError>
    ensures { OnOk result (out.new.items ≡ out.old.items ++ quoted text.now) }
{
    push_byte(out, b'"')?;
    push_escaped(out, text.as_bytes())?;
    push_byte(out, b'"')
}

#[tactic(auto, using(metric_text::specs::ListLaws::steps))]
fn push_escaped(out: &mut Vec<u8>, text: &[u8]) -> Result<(), AllocError>
    ensures { OnOk result (out.new.items ≡ out.old.items ++ flat_map escape text.now) }
{
    for byte in text {
        push_escape(out, *byte)?;
    }
    Ok(())
}

fn push_escape(out: &mut Vec<u8>, byte: u8) -> Result<(), AllocError>
    ensures { OnOk result (out.new.items ≡ out.old.items ++ escape byte) }
{
    match byte {
        b'"' => push_letter(out, b'"'),
        b'\\' => push_letter(out, b'\\'),
        b'\n' => push_letter(out, b'n'),
        b'\r' => push_letter(out, b'r'),
        b'\t' => push_letter(out, b't'),
        0..32 => {
            let number = [
                b'\\',
                b'u',
                b'0',
                b'0',
                b'0' + byte / 16,
                hex_digit(byte % 16),
            ];
            out.extend_from_slice(&number)
        }
        _ => push_byte(out, byte),
    }
}

fn push_letter(out: &mut Vec<u8>, letter: u8) -> Result<(), AllocError>
    ensures { OnOk result (out.new.items ≡ out.old.items ++ 92 ∷ letter ∷ []) }
{
    out.extend_from_slice(&[b'\\', letter])
}

// A digit of base 16.
fn hex_digit(digit: u8) -> u8
    requires { digit < 16 }
    ensures { result ≡ hex_digit digit }
{
    if digit < 10 {
        b'0' + digit
    } else {
        b'a' - 10 + digit
    }
}

/// Writes the digits of a number in quotes.
#[tactic(auto, unfolding(crate::specs::Json::digits))]
pub(crate) fn push_digits(out: &mut Vec<u8>, number: u64) -> Result<(), AllocError>
    ensures { OnOk result (out.new.items ≡ out.old.items ++ digits number) }
{
    push_byte(out, b'"')?;
    push_number(out, number)?;
    push_byte(out, b'"')
}

/// The same of a number that may be negative.
#[tactic(auto, unfolding(crate::specs::Json::signed_digits))]
pub(crate) fn push_signed_digits(out: &mut Vec<u8>, number: i64) -> Result<(), AllocError>
    ensures { OnOk result (out.new.items ≡ out.old.items ++ signed_digits number) }
{
    push_byte(out, b'"')?;
    push_signed(out, number)?;
    push_byte(out, b'"')
}

/// Writes items in brackets.
#[tactic(auto, unfolding(crate::specs::Json::bracketed))]
pub(crate) fn push_bracketed(out: &mut Vec<u8>, items: &[u8]) -> Result<(), AllocError>
    ensures { OnOk result (out.new.items ≡ out.old.items ++ bracketed items.now) }
{
    push_byte(out, b'[')?;
    out.extend_from_slice(items)?;
    push_byte(out, b']')
}

/// Writes numbers in quotes, with commas between and in brackets.
#[tactic(auto, unfolding(crate::specs::Json::bracketed))]
pub(crate) fn push_counts(out: &mut Vec<u8>, numbers: &[u64]) -> Result<(), AllocError>
    ensures { OnOk result (out.new.items ≡ out.old.items ++ bracketed (joined digits numbers.now)) }
{
    push_byte(out, b'[')?;
    push_joined(out, numbers)?;
    push_byte(out, b']')
}

#[tactic(auto, using(metric_text::specs::ListLaws::joined_is_led))]
fn push_joined(out: &mut Vec<u8>, numbers: &[u64]) -> Result<(), AllocError>
    ensures { OnOk result (out.new.items ≡ out.old.items ++ joined digits numbers.now) }
{
    push_led(out, "", numbers)
}

// Writes numbers in quotes, with a text before the first and commas between. It calls itself at most as often as a
// histogram has buckets.
fn push_led(out: &mut Vec<u8>, before: &str, numbers: &[u64]) -> Result<(), AllocError>
    ensures { OnOk result (out.new.items ≡ out.old.items ++ led_by before.now digits numbers.now) }
{
    let Some((number, numbers)) = numbers.split_first() else {
        return Ok(());
    };
    push_text(out, before)?;
    push_digits(out, *number)?;
    push_led(out, ",", numbers)
}
