//! The boundaries of buckets.
ghost use Rattle.std.specs.Prelude.{◌≡◌, ◌++◌, OnOk};
ghost use Rattle.metric_exposition.specs.Boundaries.{exponent, le_text, pointed, significant, spelled};

use itoa::Buffer;
use metric_text::{push_byte, push_number, push_text};
use std::alloc::AllocError;

/// Writes a boundary as Prometheus writes the double of its value, so that a server has no reason to write it anew: up
/// to six digits with `.0` behind them, more with an exponent. Exact for the boundaries that are exact as doubles.
pub fn push_boundary(out: &mut Vec<u8>, boundary: i64) -> Result<(), AllocError>
    ensures { OnOk result (out.new.items ≡ out.old.items ++ le_text boundary) }
{
    if boundary < 0 {
        push_text(out, "-")?;
    }
    push_spelled(
        out,
        Buffer::new().format(boundary.unsigned_abs()).as_bytes(),
    )
}

#[tactic(auto, unfolding(crate::specs::Boundaries::spelled))]
fn push_spelled(out: &mut Vec<u8>, digits: &[u8]) -> Result<(), AllocError>
    ensures { OnOk result (out.new.items ≡ out.old.items ++ spelled digits.now) }
{
    if digits.len() < 7 {
        out.extend_from_slice(digits)?;
        return push_text(out, ".0");
    }
    push_pointed(out, significant(digits))?;
    push_text(out, "e+")?;
    push_exponent(out, digits.len() as u64 - 1)
}

// Digits without the zeros at their end.
#[tactic(auto, unfolding(crate::specs::Boundaries::significant))]
fn significant(digits: &[u8]) -> &[u8]
    ensures { result.now ≡ significant digits.now }
{
    let mut end = digits.len();
    while end > 0 && digits[end - 1] == b'0' {
        end -= 1;
    }
    &digits[..end]
}

fn push_pointed(out: &mut Vec<u8>, digits: &[u8]) -> Result<(), AllocError>
    ensures { OnOk result (out.new.items ≡ out.old.items ++ pointed digits.now) }
{
    match digits {
        [first, others @ ..] if !others.is_empty() => {
            push_byte(out, *first)?;
            push_byte(out, b'.')?;
            out.extend_from_slice(others)
        }
        _ => out.extend_from_slice(digits),
    }
}

fn push_exponent(out: &mut Vec<u8>, number: u64) -> Result<(), AllocError>
    ensures { OnOk result (out.new.items ≡ out.old.items ++ exponent number) }
{
    if number < 10 {
        push_byte(out, b'0')?;
    }
    push_number(out, number)
}
