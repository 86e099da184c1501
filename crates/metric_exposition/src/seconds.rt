//! Times in seconds.
ghost use Rattle.std.specs.Prelude.{◌≡◌, ◌++◌, OnOk};
ghost use Rattle.metric_exposition.specs.Pieces.{nine_digits, seconds};

use itoa::Buffer;
use metric_text::{push_number, push_text};
use std::alloc::AllocError;

const NANOS_A_SECOND: u64 = 1_000_000_000;

const ZEROS: &[u8] = b"000000000";

/// Writes nanoseconds as seconds, with nine digits behind the point.
#[tactic(auto, unfolding(crate::specs::Pieces::seconds))]
pub(crate) fn push_seconds(out: &mut Vec<u8>, nanos: u64) -> Result<(), AllocError>
    ensures { OnOk result (out.new.items ≡ out.old.items ++ seconds nanos) }
{
    push_number(out, nanos / NANOS_A_SECOND)?;
    push_text(out, ".")?;
    push_nine_digits(out, nanos % NANOS_A_SECOND)
}

#[tactic(auto, unfolding(crate::specs::Pieces::nine_digits))]
fn push_nine_digits(out: &mut Vec<u8>, number: u64) -> Result<(), AllocError>
    ensures { OnOk result (out.new.items ≡ out.old.items ++ nine_digits number) }
{
    let mut buffer = Buffer::new();
    let digits = buffer.format(number);
    if let Some(zeros) = ZEROS.get(digits.len()..) {
        out.extend_from_slice(zeros)?;
    }
    push_text(out, digits)
}
