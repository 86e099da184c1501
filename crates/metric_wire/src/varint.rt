//! Numbers of as many bytes as they need.
ghost use Rattle.std.specs.Prelude.{◌≡◌, ◌++◌, OnOk};
ghost use Rattle.metric_wire.specs.Wire.{varint};

use std::alloc::AllocError;

/// Writes a number as a varint: in base 128, the least digit first, with 128 added to each digit but the last. Fails
/// only when out of memory, and may then have written some of the digits.
pub fn push_varint(out: &mut Vec<u8>, number: u64) -> Result<(), AllocError>
    ensures { OnOk result (out.new.items ≡ out.old.items ++ varint number) }
{
    let mut rest = number;
    while rest >= 128 {
        out.push((128 + rest % 128) as u8)?;
        rest /= 128;
    }
    out.push(rest as u8)?;
    Ok(())
}
