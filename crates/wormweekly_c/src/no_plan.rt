//! Why there is no plan.
ghost use Rattle.std.specs.Prelude.{◌≡◌};
ghost use Rattle.wormweekly_c.specs.Texts.{IsFront};

use crate::codes::FAULT;
use crate::texts::copy_front;

/// Why texts come to no certified plan.
#[derive(Drop)]
pub(crate) enum NoPlan {
    /// One of them is no UTF-8.
    NoText,
    /// Out of memory.
    Memory,
    /// They have a fault, which is told so.
    Fault(Vec<u8>),
}

// Writes the text of a fault as far as there is room, with its whole length, and answers the number.
pub(crate) fn tell(text: &[u8], out: &mut [u8], text_length: &mut usize) -> u32
    ensures code { result ≡ 103 }
    ensures told { IsFront text.now out.old out.new text_length.new }
{
    *text_length = copy_front(text, out);
    FAULT
}
