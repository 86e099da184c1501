//! The numbers that calls answer.
ghost use Rattle.std.specs.Prelude.{◌≡◌};
ghost use Rattle.wormweekly_c.specs.Codes.{code_of};

use metric_contents::Refusal;

/// Done.
pub const DONE: u32 = 0;

/// The number of the refusal of a key that stands twice.
pub const DUPLICATE_KEY: u32 = 3;

/// The number of the out-of-memory refusal.
pub const MEMORY: u32 = 11;

/// The number of the refusal of a stranger.
pub const STRANGER: u32 = 12;

/// A handle is null, or holds another kind.
pub const NOT_OPEN: u32 = 100;

/// Bytes are no UTF-8, a length leads past the texts, or there is no such kind.
pub const NO_TEXT: u32 = 101;

/// A buffer, or a list of handles, is too short.
pub const TOO_SHORT: u32 = 102;

/// The catalogue or the config is at fault.
pub const FAULT: u32 = 103;

/// The seat of some recorder is not there.
pub const RECORDER_MISSING: u32 = 104;

/// An instrument's state is not what its recorders were told.
pub const AUDIT_MISMATCH: u32 = 105;

/// There is nothing of this number.
pub const UNKNOWN: u32 = 106;

/// A resource has more than 64 attributes.
pub const TOO_MANY: u32 = 107;

/// An attribute of a resource has an empty key.
pub const EMPTY_KEY: u32 = 108;

/// A handle that is to be filled holds something.
pub const OPEN: u32 = 109;

/// The key of an attribute of a resource has no letter and no digit, so that its label says nothing.
pub const BAD_LABEL: u32 = 110;

/// Two attributes of a resource have one label.
pub const LABEL_COLLISION: u32 = 111;

// The number of an answer.
pub(crate) fn code_of(answer: &Result<(), Refusal>) -> u32
    ensures { result ≡ code_of answer.now }
{
    match answer {
        Ok(()) => DONE,
        Err(refusal) => u32::from(refusal.number()),
    }
}
