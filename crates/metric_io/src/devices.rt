//! What a device promises that bytes are read from or written to.
ghost use Rattle.std.specs.Prelude.{◌≡◌, ℕ, List, Option, Result};
ghost use Rattle.std.specs.Io.{ReadsAtMost, WritesAtMost};
ghost use Rattle.std.specs.Io.KnownBytes.{Keeps, ReadConsumes, WriteAppends};
ghost use Rattle.metric_io.specs.Counts.{CountsFlush, CountsWrite, counts_after};
ghost use Rattle.metric_io.specs.declared.counts.ReadCounts.{ReadCounts};
ghost use Rattle.metric_io.specs.declared.devices.Broken.{Broken};

use thiserror::Error;

/// The device failed. It is the one fault of a [`Sink`].
#[derive(Clone, Copy, Debug, PartialEq, Eq, Error)]
#[error("the device failed")]
pub struct Broken;

/// Why a [`Source`] gave no bytes.
#[derive(Clone, Copy, Debug, PartialEq, Eq, Error)]
pub enum SourceFault {
    /// A signal interrupted the read, which may be tried again.
    #[error("a signal interrupted the read")]
    Interrupted,
    /// The source failed.
    #[error("the device failed")]
    Broken,
}

/// What bytes are read from, in the shape of `std::io::Read`.
///
/// Contracts see the bytes that are left, where the source knows them, and its
/// [`ReadCounts`](crate::ReadCounts).
pub trait Source {
    ghost remaining: { Self → Option (List ℕ) };

    ghost counts: { Self → ReadCounts };

    /// Reads into the front of `buf`, and answers how many bytes it gave: none only at the end
    /// of the bytes or where `buf` is empty. After a [`SourceFault`] no byte is lost.
    fn read(&mut self, buf: &mut [u8]) -> Result<usize, SourceFault>
        ensures bound { ReadsAtMost result buf.new }
        ensures bytes { ReadConsumes (remaining self.old) (remaining self.new) result buf.new }
        ensures counts { counts self.new ≡ counts_after (counts self.old) result };
}

/// What bytes are written to, in the shape of `std::io::Write`.
///
/// Contracts see the bytes that the sink holds, where it knows them; the count of its failures,
/// which stops at 2^64 - 1; and what it says of its flushes, by which a caller can promise that it
/// flushes. A write that takes nothing of something is a failure too. A write that a signal
/// interrupts is tried again within the sink, and no caller sees it.
pub trait Sink {
    ghost contents: { Self → Option (List ℕ) };

    ghost failures: { Self → ℕ };

    // What a flush does to the sink, by the answer.
    ghost flush_gives: { Self → Self → Result (Unit {0}) Broken → Type 0 } = { λ _ _ _. Unit {0} };

    /// Takes bytes from the front of `buf`, and answers how many. [`Broken`] takes none.
    fn write(&mut self, buf: &[u8]) -> Result<usize, Broken>
        ensures bound { WritesAtMost result buf.now }
        ensures bytes { WriteAppends (contents self.old) (contents self.new) result buf.now }
        ensures failures { CountsWrite (failures self.old) (failures self.new) result buf.now };

    /// Passes on what the sink may still hold back. It takes no byte, nor loses one.
    fn flush(&mut self) -> Result<(), Broken>
        ensures bytes { Keeps (contents self.old) (contents self.new) }
        ensures failures { CountsFlush (failures self.old) (failures self.new) result }
        ensures gives { flush_gives self.old self.new result };
}
