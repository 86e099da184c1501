//! A whole input read, and a whole text written.
ghost use Rattle.std.specs.Prelude.{◌≡◌, ◌+◌, ◌≤◌, IfOk, IfSome, IsErrOf, OnErr, OnOk, vec_len};
ghost use Rattle.std.specs.Io.KnownBytes.{Appends, IsAtEnd};
ghost use Rattle.metric_io.specs.Counts.{HasFailed};
ghost use Rattle.metric_io.specs.Input.{IsReadFault, most_bytes, most_reads};
ghost use Rattle.metric_io.specs.Prefix.{AppendsPrefix};
ghost use Rattle.metric_io.specs.declared.whole.ReadFault.TheVariants.{Memory, Read};

use crate::devices::{Broken, Sink, Source, SourceFault};
use std::alloc::{AllocError, Global};
use thiserror::Error;

/// The most bytes that an input may have.
pub const MAX_BYTES: usize = 67_108_864;

/// How often a source is asked at most for a whole input. The read that finds the end is one.
pub const MAX_READS: u64 = 4_194_304;

// What one read is offered.
const BUFFER_BYTES: usize = 65_536;

/// Why an input was not read.
#[derive(Clone, Copy, Debug, PartialEq, Eq, Error)]
pub enum ReadFault {
    /// The source failed, or the input passes [`MAX_BYTES`] or [`MAX_READS`].
    #[error("the input cannot be read")]
    Read,
    /// Memory ran out.
    #[error("out of memory")]
    Memory,
}

impl From<AllocError> for ReadFault {
    ghost from_gives = { λ _ fault. fault ≡ Memory };

    fn from(_error: AllocError) -> ReadFault {
        ReadFault::Memory
    }
}

/// Reads all that the source has left, up to [`MAX_BYTES`] bytes by up to [`MAX_READS`] reads.
/// An input of exactly [`MAX_BYTES`] bytes is read. A read that a signal interrupts is tried again,
/// and each try is one of the reads.
///
/// # Errors
///
/// [`ReadFault::Read`] where the source fails, has more bytes or takes more reads, and
/// [`ReadFault::Memory`]. What was read until then is lost.
pub fn read_all<R: Source>(alloc: Global, source: &mut R) -> Result<Vec<u8>, ReadFault>
    ensures bytes { IfOk result (λ all. IfSome (R.remaining source.old) (λ xs. all.items ≡ xs)) }
    ensures end { OnOk result (IsAtEnd (R.remaining source.new)) }
    ensures small { IfOk result (λ all. vec_len all ≤ most_bytes) }

    // The source failed only where the answer is Read, and then it failed or a limit was passed.
    ensures ok { OnOk result
        ((R.counts source.new).failures ≡ (R.counts source.old).failures) }
    ensures memory { IsErrOf result ReadFault.Memory →
        (R.counts source.new).failures ≡ (R.counts source.old).failures }
    ensures read { IsErrOf result ReadFault.Read →
        IsReadFault (R.counts source.old) (R.counts source.new) (R.remaining source.old) }

    ensures reads { (R.counts source.new).reads ≤ (R.counts source.old).reads + most_reads }
{
    let mut buffer = zeros(alloc, BUFFER_BYTES)?;
    let mut all = Vec::new(alloc);
    for _turn in 0..MAX_READS {
        let given = match source.read(&mut buffer) {
            Ok(given) => given,
            Err(SourceFault::Interrupted) => continue,
            Err(SourceFault::Broken) => return Err(ReadFault::Read),
        };
        if given == 0 {
            return Ok(all);
        }
        if MAX_BYTES - all.len() < given {
            return Err(ReadFault::Read);
        }
        all.extend_from_slice(&buffer[..given])?;
    }
    Err(ReadFault::Read)
}

fn zeros(alloc: Global, len: usize) -> Result<Vec<u8>, AllocError>
    ensures { IfOk result (λ zeros. vec_len zeros ≡ len) }
{
    vec![in alloc; 0; len]
}

/// Writes the whole text, by as many writes as the sink takes.
///
/// # Errors
///
/// [`Broken`] where the sink fails or takes nothing. It then holds a prefix of the text.
#[tactic(auto, using(crate::specs::Prefix::prefixes))]
pub fn write_all<W: Sink>(sink: &mut W, text: &[u8]) -> Result<(), Broken>
    ensures ok { OnOk result (Appends (W.contents sink.old) (W.contents sink.new) text.now) }
    ensures prefix { AppendsPrefix (W.contents sink.old) (W.contents sink.new) text.now }
    ensures broken { OnErr result (HasFailed (W.failures sink.old) (W.failures sink.new)) }
    ensures counted { OnOk result (W.failures sink.new ≡ W.failures sink.old) }
{
    let mut rest = text;
    while !rest.is_empty() {
        let taken = sink.write(rest)?;
        if taken == 0 {
            return Err(Broken);
        }
        let (_, back) = rest.split_at(taken);
        rest = back;
    }
    Ok(())
}
