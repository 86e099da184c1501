//! The readers and writers of std as a source and a sink.
ghost use Rattle.std.specs.Prelude.{◌≡◌};
ghost use Rattle.std.specs.Io.{WritesAtMost};
ghost use Rattle.std.specs.Io.KnownBytes.{WriteAppends};
ghost use Rattle.metric_io.specs.Counts.{no_reads};

use crate::counts::ReadCounts;
use crate::devices::{Broken, Sink, Source, SourceFault};
use std::io::{Error, ErrorKind, Read, Write};

// How often a write is tried that a signal interrupts each time.
const MAX_TRIES: u32 = 65_536;

/// A reader of std as a [`Source`]. Every error of the reader but an interruption is
/// [`SourceFault::Broken`].
#[derive(Drop)]
pub struct StdSource<R: Read + Drop> {
    reader: R,
    counts: ReadCounts,
}

impl<R: Read + Drop> StdSource<R> {
    /// A source that was not read yet.
    pub fn new(reader: R) -> Self
        ensures bytes { ⟦<StdSource<R> as Source>⟧.remaining result ≡ R.remaining reader }
        ensures counts { ⟦<StdSource<R> as Source>⟧.counts result ≡ no_reads }
    {
        StdSource {
            reader,
            counts: ReadCounts::none(),
        }
    }

    /// The reader, with the bytes that the source left.
    pub fn into_inner(self) -> R
        ensures { R.remaining result ≡ ⟦<StdSource<R> as Source>⟧.remaining self }
    {
        self.reader
    }
}

impl<R: Read + Drop> Source for StdSource<R> {
    ghost remaining = { λ s. R.remaining s.reader };

    ghost counts = { λ s. s.counts };

    fn read(&mut self, buf: &mut [u8]) -> Result<usize, SourceFault> {
        let answer = match self.reader.read(buf) {
            Ok(given) => Ok(given),
            Err(error) => Err(source_fault(&error)),
        };
        self.counts.count(&answer);
        answer
    }
}

fn source_fault(error: &Error) -> SourceFault {
    match error.kind() {
        ErrorKind::Interrupted => SourceFault::Interrupted,
        _ => SourceFault::Broken,
    }
}

/// A writer of std as a [`Sink`]. Every error of the writer is [`Broken`], but a write that a
/// signal interrupts is tried up to 65,536 times before it is one. A flush is not tried again.
#[derive(Drop)]
pub struct StdSink<W: Write + Drop> {
    writer: W,
    failures: u64,
}

impl<W: Write + Drop> StdSink<W> {
    /// A sink that was not written yet.
    pub fn new(writer: W) -> Self
        ensures bytes { ⟦<StdSink<W> as Sink>⟧.contents result ≡ W.contents writer }
        ensures failures { ⟦<StdSink<W> as Sink>⟧.failures result ≡ 0 }
    {
        StdSink {
            writer,
            failures: 0,
        }
    }

    /// The writer, with the bytes that the sink took.
    pub fn into_inner(self) -> W
        ensures { W.contents result ≡ ⟦<StdSink<W> as Sink>⟧.contents self }
    {
        self.writer
    }
}

impl<W: Write + Drop> Sink for StdSink<W> {
    ghost contents = { λ s. W.contents s.writer };

    ghost failures = { λ s. s.failures };

    fn write(&mut self, buf: &[u8]) -> Result<usize, Broken> {
        let answer = write_again(&mut self.writer, buf);
        match answer {
            Ok(taken) if taken > 0 || buf.is_empty() => {}
            _ => self.failures = self.failures.saturating_add(1),
        }
        answer
    }

    fn flush(&mut self) -> Result<(), Broken> {
        match self.writer.flush() {
            Ok(()) => Ok(()),
            Err(_) => {
                self.failures = self.failures.saturating_add(1);
                Err(Broken)
            }
        }
    }
}

// Writes, and again where a signal interrupts it.
fn write_again<W: Write>(writer: &mut W, buf: &[u8]) -> Result<usize, Broken>
    ensures bound { WritesAtMost result buf.now }
    ensures bytes { WriteAppends (W.contents writer.old) (W.contents writer.new) result buf.now }
{
    for _try in 0..MAX_TRIES {
        match writer.write(buf) {
            Ok(taken) => return Ok(taken),
            Err(error) if error.kind() == ErrorKind::Interrupted => {}
            Err(_) => return Err(Broken),
        }
    }
    Err(Broken)
}
