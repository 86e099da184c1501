//! A source and a sink over memory that fail where a test wants them to.
ghost use Rattle.std.specs.Prelude.{◌≡◌, ◌<◌, [], length, Some, None, IsErr, MatchResult, IfOk, false, true, unwrap_or};
ghost use Rattle.std.specs.Io.{ReadsAtMost, WritesAtMost};
ghost use Rattle.std.specs.Io.KnownBytes.{Keeps, ReadConsumes, WriteAppends};
ghost use Rattle.metric_io.specs.Counts.{CountsFlush, CountsWrite, counts_after, no_reads};
ghost use Rattle.metric_io.specs.Cut.{SourceState, SinkState, after_failure, after_filled, after_read, after_taken, answer_of, taken_count};

use crate::counts::ReadCounts;
use crate::devices::{Broken, Sink, Source, SourceFault};
use std::alloc::Global;
use std::marker::Model;

/// A source over bytes in memory, which fails from a given read on, and of which a signal
/// interrupts a given read.
///
/// Contracts see it as a record: the bytes that are left, the most that one read gives, the read
/// that is interrupted, the read from which on it fails, and its counts.
#[derive(Drop)]
pub struct CutSource<'a> {
    rest: &'a [u8],
    most: usize,
    interrupt_at: Option<u64>,
    fail_at: Option<u64>,
    counts: ReadCounts,
}

impl<'a> Model for CutSource<'a> {
    ghost Value = { SourceState };

    ghost view = { λ s. record {
      rest = s.rest.now;
      most = s.most;
      interrupt_at = s.interrupt_at;
      fail_at = s.fail_at;
      counts = s.counts;
    } };

    ghost invariant = { λ s. 0 < s.most };
}

impl<'a> CutSource<'a> {
    /// A source of these bytes. Its read number `fail_at`, counted from 1, and each later one
    /// fail; with `None` no read does. No read is interrupted.
    pub fn new(bytes: &'a [u8], fail_at: Option<u64>) -> Self
        ensures { result ≡ record {
          rest = bytes.entry.now;
          most = usize.MAX;
          interrupt_at = None;
          fail_at = fail_at;
          counts = no_reads;
        } }
    {
        CutSource {
            rest: bytes,
            most: usize::MAX,
            interrupt_at: None,
            fail_at,
            counts: ReadCounts::none(),
        }
    }

    /// The same source, of which no read gives more than `most` bytes.
    pub fn in_pieces(self, most: usize) -> Self
        requires { 0 < most }
        ensures { result ≡ record self.entry { most = most } }
    {
        CutSource { most, ..self }
    }

    /// The same source, of which a signal interrupts the read number `read`, counted from 1, unless
    /// that read fails.
    pub fn interrupted_at(self, read: u64) -> Self
        ensures { result ≡ record self.entry { interrupt_at = Some read } }
    {
        CutSource {
            interrupt_at: Some(read),
            ..self
        }
    }

    /// The bytes that no read gave yet.
    pub fn rest(&self) -> &'a [u8]
        ensures { result.now ≡ self.now.rest }
    {
        self.rest
    }

    /// How often the source was read, up to 2^64 - 1.
    pub fn reads(&self) -> u64
        ensures { result ≡ self.now.counts.reads }
    {
        self.counts.reads
    }

    // What the next read into a buffer of this length answers.
    fn answer(&self, room: usize) -> Result<usize, SourceFault>
        ensures { result ≡ answer_of self.now room }
    {
        let number = self.counts.reads.saturating_add(1);
        if self.fail_at.is_some_and(|first| first <= number) {
            return Err(SourceFault::Broken);
        }
        if self.interrupt_at == Some(number) {
            return Err(SourceFault::Interrupted);
        }
        Ok(room.min(self.most.min(self.rest.len())))
    }
}

impl Source for CutSource<'_> {
    ghost remaining = { λ s. Some s.rest };

    ghost counts = { λ s. s.counts };

    fn read(&mut self, buf: &mut [u8]) -> Result<usize, SourceFault>
        ensures answer { result ≡ answer_of self.old (length buf.old) }
        ensures after { self.new ≡ after_read self.old (length buf.old) }
        ensures filled { buf.new ≡ after_filled self.old buf.old }

        ensures bound { ReadsAtMost result buf.new }
        ensures bytes { ReadConsumes (Some self.old.rest) (Some self.new.rest) result buf.new }
        ensures counts { self.new.counts ≡ counts_after self.old.counts result }
    {
        let answer = self.answer(buf.len());
        self.counts.count(&answer);
        let given = answer?;
        let (front, back) = self.rest.split_at(given);
        buf[..given].copy_from_slice(front);
        self.rest = back;
        Ok(given)
    }
}

/// A sink in memory, which takes a given number of bytes and then fails.
///
/// Contracts see it as a record: the bytes that it holds, how many more it has room for, the most
/// that one write takes, whether a flush succeeds, and its count of failures.
#[derive(Drop)]
pub struct CutSink {
    held: Vec<u8>,
    room: usize,
    most: usize,
    flushes: bool,
    failures: u64,
}

impl Model for CutSink {
    ghost Value = { SinkState };

    ghost view = { λ s. record {
      held = s.held.items;
      room = s.room;
      most = s.most;
      flushes = s.flushes;
      failures = s.failures;
    } };
}

impl CutSink {
    /// An empty sink that takes `room` bytes in all. A write that reaches the end takes what
    /// fits, and each later one of any byte fails; with `None` the room has no end.
    pub fn new(alloc: Global, room: Option<usize>) -> Self
        ensures { result ≡ record {
          held = [];
          room = unwrap_or room usize.MAX;
          most = usize.MAX;
          flushes = true;
          failures = 0;
        } }
    {
        CutSink {
            held: Vec::new(alloc),
            room: room.unwrap_or(usize::MAX),
            most: usize::MAX,
            flushes: true,
            failures: 0,
        }
    }

    /// The same sink, of which no write takes more than `most` bytes; with 0 it takes nothing.
    pub fn in_pieces(self, most: usize) -> Self
        ensures { result ≡ record self { most = most } }
    {
        CutSink { most, ..self }
    }

    /// The same sink, of which each flush fails.
    pub fn with_failing_flush(self) -> Self
        ensures { result ≡ record self { flushes = false } }
    {
        CutSink {
            flushes: false,
            ..self
        }
    }

    /// The bytes that the sink took.
    pub fn taken(&self) -> &[u8]
        ensures { result.now ≡ self.now.held }
    {
        &self.held
    }

    fn fail<T>(&mut self) -> Result<T, Broken>
        ensures answer { IsErr result }
        ensures after { self.new ≡ after_failure self.old }
    {
        self.failures = self.failures.saturating_add(1);
        Err(Broken)
    }
}

impl Sink for CutSink {
    ghost contents = { λ s. Some s.held };

    ghost failures = { λ s. s.failures };

    /// Fails too when out of memory for the bytes.
    fn write(&mut self, buf: &[u8]) -> Result<usize, Broken>
        ensures full { 0 < length buf.now → self.old.room ≡ 0 → IsErr result }
        ensures answer { IfOk result (λ n. n ≡ taken_count self.old (length buf.now)) }
        ensures after { MatchResult result
            (λ _. self.new ≡ after_taken self.old buf.now)
            (λ _. self.new ≡ after_failure self.old) }

        ensures bound { WritesAtMost result buf.now }
        ensures bytes { WriteAppends (Some self.old.held) (Some self.new.held) result buf.now }
        ensures failures { CountsWrite self.old.failures self.new.failures result buf.now }
    {
        if buf.is_empty() {
            return Ok(0);
        }
        if self.room == 0 {
            return self.fail();
        }
        let taken = buf.len().min(self.most.min(self.room));
        if self.held.extend_from_slice(&buf[..taken]).is_err() {
            return self.fail();
        }
        self.room -= taken;
        if taken == 0 {
            self.failures = self.failures.saturating_add(1);
        }
        Ok(taken)
    }

    fn flush(&mut self) -> Result<(), Broken>
        ensures answer { MatchResult result
            (λ _. self.old.flushes ≡ true) (λ _. self.old.flushes ≡ false) }
        ensures after { MatchResult result
            (λ _. self.new ≡ self.old) (λ _. self.new ≡ after_failure self.old) }

        ensures bytes { Keeps (Some self.old.held) (Some self.new.held) }
        ensures failures { CountsFlush self.old.failures self.new.failures result }
    {
        if self.flushes {
            return Ok(());
        }
        self.fail()
    }
}
