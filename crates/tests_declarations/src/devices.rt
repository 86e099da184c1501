//! Sources that are read and sinks that are written, whole and with failures.
use crate::asserted::{OrFail, assert_equal, assert_true};
use metric_io::{
    Broken, CutSink, CutSource, MAX_READS, ReadFault, Sink, StdSink, StdSource, read_all, write_all,
};
use std::alloc::Global;
use std::io;
use std::io::{ErrorKind, Read, Write};
use std::process::Abort;

const ALPHABET: &[u8] = b"abcdefghijklmnopqrstuvwxyz";

// An input and what is read of it.
struct Reading {
    bytes: &'static [u8],
    // The read that fails, and the one that is interrupted.
    fail_at: Option<u64>,
    interrupt_at: u64,
    most_at_once: usize,
    is_whole: bool,
    reads: u64,
    rest: &'static [u8],
}

const WHOLE: Reading = Reading {
    bytes: ALPHABET,
    fail_at: None,
    interrupt_at: 0,
    most_at_once: 10,
    is_whole: true,
    reads: 10,
    rest: b"",
};

const READS: &[Reading] = &[
    Reading {
        bytes: b"",
        most_at_once: 3,
        reads: 1,
        ..WHOLE
    },
    Reading {
        most_at_once: 3,
        ..WHOLE
    },
    Reading {
        interrupt_at: 3,
        reads: 5,
        ..WHOLE
    },
    Reading {
        fail_at: Some(3),
        interrupt_at: 2,
        is_whole: false,
        reads: 3,
        rest: b"klmnopqrstuvwxyz",
        ..WHOLE
    },
    Reading {
        fail_at: Some(3),
        is_whole: false,
        reads: 3,
        rest: b"uvwxyz",
        ..WHOLE
    },
    Reading {
        fail_at: Some(1),
        interrupt_at: 1,
        is_whole: false,
        reads: 1,
        rest: ALPHABET,
        ..WHOLE
    },
];

fn source_of(reading: &Reading) -> CutSource<'static> {
    CutSource::new(reading.bytes, reading.fail_at)
        .in_pieces(reading.most_at_once.max(1))
        .interrupted_at(reading.interrupt_at)
}

// Whether an input is read so.
fn is_read(alloc: Global, source: &mut CutSource<'_>, reading: &Reading) -> bool {
    match read_all(alloc, source) {
        Ok(all) => reading.is_whole && all.as_slice() == reading.bytes,
        Err(fault) => !reading.is_whole && fault == ReadFault::Read,
    }
}

#[test]
fn an_input_is_read_whole_or_up_to_a_failure(rt: HostRuntime) {
    for reading in READS {
        let mut source = source_of(reading);
        assert_true(&rt, is_read(rt.alloc(), &mut source, reading));
        assert_equal(
            &rt,
            (source.reads(), source.rest()),
            (reading.reads, reading.rest),
        );
    }
}

// Whether so many bytes are read one by one, or not, by as many reads as there may be.
fn is_read_by_bytes<R: Abort>(rt: &R, alloc: Global, count: usize, is_whole: bool) -> bool {
    let bytes = vec![in alloc; b'a'; count].or_fail(rt);
    let mut source = CutSource::new(&bytes, None).in_pieces(1);
    read_all(alloc, &mut source).is_ok() == is_whole && source.reads() == MAX_READS
}

#[test]
fn the_read_that_finds_the_end_is_one_of_the_limit(rt: HostRuntime) {
    for (count, is_whole) in [(4_194_303, true), (4_194_304, false)] {
        assert_true(&rt, is_read_by_bytes(&rt, rt.alloc(), count, is_whole));
    }
}

// The room of a sink and the most of one write; what is taken of the alphabet.
const WRITES: &[(Option<usize>, usize, &[u8])] = &[
    (None, 3, ALPHABET),
    (None, 0, b""),
    (Some(26), 26, ALPHABET),
    (Some(20), 1, b"abcdefghijklmnopqrst"),
    (Some(20), 7, b"abcdefghijklmnopqrst"),
    (Some(20), 26, b"abcdefghijklmnopqrst"),
];

// Whether a sink takes so much of the alphabet, and tells whether it took all; its flush fails apart from that.
fn takes(sink: &mut CutSink, taken: &[u8]) -> bool {
    let is_whole = write_all(sink, ALPHABET).is_ok();
    sink.taken() == taken && is_whole == (taken == ALPHABET) && sink.flush() == Err(Broken)
}

#[test]
fn a_sink_takes_all_or_fails_after_a_prefix(rt: HostRuntime) {
    for (room, most, taken) in WRITES {
        let mut sink = CutSink::new(rt.alloc(), *room)
            .in_pieces(*most)
            .with_failing_flush();
        assert_true(&rt, takes(&mut sink, taken));
    }
}

// A device of which every other call fails, the first one too.
#[derive(Drop)]
struct Halting {
    is_halted: bool,
    error: ErrorKind,
    given: &'static [u8],
    taken: Vec<u8>,
}

fn device(alloc: Global, error: ErrorKind) -> Halting {
    Halting {
        is_halted: false,
        error,
        given: ALPHABET,
        taken: Vec::new(alloc),
    }
}

impl Halting {
    fn turn(&mut self) -> io::Result<()> {
        self.is_halted = !self.is_halted;
        if self.is_halted {
            Err(io::Error::from(self.error))
        } else {
            Ok(())
        }
    }
}

impl Read for Halting {
    fn read(&mut self, buf: &mut [u8]) -> io::Result<usize> {
        self.turn()?;
        self.given.read(buf)
    }
}

impl Write for Halting {
    fn write(&mut self, buf: &[u8]) -> io::Result<usize> {
        self.turn()?;
        self.taken.write(buf)
    }

    // Shows by a full stop that it was reached.
    fn flush(&mut self) -> io::Result<()> {
        self.turn()?;
        self.taken.write_all(b".")
    }
}

// What is read of the device, and what it is left with.
fn read(alloc: Global, error: ErrorKind) -> Result<Vec<u8>, ReadFault> {
    let mut source = StdSource::new(device(alloc, error));
    let mut all = read_all(alloc, &mut source)?;
    all.extend_from_slice(source.into_inner().given)?;
    Ok(all)
}

// What the device took. The flush after a write that was taken fails, and the next does not.
fn written(alloc: Global, error: ErrorKind) -> Result<Vec<u8>, Broken> {
    let mut sink = StdSink::new(device(alloc, error));
    write_all(&mut sink, ALPHABET)?;
    if sink.flush() == Err(Broken) {
        sink.flush()?;
    }
    Ok(sink.into_inner().taken)
}

#[test]
fn calls_that_a_signal_interrupts_are_made_again(rt: HostRuntime) {
    let error = ErrorKind::Interrupted;
    let told = read(rt.alloc(), error).or_fail(&rt);
    assert_equal(&rt, told.as_slice(), ALPHABET);
    let told = written(rt.alloc(), error).or_fail(&rt);
    assert_equal(
        &rt,
        told.as_slice(),
        b"abcdefghijklmnopqrstuvwxyz.".as_slice(),
    );
}

#[test]
fn devices_that_fail_are_broken(rt: HostRuntime) {
    let error = ErrorKind::BrokenPipe;
    assert_equal(&rt, read(rt.alloc(), error).err(), Some(ReadFault::Read));
    assert_equal(&rt, written(rt.alloc(), error).err(), Some(Broken));
}
