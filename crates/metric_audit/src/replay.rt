//! The journal of one reader, read again.
ghost use Rattle.std.specs.Prelude.{◌≡◌, ◌<◌, true, length, IfOk, OnOk, [], ◌∷◌};
ghost use Rattle.metric_audit.specs.Batches.{is_headed};
ghost use Rattle.metric_audit.specs.Replays.{GoesOn, HasRoomFor, IsFirstWrongOf, IsReplayed, JudgesBatch, ReportsPoints, TakesWhereIt, are_of_reader};
ghost use Rattle.metric_history.specs.Journals.{HasReader, MovesMark, no_marks};

use crate::entries::is_admitted;
use crate::same::are_same_streams;
use metric_contents::Refusal;
use metric_facts::Facts;
use metric_history::{Batch, Book, Entry, StreamPoints};
use std::alloc::{AllocError, Global};

/// On which instrument a journal was recorded, since when, and its recordings, oldest first.
#[derive(Clone, Copy)]
pub(crate) struct Run<'a> {
    /// The number of the instrument.
    pub(crate) instrument: u32,
    /// The start, in nanoseconds.
    pub(crate) start: u64,
    /// The recordings.
    pub(crate) entries: &'a [Entry],
}

// What the last of a reader's batches said of itself.
#[derive(Clone, Copy, Drop)]
struct Last {
    mark: u64,
    time: u64,
}

// Takes a recording, where it may follow.
fn take_next<B: Book>(book: &mut B, facts: &Facts, entry: &Entry) -> Result<bool, AllocError>
    requires { HasRoomFor (B.stands book.old) facts.now 1 }
    ensures { IfOk result (λ taken.
        TakesWhereIt (B.stands book.old) (B.stands book.new) facts.now (entry.now ∷ []) taken) }
{
    if !is_admitted(facts, entry) {
        return Ok(false);
    }
    match book.push(*entry) {
        Ok(()) => Ok(true),
        Err(Refusal::SumRange) => Ok(false),
        Err(_) => Err(AllocError),
    }
}

// Takes recordings, up to the first that may not follow.
fn take_each<B: Book>(book: &mut B, facts: &Facts, entries: &[Entry]) -> Result<bool, AllocError>
    requires { HasRoomFor (B.stands book.old) facts.now (length entries.now) }
    ensures { IfOk result (λ taken.
        TakesWhereIt (B.stands book.old) (B.stands book.new) facts.now entries.now taken) }
{
    for entry in entries {
        if !take_next(book, facts, entry)? {
            return Ok(false);
        }
    }
    Ok(true)
}

// Whether a batch of at most so many recordings says where it begins and when.
fn is_headed(
    facts: &Facts,
    instrument: u32,
    start: u64,
    count: u64,
    last: Last,
    batch: &Batch,
) -> bool
    ensures { result
        ≡ is_headed facts.now instrument start count last.mark last.time batch.now }
{
    let is_delta = facts.is_delta(batch.reader);
    let from = if is_delta { last.mark } else { 0 };
    let begins = if is_delta { last.time } else { start };
    batch.instrument == instrument
        && batch.from == from
        && batch.start == begins
        && last.mark <= batch.mark
        && batch.mark <= count
        && last.time <= batch.time
}

// Whether a collection by the reader reports these points.
fn reports<B: Book>(
    book: &mut B,
    alloc: Global,
    reader: u32,
    streams: &[StreamPoints],
) -> Result<bool, AllocError>
    requires { HasReader (B.stands book.old) reader }
    ensures reports { IfOk result (λ same.
        ReportsPoints (B.stands book.old) reader streams.now same) }
    ensures moves { OnOk result (MovesMark (B.stands book.old) (B.stands book.new) reader) }
{
    let window = book.report(alloc, reader)?;
    book.advance(reader);
    Ok(are_same_streams(streams, window.streams.as_slice()))
}

// Whether a batch is right after the reader's last one. Where it is, the book has the recordings that it counts.
fn is_right<B: Book>(
    book: &mut B,
    alloc: Global,
    own: &Facts,
    run: &Run<'_>,
    last: Last,
    batch: &Batch,
) -> Result<bool, AllocError>
    requires reader { batch.now.reader < length own.now.delta }
    requires own { are_of_reader own.now batch.now.reader ≡ true }
    requires replayed { IsReplayed (B.stands book.old) own.now batch.now.reader
        run.now.entries.now last.mark }
    ensures { IfOk result (λ right. JudgesBatch (B.stands book.new) own.now run.now.instrument
        run.now.start run.now.entries.now last.mark last.time batch.now right) }
{
    let count = run.entries.len() as u64;
    if !is_headed(own, run.instrument, run.start, count, last, batch) {
        return Ok(false);
    }
    let added = &run.entries[last.mark as usize..batch.mark as usize];
    if !take_each(book, own, added)? {
        return Ok(false);
    }
    reports(book, alloc, batch.reader, batch.streams.as_slice())
}

// Whether a batch is another reader's, or right after the reader's last one; then what it says is what the last one
// said.
fn goes_on<B: Book>(
    book: &mut B,
    alloc: Global,
    own: &Facts,
    run: &Run<'_>,
    reader: u32,
    last: &mut Last,
    batch: &Batch,
) -> Result<bool, AllocError>
    requires reader { reader < length own.now.delta }
    requires own { are_of_reader own.now reader ≡ true }
    requires replayed { IsReplayed (B.stands book.old) own.now reader run.now.entries.now
        last.old.mark }
    ensures { IfOk result (λ right. GoesOn (B.stands book.new) own.now run.now.instrument
        run.now.start run.now.entries.now reader last.old.mark last.old.time batch.now right
        last.new.mark last.new.time) }
{
    if batch.reader != reader {
        return Ok(true);
    }
    if !is_right(book, alloc, own, run, *last, batch)? {
        return Ok(false);
    }
    last.mark = batch.mark;
    last.time = batch.time;
    Ok(true)
}

/// The place of the first batch of a reader that is not right, or the end. The book has no recordings yet, and the
/// facts have the streams of this reader alone.
pub(crate) fn first_wrong_of<B: Book>(
    mut book: B,
    alloc: Global,
    own: &Facts,
    run: &Run<'_>,
    reader: u32,
    batches: &[Batch],
) -> Result<usize, AllocError>
    requires reader { reader < length own.now.delta }
    requires own { are_of_reader own.now reader ≡ true }
    requires begins { B.stands book own.now [] (no_marks own.now) }
    ensures { IfOk result (λ at. IsFirstWrongOf own.now run.now.instrument run.now.start
        run.now.entries.now batches.now reader at) }
{
    let mut last = Last {
        mark: 0,
        time: run.start,
    };
    for (at, batch) in batches.iter().enumerate() {
        if !goes_on(&mut book, alloc, own, run, reader, &mut last, batch)? {
            return Ok(at);
        }
    }
    Ok(batches.len())
}
