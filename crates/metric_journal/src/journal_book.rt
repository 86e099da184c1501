//! The book that keeps the list of the recordings.
ghost use Rattle.std.specs.Prelude.{◌≡◌, ◌≤◌, ◌++◌, ◌∷◌, [], true, length, slice_index, slice_set, if◌then◌else◌, IfOk, OnOk, OnErr};
ghost use Rattle.metric_history.specs.Journals.{window_of};
ghost use Rattle.metric_journal.specs.JournalStands.{empty_journal};
ghost use Rattle.metric_journal.specs.Ranges.{windows_in_range};
ghost use Rattle.metric_facts.specs.Facts.{is_delta};
ghost use Rattle.metric_history.specs.Windows.{fits_all, fits_stream as stays_in_range, window};

use crate::points::stream_points;
use crate::sums::fits_stream;
use metric_base::Copied;
use metric_contents::Refusal;
use metric_facts::Facts;
use metric_history::{Book, Entry, Window};
use metric_views::Stream;
use std::alloc::{AllocError, Global};
use std::marker::Model;

/// The accepted recordings of an instrument as a list, from which each answer is read. It is the plainest of
/// the books: a recording costs time that grows with the square of their number.
#[derive(Drop)]
pub struct JournalBook {
    facts: Facts,
    entries: Vec<Entry>,
    marks: Vec<u64>,
}

impl Model for JournalBook {
    ghost use Rattle.std.specs.Prelude.{ℕ, ◌≤◌, length, slice_index};
    ghost use Rattle.metric_journal.specs.JournalStands.{JournalValue};

    ghost Value = { JournalValue };

    ghost view = { λ book. record {
      facts = book.facts;
      entries = book.entries.items;
      marks = book.marks.items;
    } };

    ghost invariant = { λ book.
        (reader : ℕ) → slice_index book.marks.items reader ≤ length book.entries.items };
}

impl JournalBook {
    // The book of an instrument without recordings.
    fn without_recordings(alloc: Global, facts: Facts) -> Result<JournalBook, AllocError>
        ensures { IfOk result (λ book. book ≡ empty_journal facts) }
    {
        let marks = vec![in alloc; 0; facts.delta.len()]?;
        Ok(JournalBook {
            facts,
            entries: Vec::new(alloc),
            marks,
        })
    }

    // How many recordings the reader's last collection counted, 0 before one.
    fn mark(&self, reader: u32) -> u64
        ensures mark { result ≡ slice_index self.now.marks reader }
        ensures low { result ≤ length self.now.entries }
    {
        self.marks.get(reader as usize).copied().unwrap_or(0)
    }

    // The first recording that the reader's next collection covers.
    fn first(&self, reader: u32) -> u64
        ensures first { let mark = slice_index self.now.marks reader in
            result ≡ (if is_delta self.now.facts reader then mark else 0) }
        ensures low { result ≤ length self.now.entries }
    {
        let mark = self.mark(reader);
        if self.facts.is_delta(reader) { mark } else { 0 }
    }

    // What the reader's next collection covers.
    #[tactic(auto, using(crate::proofs::RangeLaws::window_from))]
    fn covered(&self, reader: u32) -> &[Entry]
        ensures { let mark = slice_index self.now.marks reader in
            result.now ≡ window (is_delta self.now.facts reader) mark self.now.entries }
    {
        let first = self.first(reader) as usize;
        &self.entries[first..]
    }

    // Whether the series of a stream into which a recording falls stays in range.
    fn fits_in(&self, stream: &Stream, entry: &Entry) -> bool
        ensures { let reader = stream.now.reader in
            let mark = slice_index self.now.marks reader in
            let covered = window (is_delta self.now.facts reader) mark self.now.entries in
            result ≡ stays_in_range stream.now covered entry.now }
    {
        fits_stream(stream, self.covered(stream.reader), entry)
    }

    // Whether that of each stream does. Allocates no memory.
    fn fits(&self, entry: &Entry) -> bool
        ensures { let book = self.now in
            result ≡ fits_all book.facts (slice_index book.marks) book.entries entry.now }
    {
        let streams = self.facts.streams.as_slice();
        for numbered in streams {
            if !self.fits_in(&numbered.stream, entry) {
                return false;
            }
        }
        true
    }

    // Puts a recording last. When out of memory, nothing changes.
    fn put_last(&mut self, entry: Entry) -> Result<(), AllocError>
        ensures ok { OnOk result
            (self.new ≡ record self.old { entries = self.old.entries ++ entry ∷ [] }) }
        ensures err { OnErr result (self.new ≡ self.old) }
    {
        self.entries.push(entry)?;
        Ok(())
    }

    // What a collection by the reader covers and reports.
    #[tactic(auto, using(crate::proofs::RangeLaws::reader_of_windows))]
    fn window(&self, alloc: Global, reader: u32) -> Result<Window, AllocError>
        requires { let book = self.now in
            windows_in_range book.facts book.entries book.marks book.facts.streams ≡ true }
        ensures { IfOk result (λ told.
            told ≡ window_of self.now.facts self.now.entries self.now.marks reader) }
    {
        let streams = stream_points(alloc, &self.facts, reader, self.covered(reader))?;
        Ok(Window {
            from: self.first(reader),
            mark: self.entries.len() as u64,
            streams,
        })
    }

    // The reader's last collection has counted all recordings.
    #[tactic(auto, using(std::proofs::lemmas::List::set_past))]
    fn move_mark(&mut self, reader: u32)
        ensures { let marks = slice_set self.old.marks reader (length self.old.entries) in
            self.new ≡ record self.old { marks = marks } }
    {
        let count = self.entries.len() as u64;
        put(self.marks.as_mut_slice(), reader, count);
    }
}

// Replaces the number of a reader, where there is one.
#[tactic(auto, using(std::proofs::lemmas::List::set_past))]
fn put(numbers: &mut [u64], reader: u32, number: u64)
    ensures { numbers.new ≡ slice_set numbers.old reader number }
{
    let at = reader as usize;
    if at < numbers.len() {
        numbers[at] = number;
    }
}

impl Book for JournalBook {
    ghost use Rattle.std.specs.Prelude.{[], false, refl};
    ghost use Rattle.metric_journal.specs.JournalStands.{StandsForList};

    ghost stands = { StandsForList };

    // Each recording makes the list longer.
    ghost spares_memory = { λ _. ⊥ };

    ghost kept = { λ _. [] };

    ghost KEEPS_ENTRIES = { false };

    ghost keeps_all_or_nothing = { λ book facts journal marks stand. refl };

    const KEEPS_ENTRIES: bool = false;

    fn new(alloc: Global, facts: &Facts, _seed: u64) -> Result<JournalBook, AllocError> {
        let facts = facts.copy(alloc)?;
        JournalBook::without_recordings(alloc, facts)
    }

    fn push(&mut self, entry: Entry) -> Result<(), Refusal> {
        if !self.fits(&entry) {
            return Err(Refusal::SumRange);
        }
        match self.put_last(entry) {
            Ok(()) => Ok(()),
            Err(_) => Err(Refusal::Memory),
        }
    }

    fn report(&self, alloc: Global, reader: u32) -> Result<Window, AllocError> {
        self.window(alloc, reader)
    }

    fn advance(&mut self, reader: u32) {
        self.move_mark(reader);
    }

    // Its list is for its own answers alone.
    fn entries(&self) -> &[Entry] {
        &[]
    }
}
