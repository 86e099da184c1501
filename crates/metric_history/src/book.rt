//! What each book does.
ghost use Rattle.std.specs.Prelude.{◌≡◌, ℕ, Bool, List, IfOk, OnOk, OnErr};
ghost use Rattle.metric_history.specs.Journals.{AsksForMemory, BeginsJournal, HasReader, JudgesRecording, KeepsAllOrNothing, MayTake, MovesMark, ReportsWindow, TakesRecording};
ghost use Rattle.metric_history.specs.declared.entry.Entry.{Entry as entries};
ghost use Rattle.metric_facts.specs.declared.facts.Facts.{Facts as facts};
ghost use Rattle.metric_facts.specs.Products.{AreDense};

use crate::batch::StreamPoints;
use crate::entry::Entry;
use metric_base::Items;
use metric_contents::Refusal;
use metric_facts::Facts;
use std::alloc::{AllocError, Global};

/// What a collection covers and reports, without its times.
#[derive(Drop)]
pub struct Window {
    /// The first recording that is covered: the reader's previous mark (delta), or 0 (cumulative).
    pub from: u64,
    /// The number of accepted recordings so far.
    pub mark: u64,
    /// The points of each stream that the reader has of the instrument, in stream order.
    pub streams: Items<StreamPoints>,
}

/// What the accepted recordings of one instrument are kept in, and what each reader is told of them.
///
/// A book stands for a journal: the accepted recordings, oldest first, with a mark for each reader, the number
/// of recordings that its last batch counted. A book may stand for several journals, where it keeps less than
/// a list; each of its calls does what it says for all of them.
pub trait Book: Drop {
    // The book stands for this journal with these marks, of an instrument with these facts.
    ghost stands: { Self → facts → List entries → List ℕ → Type 0 };

    // Recordings on an instrument with these facts allocate no memory.
    ghost spares_memory: { facts → Type 0 };

    // The recordings that the book keeps, oldest first.
    ghost kept: { Self → List entries };

    ghost KEEPS_ENTRIES: { Bool };

    /// Whether the book keeps its recordings, so that they can be told one by one.
    const KEEPS_ENTRIES: bool;

    /// The book of an instrument with these facts, without recordings. Its streams by product have room for each series
    /// that they can have, as those of each plan do. Where set keys are hashed, the seed keeps strangers from choosing
    /// sets that collide. Fails only when out of memory.
    fn new(alloc: Global, facts: &Facts, seed: u64) -> Result<Self, AllocError>
    where
        Self: Sized,
        requires { AreDense facts.now }
        ensures { IfOk result (λ book. BeginsJournal (stands book) facts.now) };

    /// Puts a recording last. `SumRange` comes exactly where it would take a series of some stream out of range;
    /// the only other refusal is `Memory`, which never comes where recordings take none. Refused, the book is as it
    /// was.
    fn push(&mut self, entry: Entry) -> Result<(), Refusal>
        requires { MayTake (stands self.old) entry }
        ensures answer { JudgesRecording (stands self.old) entry result }
        ensures memory { AsksForMemory (stands self.old) spares_memory result }
        ensures stands { OnOk result (TakesRecording (stands self.old) (stands self.new) entry) }
        ensures err { OnErr result (self.new ≡ self.old) };

    /// What a collection by the reader covers and reports. Nothing changes: until the mark is advanced, the next report
    /// covers the same recordings again. Fails only when out of memory.
    fn report(&self, alloc: Global, reader: u32) -> Result<Window, AllocError>
        requires { HasReader (stands self.now) reader }
        ensures { IfOk result (λ window. ReportsWindow (stands self.now) reader window) };

    /// Ends the reader's window: its mark moves to the number of recordings so far, and no other mark moves. Allocates
    /// no memory.
    fn advance(&mut self, reader: u32)
        requires { HasReader (stands self.old) reader }
        ensures { MovesMark (stands self.old) (stands self.new) reader };

    /// The accepted recordings, oldest first, where the book keeps them; else none.
    fn entries(&self) -> &[Entry]
        ensures { result.now ≡ kept self.now };

    // A book keeps each journal for which it stands, or nothing.
    ghost keeps_all_or_nothing: { (book : Self)
        → KeepsAllOrNothing (stands book) KEEPS_ENTRIES (kept book) };
}
