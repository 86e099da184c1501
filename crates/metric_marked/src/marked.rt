//! A book of running tables with a mark for each reader.
ghost use Rattle.std.specs.Prelude.{◌≡◌, length, replicate, slice_index_or, false, IfOk, if◌then◌else◌};
ghost use Rattle.metric_history.specs.Journals.{JudgesEntry, MayTake};
ghost use Rattle.metric_marked.specs.Marks.{ClosesWindow, StandsMarked};

use crate::stream_table::StreamTable;
use crate::tables::{all_fit, empty, empty_tables, points_of, push_all};
use metric_base::Items;
use metric_contents::Refusal;
use metric_facts::Facts;
use metric_history::{Book, Entry, Window};
use metric_series::Place;
use std::alloc::{AllocError, Global};
use std::marker::Model;

// 128 bytes of marks, and more of places. Behind what a recording or a collection writes is room that nobody writes,
// so that what the allocator hands out next lies on other lines of cache.
const SPARE: usize = 16;

/// The accepted recordings of one instrument as the running values of their series (Metrics SDK, aggregation
/// temporality). A cumulative reader's tables are never emptied; a delta reader's are emptied by each of its
/// collections that is answered.
pub struct Marked {
    tables: Vec<StreamTable>,
    // Where a recording falls in each table. Room for one place each is made before any recording.
    places: Vec<Place>,
    delta: Items<bool>,
    marks: Vec<u64>,
    count: u64,
}

impl Drop for Marked {
    // A call of its own, so that what owns a book does not carry the steps of dropping each part.
    fn drop(self) {
        let Marked {
            tables: _tables,
            places: _places,
            delta: _delta,
            marks: _marks,
            count: _,
        } = self;
    }
}

impl Model for Marked {
    ghost use Rattle.std.specs.Prelude.{◌≤◌, length, vec_capacity};
    ghost use Rattle.metric_marked.specs.Marks.{MarkedValue};

    ghost Value = { MarkedValue };

    ghost view = { λ b. record {
      tables = b.tables.items;
      delta = b.delta;
      marks = b.marks.items;
      count = b.count;
    } };

    ghost invariant = { λ b. length b.tables.items ≤ vec_capacity b.places };
}

impl Marked {
    /// Whether each series into which a recording falls stays in range with it. Allocates no memory.
    pub fn fits(&self, entry: &Entry) -> bool
        requires { MayTake (StandsMarked self.now) entry.now }
        ensures { JudgesEntry (StandsMarked self.now) entry.now result }
    {
        all_fit(&self.tables, entry)
    }
}

impl Book for Marked {
    ghost use Rattle.std.specs.Prelude.{[], false, refl};
    ghost use Rattle.metric_facts.specs.Products.{AreAllByProduct};
    ghost use Rattle.metric_marked.specs.Marks.{StandsMarked};

    ghost stands = { StandsMarked };

    ghost spares_memory = { AreAllByProduct };

    ghost kept = { λ _. [] };

    ghost KEEPS_ENTRIES = { false };

    ghost keeps_all_or_nothing = { λ book facts journal marks stand. refl };

    const KEEPS_ENTRIES: bool = false;

    fn new(alloc: Global, facts: &Facts, seed: u64) -> Result<Marked, AllocError> {
        Ok(Marked {
            tables: empty_tables(alloc, facts, seed)?,
            places: Vec::with_capacity(alloc, facts.streams.len().saturating_add(SPARE))?,
            delta: Items::from_vec(facts.delta.as_slice().to_vec(alloc)?),
            marks: zeros(alloc, facts.delta.len())?,
            count: 0,
        })
    }

    #[inline(always)]
    fn push(&mut self, entry: Entry) -> Result<(), Refusal> {
        push_all(&mut self.tables, &mut self.places, &entry)?;
        self.count += 1;
        Ok(())
    }

    fn report(&self, alloc: Global, reader: u32) -> Result<Window, AllocError> {
        let streams = points_of(alloc, &self.tables, reader)?;
        let is_delta = is_delta(self.delta.as_slice(), reader);
        Ok(Window {
            from: window_start(is_delta, self.marks[reader as usize]),
            mark: self.count,
            streams: Items::from_vec(streams),
        })
    }

    fn advance(&mut self, reader: u32) {
        let is_delta = is_delta(self.delta.as_slice(), reader);
        close_window(&mut self.tables, is_delta, reader);
        self.marks[reader as usize] = self.count;
    }

    fn entries(&self) -> &[Entry] {
        &[]
    }
}

// So many zeros, with spare room behind them.
fn zeros(alloc: Global, count: usize) -> Result<Vec<u64>, AllocError>
    ensures { IfOk result (λ list. list.items ≡ replicate count 0) }
{
    let mut list = Vec::with_capacity(alloc, count.saturating_add(SPARE))?;
    list.resize(count, 0)?;
    Ok(list)
}

// Whether a reader is delta; a reader of another number is not.
fn is_delta(delta: &[bool], reader: u32) -> bool
    ensures { result ≡ slice_index_or delta.now reader false }
{
    delta.get(reader as usize).copied().unwrap_or(false)
}

// The first recording that a collection covers.
fn window_start(is_delta: bool, mark: u64) -> u64
    ensures { result ≡ (if is_delta then mark else 0) }
{
    if is_delta { mark } else { 0 }
}

// Empties the tables of a reader whose next window begins after its collection.
fn close_window(tables: &mut Vec<StreamTable>, is_delta: bool, reader: u32)
    ensures closes { ClosesWindow tables.old.items tables.new.items is_delta reader }
    ensures count { length tables.new.items ≡ length tables.old.items }
{
    if is_delta {
        empty(tables, reader);
    }
}
