//! The state of one instrument.
ghost use Rattle.std.specs.Prelude.{◌≡◌, ◌≢◌, ◌≤◌, ◌<◌, ◌+◌, ◌-◌, ◌^◌, pos, neg_ℤ, ◌+ℤ◌, ◌≤ℤ◌, Some, [], true, length, slice_get, slice_index, slice_index_or, sum, IfOk, IfErr, OnOk, OnErr};
ghost use Rattle.metric_core.specs.Cells.{CellKept, CellStands, latest, new_cell};
ghost use Rattle.metric_core.specs.CellAnswers.{AnswersClose, AnswersGrant, AnswersRecording, GainsEntry, KeepsJournal, ReportsBatch, TellsEntries, budget_of, entry_of, with_batch, with_entry, with_grant};
ghost use Rattle.metric_facts.specs.Facts.{in_bounds, is_allowed_set};
ghost use Rattle.metric_safety.specs.SafeFacts.{total};

use crate::budgets::Budgets;
use crate::room::numbers_apart;
use metric_base::Copied;
use metric_contents::{Refusal, SetKey};
use metric_facts::Facts;
use metric_history::{Batch, Book, Entry};
use metric_plan::Plan;
use std::alloc::{AllocError, Global};
use std::marker::Model;

/// The state of one instrument: a book of its accepted recordings, and what is counted beside it.
///
/// A cell stands for a list of accepted recordings, oldest first, as its book does. Each call is one step on the
/// instrument; refused, it changes nothing.
pub struct Cell<B: Book> {
    facts: Facts,
    book: B,
    start: u64,
    marks: Vec<u64>,
    times: Vec<u64>,
    budgets: Budgets,
    count: u64,
    total: i128,
    is_closed: bool,
}

impl<B: Book> Drop for Cell<B> {
    // A call of its own, so that what owns a cell does not carry the steps of dropping each part.
    fn drop(self) {
        let Cell {
            facts: _facts,
            book: _book,
            start: _,
            marks: _marks,
            times: _times,
            budgets: _budgets,
            count: _,
            total: _,
            is_closed: _,
        } = self;
    }
}

impl<B: Book> Model for Cell<B> {
    ghost use Rattle.metric_core.specs.Cells.{CellValue, CellKept};

    ghost Value = { CellValue B };

    ghost view = { λ c. record {
      facts = c.facts;
      book = c.book;
      start = c.start;
      marks = c.marks.items;
      times = c.times.items;
      spent = c.budgets.spent.items;
      granted = c.budgets.granted.items;
      spare = c.budgets.spare;
      count = c.count;
      total = c.total;
      is_closed = c.is_closed;
    } };

    ghost invariant = { λ c. CellKept B.stands (record {
      facts = c.facts;
      book = c.book;
      start = c.start;
      marks = c.marks.items;
      times = c.times.items;
      spent = c.budgets.spent.items;
      granted = c.budgets.granted.items;
      spare = c.budgets.spare;
      count = c.count;
      total = c.total;
      is_closed = c.is_closed;
    }) };
}

impl<B: Book> Cell<B> {
    /// The instrument of this number without recordings, since a start in nanoseconds. The start is also the seed of a
    /// book that hashes. Fails only when out of memory.
    pub fn new(
        alloc: Global,
        plan: &Plan,
        instrument: u32,
        start: u64,
    ) -> Result<Cell<B>, AllocError>
        requires { instrument < length plan.now.facts.instruments }
        ensures facts { IfOk result (λ cell.
            slice_get plan.now.facts.instruments instrument ≡ Some cell.facts) }
        ensures new { IfOk result (λ cell. cell ≡ new_cell cell.facts start cell.book) }
        ensures stands { IfOk result (λ cell. CellStands B.stands cell []) }
    {
        Cell::with_seed(alloc, plan, instrument, start, start)
    }

    /// The same, where a book that hashes begins with this seed. With a seed that strangers do not know, set keys
    /// that they choose collide in no fixed way.
    pub fn with_seed(
        alloc: Global,
        plan: &Plan,
        instrument: u32,
        start: u64,
        seed: u64,
    ) -> Result<Cell<B>, AllocError>
        requires { instrument < length plan.now.facts.instruments }
        ensures facts { IfOk result (λ cell.
            slice_get plan.now.facts.instruments instrument ≡ Some cell.facts) }
        ensures new { IfOk result (λ cell. cell ≡ new_cell cell.facts start cell.book) }
        ensures stands { IfOk result (λ cell. CellStands B.stands cell []) }
    {
        // For the proof alone: the catalogue is sound.
        let _sound = plan.catalogue().instruments();
        let facts = plan.facts(instrument).copy(alloc)?;
        let book = B::new(alloc, &facts, seed)?;
        let marks = numbers_apart(alloc, 0, facts.delta.len())?;
        let times = numbers_apart(alloc, start, facts.delta.len())?;
        let budgets = Budgets::new(alloc, facts.budgets.len(), facts.spare)?;
        Ok(Cell {
            facts,
            book,
            start,
            marks,
            times,
            budgets,
            count: 0,
            total: 0,
            is_closed: false,
        })
    }

    /// Makes a recording (Metrics API, synchronous instruments). `Closed` comes exactly where the instrument is
    /// closed, else `Budget` exactly where the recorder has made as many recordings as its budget and what it was
    /// granted, else `SumRange` exactly where some series would leave its range; the only other refusal is `Memory`,
    /// which never comes where the book says that recordings take none.
    #[inline(always)]
    pub fn record(&mut self, recorder: u32, set: SetKey, value: i64) -> Result<(), Refusal>
        requires recorder { recorder < length self.old.facts.budgets }
        requires set { is_allowed_set self.old.facts set ≡ true }
        requires value { in_bounds self.old.facts value ≡ true }
        ensures answer { AnswersRecording B.stands self.old (entry_of recorder set value) result }
        ensures memory { B.spares_memory self.old.facts → result ≢ Err Refusal.Memory }
        ensures new { let entry = entry_of recorder set value in
            OnOk result (self.new ≡ with_entry self.old entry self.new.book) }
        ensures stands { let entry = entry_of recorder set value in
            OnOk result (GainsEntry B.stands self.old self.new entry) }
        ensures err { OnErr result (self.new ≡ self.old) }
    {
        if self.is_closed {
            return Err(Refusal::Closed);
        }
        let declared = self.facts.budgets.as_slice();
        if !self.budgets.has_left(declared, recorder) {
            return Err(Refusal::Budget);
        }
        self.book.push(Entry {
            recorder,
            set,
            value,
        })?;
        self.budgets.charge(recorder);
        self.count += 1;
        self.total = total_with(&self.total, &value);
        Ok(())
    }

    /// What the reader is told at a time in nanoseconds: its points since its last collection (delta) or since
    /// the start (cumulative) (Metrics SDK, collect). The only refusal is `Memory`.
    pub fn collect(&mut self, alloc: Global, reader: u32, now: u64) -> Result<Batch, Refusal>
        requires { reader < length self.old.facts.delta }
        ensures batch { IfOk result (λ batch. ReportsBatch B.stands self.old reader now batch) }
        ensures new { IfOk result (λ batch.
            self.new ≡ with_batch self.old reader batch.time self.new.book) }
        ensures stands { OnOk result (KeepsJournal B.stands self.old self.new) }
        ensures refused { IfErr result (λ refusal. refusal ≡ Refusal.Memory) }
        ensures err { OnErr result (self.new ≡ self.old) }
    {
        let batch = self.report(alloc, reader, now)?;
        self.advance(reader, batch.time);
        Ok(batch)
    }

    /// What the reader is told at a time in nanoseconds, as [`Cell::collect`] tells it. Nothing changes: until the cell
    /// is advanced, the reader's next batch reports the same recordings again. The only refusal is `Memory`.
    pub fn report(&self, alloc: Global, reader: u32, now: u64) -> Result<Batch, Refusal>
        requires { reader < length self.now.facts.delta }
        ensures batch { IfOk result (λ batch. ReportsBatch B.stands self.now reader now batch) }
        ensures refused { IfErr result (λ refusal. refusal ≡ Refusal.Memory) }
    {
        let Ok(window) = self.book.report(alloc, reader) else {
            return Err(Refusal::Memory);
        };
        let previous = self.times[reader as usize];
        Ok(Batch {
            plan: self.facts.plan,
            reader,
            instrument: self.facts.instrument,
            from: window.from,
            mark: window.mark,
            start: if self.facts.is_delta(reader) {
                previous
            } else {
                self.start
            },
            time: now.max(previous),
            streams: window.streams,
        })
    }

    /// Ends the reader's window with a batch of this time in nanoseconds: all recordings so far were reported to it.
    /// Allocates no memory.
    pub fn advance(&mut self, reader: u32, time: u64)
        requires { reader < length self.old.facts.delta }
        ensures new { self.new ≡ with_batch self.old reader time self.new.book }
        ensures stands { KeepsJournal B.stands self.old self.new }
    {
        self.book.advance(reader);
        self.marks[reader as usize] = self.count;
        self.times[reader as usize] = time;
    }

    /// Ends the recordings. `Closed` comes exactly where the instrument is closed.
    pub fn close(&mut self) -> Result<(), Refusal>
        ensures answer { AnswersClose self.old result }
        ensures new { OnOk result (self.new ≡ record self.old { is_closed = true }) }
        ensures stands { KeepsJournal B.stands self.old self.new }
        ensures err { OnErr result (self.new ≡ self.old) }
    {
        if self.is_closed {
            return Err(Refusal::Closed);
        }
        self.is_closed = true;
        Ok(())
    }

    /// Grants a recorder so many recordings beside its budget, of what is left of the instrument's spare budget.
    /// `Closed` comes exactly where the instrument is closed, else `NoSpare` exactly where more is asked for than is
    /// left. Allocates no memory.
    pub fn grant(&mut self, recorder: u32, amount: u64) -> Result<(), Refusal>
        requires { recorder < length self.old.facts.budgets }
        ensures answer { AnswersGrant self.old amount result }
        ensures new { OnOk result (self.new ≡ with_grant self.old recorder amount) }
        ensures stands { KeepsJournal B.stands self.old self.new }
        ensures shared { sum self.old.granted + self.old.spare ≡ self.old.facts.spare }
        ensures err { OnErr result (self.new ≡ self.old) }
    {
        if self.is_closed {
            return Err(Refusal::Closed);
        }
        if self.budgets.spare() < amount {
            return Err(Refusal::NoSpare);
        }
        self.budgets.grant(recorder, amount);
        Ok(())
    }

    /// What its run depends on.
    pub fn facts(&self) -> &Facts
        ensures facts { result.now ≡ self.now.facts }
        ensures kept { CellKept B.stands self.now }
    {
        &self.facts
    }

    /// The accepted recordings, oldest first, where the book keeps them (`B::KEEPS_ENTRIES`); else none.
    pub fn entries(&self) -> &[Entry]
        ensures entries { result.now ≡ B.kept self.now.book }
        ensures journal { TellsEntries B.stands B.KEEPS_ENTRIES self.now result.now }
    {
        self.book.entries()
    }

    /// The number of the instrument.
    pub fn instrument(&self) -> u32
        ensures { result ≡ self.now.facts.instrument }
    {
        self.facts.instrument
    }

    /// The least value that may be recorded.
    pub fn lo(&self) -> i64
        ensures { result ≡ self.now.facts.lo }
    {
        self.facts.lo
    }

    /// How many recordings the recorder has made; none for one of another number.
    #[inline(always)]
    pub fn spent(&self, recorder: u32) -> u64
        ensures spent { result ≡ slice_index self.now.spent recorder }
        ensures within { result ≤ budget_of self.now recorder }
    {
        self.budgets.spent(recorder)
    }

    /// How many recordings the recorder was granted beside its budget; none for one of another number.
    pub fn granted(&self, recorder: u32) -> u64
        ensures { result ≡ slice_index self.now.granted recorder }
    {
        self.budgets.granted(recorder)
    }

    /// How many recordings may still be granted: the instrument's spare budget, less what was granted of it.
    pub fn spare(&self) -> u64
        ensures spare { result ≡ self.now.spare }
        ensures shared { sum self.now.granted + result ≡ self.now.facts.spare }
    {
        self.budgets.spare()
    }

    /// How many recordings the reader's last batch counted, 0 before one.
    pub fn mark_of(&self, reader: u32) -> u64
        ensures mark { result ≡ slice_index self.now.marks reader }
        ensures past { result ≤ self.now.count }
    {
        self.marks.get(reader as usize).copied().unwrap_or(0)
    }

    /// When its run started, in nanoseconds.
    pub fn start(&self) -> u64
        ensures { result ≡ self.now.start }
    {
        self.start
    }

    /// The time in nanoseconds of the reader's last batch; the start before one.
    pub fn time_of(&self, reader: u32) -> u64
        ensures { result ≡ slice_index_or self.now.times reader self.now.start }
    {
        let time = self.times.get(reader as usize).copied();
        time.unwrap_or(self.start)
    }

    /// The greatest time in nanoseconds of a last batch of its readers; its start before one.
    pub fn latest(&self) -> u64
        ensures { result ≡ latest self.now }
    {
        let later = |latest: u64, time: u64| latest.max(time);
        self.times.iter().copied().fold(self.start, later)
    }

    /// How many recordings were accepted.
    pub fn count(&self) -> u64
        ensures count { result ≡ self.now.count }
        ensures counted { result ≡ sum self.now.spent }
        ensures within { result ≤ total self.now.facts }
    {
        self.count
    }

    /// The sum of all accepted values.
    pub fn sum(&self) -> i128
        ensures { result ≡ self.now.total }
    {
        self.total
    }
}

// The sum with one value more.
#[inline(always)]
fn total_with(total: &i128, value: &i64) -> i128
    requires low { neg_ℤ (pos (2 ^ 127 - 2 ^ 63)) ≤ℤ total.now }
    requires high { total.now ≤ℤ pos (2 ^ 127 - 2 ^ 63) }
    ensures { result ≡ total.now +ℤ value.now }
{
    *total + i128::from(*value)
}
