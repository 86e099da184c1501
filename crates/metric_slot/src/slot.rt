//! The cell of one instrument as it stands behind a lock.
ghost use Rattle.std.specs.Prelude.{◌≡◌, ◌≢◌, ◌↔◌, ◌<◌, ◌≤◌, ◌≤ℤ◌, Some, IsTrue, [], true, length, max, slice_get, slice_index, IfOk, IfErr, OnOk, OnErr};
ghost use Rattle.metric_core.specs.Cells.{CellKept, CellStands, new_cell};
ghost use Rattle.metric_core.specs.CellAnswers.{AnswersClose, AnswersGrant, GainsEntry, KeepsJournal, ReportsBatch, entry_of, with_batch, with_entry, with_grant};
ghost use Rattle.metric_facts.specs.Facts.{in_bounds, is_allowed_set};
ghost use Rattle.metric_safety.specs.SafeFacts.{IsSafeFacts};
ghost use Rattle.metric_safety.specs.WindowBounds.{IsReportWithin};
ghost use Rattle.metric_slot.specs.Slots.{IsCertified, IsOfRun, IsOwnReader, IsOwnRecorder};
ghost use Rattle.metric_slot.specs.Sightings.{seen_of};
ghost use Rattle.metric_slot.specs.SlotAnswers.{AnswersGranter, AnswersRecorder, Continues, RefusesReader, RefusesReport, ReportsJournal};
ghost use Rattle.metric_slot.specs.Tellings.{HasRoom, told_more};

use crate::safety::certified_facts_are_safe;
use crate::seen::Seen;
use crate::told::Told;
use metric_contents::{Refusal, SetKey};
use metric_core::Cell;
use metric_facts::{Facts, same_facts};
use metric_history::{Batch, Book};
use metric_plan::Plan;
use metric_safety::laws::journals_are_bounded;
use std::alloc::{AllocError, Global};
use std::marker::Model;

/// The cell of an instrument of a certified plan, as it stands behind a lock.
///
/// Its type keeps that the facts are those of a certified plan for the instrument, so that no limit and no number
/// overflows; no call changes them. A seat's call brings the facts of the
/// seat's plan and the number that the seat was told last; where the cell's are others, the seat is a `Stranger` and
/// nothing changes.
#[derive(Drop)]
pub struct Slot<B: Book> {
    cell: Cell<B>,
}

impl<B: Book> Model for Slot<B> {
    ghost use Rattle.metric_core.specs.Cells.{CellValue};
    ghost use Rattle.metric_slot.specs.Slots.{IsCertified};

    ghost Value = { CellValue B };

    ghost view = { λ s. s.cell };

    ghost invariant = { λ s. IsCertified s.cell.facts };
}

impl<B: Book> Slot<B> {
    /// The instrument of this number without recordings, since a start in nanoseconds. The start is also the seed of a
    /// book that hashes. Fails only when out of memory.
    pub fn new(
        alloc: Global,
        plan: &Plan,
        instrument: u32,
        start: u64,
    ) -> Result<Slot<B>, AllocError>
        requires certified { IsTrue plan.now.is_certified }
        requires known { instrument < length plan.now.facts.instruments }
        ensures facts { IfOk result (λ slot.
            slice_get plan.now.facts.instruments instrument ≡ Some slot.facts) }
        ensures new { IfOk result (λ slot. slot ≡ new_cell slot.facts start slot.book) }
        ensures stands { IfOk result (λ slot. CellStands B.stands slot []) }
    {
        Slot::with_seed(alloc, plan, instrument, start, start)
    }

    /// The same, where a book that hashes begins with this seed. With a seed that strangers do not know, set keys
    /// that they choose collide in no fixed way.
    pub fn with_seed(
        alloc: Global,
        plan: &Plan,
        instrument: u32,
        start: u64,
        seed: u64,
    ) -> Result<Slot<B>, AllocError>
        requires certified { IsTrue plan.now.is_certified }
        requires known { instrument < length plan.now.facts.instruments }
        ensures facts { IfOk result (λ slot.
            slice_get plan.now.facts.instruments instrument ≡ Some slot.facts) }
        ensures new { IfOk result (λ slot. slot ≡ new_cell slot.facts start slot.book) }
        ensures stands { IfOk result (λ slot. CellStands B.stands slot []) }
    {
        certified_facts_are_safe(plan);
        let cell = Cell::with_seed(alloc, plan, instrument, start, seed)?;
        Ok(Slot { cell })
    }

    /// Makes a recording for a recorder that was told of its earlier ones (Metrics API, synchronous instruments), and
    /// tells it of this one too. `Stranger` comes exactly where the cell's facts are not these, or its number of the
    /// recorder's recordings is not the one told, or so many values can not be as far above the least as was told. Else
    /// `Closed` comes exactly where the instrument is closed, else `Budget` exactly where the recorder has made as many
    /// recordings as its budget and what it was granted; the only other refusal is `Memory`, which never comes where
    /// the book says that recordings take none.
    ///
    /// `is_own` is what [`Slot::is_of`] answers: facts are compared once for all recordings that are made under one
    /// lock.
    #[inline(always)]
    pub fn record(
        &mut self,
        is_own: bool,
        facts: &Facts,
        told: &mut Told,
        recorder: u32,
        set: SetKey,
        value: i64,
    ) -> Result<(), Refusal>
        requires own { IsTrue is_own ↔ (self.old.facts ≡ facts.now) }
        requires recorder { recorder < length facts.now.budgets }
        requires set { is_allowed_set facts.now set ≡ true }
        requires value { in_bounds facts.now value ≡ true }
        ensures answer { let entry = entry_of recorder set value in
            AnswersRecorder B.stands self.old facts.now told.old entry result }
        ensures memory { B.spares_memory facts.now → result ≢ Err Refusal.Memory }
        ensures budget { IfErr result (λ refusal. refusal ≡ Refusal.Budget
            → slice_index facts.now.budgets recorder ≤ told.old.count) }
        ensures new { let entry = entry_of recorder set value in
            OnOk result (self.new ≡ with_entry self.old entry self.new.book) }
        ensures stands { let entry = entry_of recorder set value in
            OnOk result (GainsEntry B.stands self.old self.new entry) }
        ensures told { OnOk result (told.new ≡ told_more told.old facts.now.lo value) }
        ensures err { OnErr result (self.new ≡ self.old) }
        ensures told_err { OnErr result (told.new ≡ told.old) }
    {
        if !is_own {
            return Err(Refusal::Stranger);
        }
        let answer = record_own(&mut self.cell, facts, told, recorder, set, value);
        tell(told, facts, &value, &answer);
        answer
    }

    /// Whether the cell has these facts. No call changes them.
    #[inline(always)]
    pub fn is_of(&self, facts: &Facts) -> bool
        ensures { IsTrue result ↔ (self.now.facts ≡ facts.now) }
    {
        same_facts(self.cell.facts(), facts)
    }

    /// What a reader that has seen so much is told at a time in nanoseconds, in a run that started at another: its
    /// points since its last collection (delta) or since the start (cumulative) (Metrics SDK, collect). The batch has
    /// that time, or the time of the last one where that is later, and has then been seen. `Stranger` comes exactly
    /// where the cell's facts or its start are not these, or the reader's last batch is not the one that was seen; the
    /// only other refusal is `Memory`.
    pub fn collect(
        &mut self,
        alloc: Global,
        facts: &Facts,
        start: u64,
        seen: &mut Seen,
        reader: u32,
        now: u64,
    ) -> Result<Batch, Refusal>
        requires { reader < length facts.now.delta }
        ensures batch { IfOk result (λ batch. ReportsBatch B.stands self.old reader now batch) }
        ensures new { IfOk result (λ batch.
            self.new ≡ with_batch self.old reader batch.time self.new.book) }
        ensures stands { OnOk result (KeepsJournal B.stands self.old self.new) }
        ensures time { IfOk result (λ batch. batch.time ≡ max now seen.old.time) }
        ensures continues { IfOk result (λ batch.
            Continues facts.now start reader seen.old batch) }
        ensures journal { IfOk result (λ batch.
            ReportsJournal facts.now reader seen.old.mark batch) }
        ensures within { IfOk result (λ batch.
            IsReportWithin facts.now batch.from batch.mark batch.streams) }
        ensures seen { IfOk result (λ batch. seen.new ≡ seen_of batch) }
        ensures refused { IfErr result (
            RefusesReader self.old facts.now start seen.old reader) }
        ensures err { OnErr result (self.new ≡ self.old) }
        ensures seen_err { OnErr result (seen.new ≡ seen.old) }
    {
        if !is_own_reader(&self.cell, facts, start, seen, reader) {
            return Err(Refusal::Stranger);
        }
        journals_are_bounded();
        // For the proof alone: what a cell keeps.
        let _ = self.cell.facts();
        let batch = self.cell.collect(alloc, reader, now)?;
        *seen = Seen::of(&batch);
        Ok(batch)
    }

    /// What a reader is told at a time in nanoseconds, in a run that started at another, as [`Slot::collect`] tells it.
    /// Nothing changes: until the slot is advanced, the reader's next batch reports the same recordings again.
    /// `Stranger` comes exactly where the cell's facts or its start are not these; the only other refusal is `Memory`.
    pub fn report(
        &self,
        alloc: Global,
        facts: &Facts,
        start: u64,
        reader: u32,
        now: u64,
    ) -> Result<Batch, Refusal>
        requires { reader < length facts.now.delta }
        ensures batch { IfOk result (λ batch. ReportsBatch B.stands self.now reader now batch) }
        ensures own { OnOk result (IsOfRun self.now facts.now start) }
        ensures refused { IfErr result (RefusesReport self.now facts.now start) }
        ensures kept { CellKept B.stands self.now }
    {
        // For the proof alone: what a cell keeps.
        let _ = self.cell.facts();
        if !self.is_of(facts) || self.cell.start() != start {
            return Err(Refusal::Stranger);
        }
        self.cell.report(alloc, reader, now)
    }

    /// Ends the reader's window with a batch of this time in nanoseconds: all recordings so far were reported to it.
    /// Allocates no memory.
    pub fn advance(&mut self, reader: u32, time: u64)
        requires { reader < length self.old.facts.delta }
        ensures new { self.new ≡ with_batch self.old reader time self.new.book }
        ensures stands { KeepsJournal B.stands self.old self.new }
    {
        self.cell.advance(reader, time);
    }

    /// Ends the recordings. `Closed` comes exactly where the instrument is closed.
    pub fn close(&mut self) -> Result<(), Refusal>
        ensures answer { AnswersClose self.old result }
        ensures new { OnOk result (self.new ≡ record self.old { is_closed = true }) }
        ensures stands { KeepsJournal B.stands self.old self.new }
        ensures err { OnErr result (self.new ≡ self.old) }
    {
        self.cell.close()
    }

    /// Grants a recorder so many recordings beside its budget, of what is left of the instrument's spare budget.
    /// `Stranger` comes exactly where the cell's facts are not these. Else `Closed` comes exactly where the instrument
    /// is closed, else `NoSpare` exactly where more is asked for than is left. Allocates no memory.
    pub fn grant(&mut self, facts: &Facts, recorder: u32, amount: u64) -> Result<(), Refusal>
        requires { recorder < length facts.now.budgets }
        ensures answer { AnswersGranter self.old facts.now amount result }
        ensures new { OnOk result (self.new ≡ with_grant self.old recorder amount) }
        ensures stands { KeepsJournal B.stands self.old self.new }
        ensures err { OnErr result (self.new ≡ self.old) }
    {
        if !self.is_of(facts) {
            return Err(Refusal::Stranger);
        }
        self.grant_own(recorder, amount)
    }

    /// The same for who holds the slot and brings no facts: a recorder is one of the slot's own.
    pub fn grant_own(&mut self, recorder: u32, amount: u64) -> Result<(), Refusal>
        requires { recorder < length self.old.facts.budgets }
        ensures answer { AnswersGrant self.old amount result }
        ensures new { OnOk result (self.new ≡ with_grant self.old recorder amount) }
        ensures stands { KeepsJournal B.stands self.old self.new }
        ensures err { OnErr result (self.new ≡ self.old) }
    {
        self.cell.grant(recorder, amount)
    }

    /// The instrument's state: its facts, its recorders' numbers, how many recordings there are and their sum.
    pub fn cell(&self) -> &Cell<B>
        ensures cell { result.now ≡ self.now }
        ensures certified { IsCertified self.now.facts }
        ensures kept { CellKept B.stands self.now }
    {
        // For the proof alone: what a cell keeps.
        let _ = self.cell.facts();
        &self.cell
    }
}

// Makes a recording for a recorder, where the numbers are its own. There is then room for telling of it.
#[inline(always)]
fn record_own<B: Book>(
    cell: &mut Cell<B>,
    facts: &Facts,
    told: &Told,
    recorder: u32,
    set: SetKey,
    value: i64,
) -> Result<(), Refusal>
    requires safe { IsSafeFacts cell.old.facts }
    requires facts { cell.old.facts ≡ facts.now }
    requires recorder { recorder < length facts.now.budgets }
    requires set { is_allowed_set facts.now set ≡ true }
    requires value { in_bounds facts.now value ≡ true }
    ensures answer { let entry = entry_of recorder set value in
        AnswersRecorder B.stands cell.old facts.now told.now entry result }
    ensures memory { B.spares_memory facts.now → result ≢ Err Refusal.Memory }
    ensures room { OnOk result (HasRoom told.now facts.now.lo value) }
    ensures new { let entry = entry_of recorder set value in
        OnOk result (cell.new ≡ with_entry cell.old entry cell.new.book) }
    ensures stands { let entry = entry_of recorder set value in
        OnOk result (GainsEntry B.stands cell.old cell.new entry) }
    ensures err { OnErr result (cell.new ≡ cell.old) }
{
    if !is_own_recorder(cell, facts, told, recorder) {
        return Err(Refusal::Stranger);
    }
    journals_are_bounded();
    // For the proof alone: what a cell keeps.
    let _ = cell.facts();
    cell.record(recorder, set, value)
}

// Tells a recorder of its recording, where it was accepted.
#[inline(always)]
fn tell(told: &mut Told, facts: &Facts, value: &i64, answer: &Result<(), Refusal>)
    requires { OnOk answer.now (HasRoom told.old facts.now.lo value.now) }
    ensures ok { OnOk answer.now (told.new ≡ told_more told.old facts.now.lo value.now) }
    ensures err { OnErr answer.now (told.new ≡ told.old) }
{
    if answer.is_ok() {
        told.add(facts, value);
    }
}

// Whether the cell, which has these facts, has as many of the recorder's recordings as it was told of.
#[inline(always)]
fn is_own_recorder<B: Book>(cell: &Cell<B>, facts: &Facts, told: &Told, recorder: u32) -> bool
    requires facts { cell.now.facts ≡ facts.now }
    requires range { facts.now.lo ≤ℤ facts.now.hi }
    ensures { IsTrue result ↔ IsOwnRecorder cell.now facts.now told.now recorder }
{
    cell.spent(recorder) == told.count && told.is_within(facts)
}

// Whether the cell has these facts and this start, and the reader's last batch is the one that was seen.
fn is_own_reader<B: Book>(
    cell: &Cell<B>,
    facts: &Facts,
    start: u64,
    seen: &Seen,
    reader: u32,
) -> bool
    ensures { IsTrue result ↔ IsOwnReader cell.now facts.now start seen.now reader }
{
    let last = Seen {
        mark: cell.mark_of(reader),
        time: cell.time_of(reader),
    };
    same_facts(cell.facts(), facts) && cell.start() == start && last == *seen
}
