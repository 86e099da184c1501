//! One instrument as a host holds it.
ghost use Rattle.std.specs.Prelude.{◌≡◌, ◌<◌, Some, IsTrue, [], true, length, slice_get, IfOk, Ok, OnOk, OnErr};
ghost use Rattle.metric_core.specs.CellAnswers.{AnswersClose, KeepsJournal, ReportsBatch};
ghost use Rattle.metric_core.specs.Cells.{CellStands, new_cell};
ghost use Rattle.metric_hosted.specs.Collections.{AnswersReading, allowance_of, with_collected};
ghost use Rattle.metric_hosted.specs.Grants.{AnswersGranting, with_granted};
ghost use Rattle.metric_hosted.specs.Hosts.{number_of};
ghost use Rattle.metric_hosted.specs.Recordings.{AnswersHosted, IsRecorded};
ghost use Rattle.metric_hosted.specs.Settlements.{Settles, seated};
ghost use Rattle.metric_marked.specs.Marks.{StandsMarked};
ghost use Rattle.metric_seat.specs.Collections.{with_seen};
ghost use Rattle.metric_seat.specs.Recordings.{KnowsRecording};
ghost use Rattle.metric_seat.specs.Seats.{run_of};

use crate::settling::{SeatTold, seated};
use metric_contents::{Refusal, SetKey};
use metric_core::Cell;
use metric_history::Batch;
use metric_marked::Marked;
use metric_plan::Plan;
use metric_seat::{FinishFault, ReaderSeat, RecorderSeat, RunId, Total, total_of_all};
use metric_slot::Slot;
use std::alloc::{AllocError, Global};
use std::marker::Model;

/// One instrument of a certified plan in one run, which a host keeps behind a lock of its own (Metrics SDK, meter
/// provider). Recordings and collections are made by the seats.
#[derive(Drop)]
pub struct Hosted {
    run: RunId,
    slot: Slot<Marked>,
}

impl Model for Hosted {
    ghost use Rattle.metric_hosted.specs.Hosts.{HostedValue};

    ghost Value = { HostedValue };

    ghost view = { λ h. record { run = h.run; cell = h.slot } };
}

impl Hosted {
    /// The instrument of this number of a certified plan without recordings, since a start in nanoseconds, in the run
    /// of this number. The start and the number of the run are the seed of its tables. Fails only when out of memory.
    pub fn new(
        alloc: Global,
        plan: &Plan,
        instrument: u32,
        start: u64,
        run: u64,
    ) -> Result<Hosted, AllocError>
        requires certified { IsTrue plan.now.is_certified }
        requires known { instrument < length plan.now.facts.instruments }
        ensures run { IfOk result (λ hosted. hosted.run ≡ run_of plan.now run start) }
        ensures facts { IfOk result (λ hosted.
            slice_get plan.now.facts.instruments instrument ≡ Some hosted.cell.facts) }
        ensures new { IfOk result (λ hosted.
            hosted.cell ≡ new_cell hosted.cell.facts start hosted.cell.book) }
        ensures stands { IfOk result (λ hosted. CellStands StandsMarked hosted.cell []) }
    {
        let slot = Slot::with_seed(alloc, plan, instrument, start, seed_of(start, run))?;
        let run = RunId::of(plan, run, start);
        Ok(Hosted { run, slot })
    }

    /// The run.
    pub fn run(&self) -> RunId
        ensures { result ≡ self.now.run }
    {
        self.run
    }

    /// The number of the instrument.
    pub fn number(&self) -> u32
        ensures { result ≡ number_of self.now }
    {
        self.slot.cell().instrument()
    }

    /// Ends the recordings. `Closed` comes exactly where the instrument is closed.
    pub fn close(&mut self) -> Result<(), Refusal>
        ensures answer { AnswersClose self.old.cell result }
        ensures new { OnOk result (
            self.new ≡ record self.old { cell = record self.old.cell { is_closed = true } }) }
        ensures stands { KeepsJournal StandsMarked self.old.cell self.new.cell }
        ensures err { OnErr result (self.new ≡ self.old) }
    {
        self.slot.close()
    }

    /// Grants a recorder so many recordings beside its budget, of what is left of the instrument's spare budget.
    /// Allocates no memory.
    ///
    /// # Errors
    ///
    /// The first of these: `UnknownRecorder` where the instrument has no such recorder; `Closed`; `NoSpare` where more
    /// is asked for than is left. A grant of 0 is made also where nothing is left.
    pub fn grant(&mut self, recorder: u32, amount: u64) -> Result<(), Refusal>
        ensures answer { AnswersGranting self.old recorder amount result }
        ensures new { OnOk result (self.new ≡ with_granted self.old recorder amount) }
        ensures stands { KeepsJournal StandsMarked self.old.cell self.new.cell }
        ensures err { OnErr result (self.new ≡ self.old) }
    {
        if recorder as usize >= self.slot.cell().facts().budgets.len() {
            return Err(Refusal::UnknownRecorder);
        }
        self.slot.grant_own(recorder, amount)
    }

    /// What the instrument comes to, by what the seats of all its recorders were told, in any order. It is exactly what
    /// they were told. Allocates no memory.
    ///
    /// # Errors
    ///
    /// - [`FinishFault::Stranger`] where the instrument has no recorder of a seat's number, or two seats are of one
    ///   recorder.
    /// - [`FinishFault::RecorderMissing`] where a recorder has no seat among them.
    /// - [`FinishFault::AuditMismatch`] where one of the instrument's spent budgets, its count or its sum is another.
    pub fn settle(&self, seats: &[SeatTold]) -> Result<Total, FinishFault>
        ensures { let first = seated (length self.now.cell.facts.budgets) seats.now in
            Settles self.now.cell seats.now first result }
    {
        let cell = self.slot.cell();
        match seated(seats, cell.facts().budgets.len()) {
            Ok(()) => match total_of_all(cell, seats, self.number()) {
                Some(total) => Ok(total),
                None => Err(FinishFault::AuditMismatch),
            },
            Err(fault) => Err(fault),
        }
    }

    // The instrument's state.
    pub(crate) fn cell(&self) -> &Cell<Marked>
        ensures { result.now ≡ self.now.cell }
    {
        self.slot.cell()
    }

    // Makes a recording that the seat may make, and tells it of that.
    pub(crate) fn record_known(
        &mut self,
        plan: &Plan,
        seat: &mut RecorderSeat,
        set: SetKey,
        value: &i64,
    ) -> Result<(), Refusal>
        requires known { let by = seat.old.number in
            KnowsRecording plan.now (number_of self.old) by set value.now }
        requires long { number_of self.old < length seat.old.told }
        ensures answer { AnswersHosted (Ok set) plan.now self.old seat.old value.now result }
        ensures new { OnOk result (
            IsRecorded plan.now self.old self.new seat.old seat.new set value.now) }
        ensures seat_err { OnErr result (seat.new ≡ seat.old) }
        ensures err { OnErr result (self.new ≡ self.old) }
    {
        let number = self.number();
        seat.record_on(&mut self.slot, plan, number, set, value)
    }

    /// What the reader of a seat is told of the instrument at a time in nanoseconds: its points since its last batch
    /// (delta) or since the start (cumulative) (Metrics SDK, collect). Where the reader's last batch has a later time,
    /// this one has that too. The plan is that of the seat.
    ///
    /// # Errors
    ///
    /// The first of these: `Stranger` where the instrument's run is of another number, the seat was made for another
    /// number of instruments, or the plan has no reader of its number; `UnknownInstrument`; `Stranger` where the
    /// instrument's facts, its start or the reader's last batch of it are not the seat's; `Memory`.
    pub fn collect(
        &mut self,
        alloc: Global,
        plan: &Plan,
        seat: &mut ReaderSeat,
        now: u64,
    ) -> Result<Batch, Refusal>
        ensures answer { let allowed = allowance_of plan.now self.old seat.old in
            AnswersReading allowed self.old seat.old now result }
        ensures batch { IfOk result (λ batch.
            ReportsBatch StandsMarked self.old.cell seat.old.number now batch) }
        ensures new { IfOk result (λ batch. let book = self.new.cell.book in
            self.new ≡ with_collected self.old seat.old.number batch.time book) }
        ensures stands { OnOk result (
            KeepsJournal StandsMarked self.old.cell self.new.cell) }
        ensures seen { IfOk result (λ batch.
            seat.new ≡ with_seen seat.old (number_of self.old) batch) }
        ensures seat_err { OnErr result (seat.new ≡ seat.old) }
        ensures err { OnErr result (self.new ≡ self.old) }
    {
        let number = self.number();
        let run = self.run;
        seat.collect(&mut self.slot, alloc, plan, run, number, now)
    }
}

// The seed of a run. Runs that start in one moment have different ones: the factor is odd, so it takes no two numbers
// to one, and has its bits spread, so it takes them far apart.
fn seed_of(start: u64, run: u64) -> u64 {
    start ^ run.wrapping_mul(0x9E37_79B9_7F4A_7C15)
}
