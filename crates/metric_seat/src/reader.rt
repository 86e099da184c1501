//! The seat of a reader.
ghost use Rattle.std.specs.Prelude.{◌≡◌, slice_get, IfOk, OnErr};
ghost use Rattle.std.specs.Option.{option_map};
ghost use Rattle.metric_seat.specs.Collections.{AnswersCollector, collectable, with_seen};
ghost use Rattle.metric_seat.specs.Handing.{HandsReading};
ghost use Rattle.metric_seat.specs.Seats.{is_collector_of, new_collector, provider_of};
ghost use Rattle.metric_slot.specs.declared.seen.Seen.{Seen as sightings};

use crate::held::Collected;
use crate::run_id::RunId;
use metric_contents::Refusal;
use metric_history::Batch;
use metric_plan::Plan;
use metric_slot::Seen;
use std::alloc::{AllocError, Global};
use std::marker::Model;

/// The seat of one reader in one run of a plan: with it a thread collects (Metrics SDK, collect). It keeps when the run
/// started, and for each instrument how many recordings the reader's last batch counted, and its time: so the windows
/// of a delta reader leave no gap and no overlap, and those of a cumulative one begin with the run.
///
/// A call that takes a plan and a run takes those of the instrument that is collected.
#[derive(Drop)]
pub struct ReaderSeat {
    run: RunId,
    number: u32,
    seen: Vec<Seen>,
}

impl Model for ReaderSeat {
    ghost use Rattle.metric_seat.specs.Seats.{CollectorValue};

    ghost Value = { CollectorValue };

    ghost view = { λ c. record {
      run = c.run;
      number = c.number;
      seen = c.seen.items;
    } };
}

impl ReaderSeat {
    /// The seat of the reader of this number in a run, for so many instruments; it has seen nothing. Fails only when out
    /// of memory.
    pub fn new(
        alloc: Global,
        run: RunId,
        number: u32,
        instruments: usize,
    ) -> Result<ReaderSeat, AllocError>
        ensures { IfOk result (λ seat. seat ≡ new_collector run instruments number) }
    {
        let seen = vec![in alloc; Seen::nothing(run.start); instruments]?;
        Ok(ReaderSeat { run, number, seen })
    }

    /// The number of the reader.
    pub fn number(&self) -> u32
        ensures { result ≡ self.now.number }
    {
        self.number
    }

    /// How many recordings of an instrument the reader's last batch counted, 0 before one; nothing for an unknown
    /// instrument.
    pub fn seen(&self, instrument: u32) -> Option<u64>
        ensures { let mark = λ (seen : sightings). seen.mark in
            result ≡ option_map mark (slice_get self.now.seen instrument) }
    {
        self.seen.get(instrument as usize).map(|seen| seen.mark)
    }

    /// What the reader is told of an instrument at a time in nanoseconds, in one call of what holds it: its points
    /// since its last batch (delta) or since the start of the run (cumulative) (Metrics SDK, collect). Where the
    /// reader's last batch has a later time, this one has that too.
    ///
    /// # Errors
    ///
    /// `Stranger` where the run is another, the seat was made for another number of instruments, or the plan
    /// has no reader of its number; `UnknownInstrument`. Then `Stranger` where what is found is not what the seat has
    /// seen, and `Memory`.
    pub fn collect<H: Collected>(
        &mut self,
        held: &mut H,
        alloc: Global,
        plan: &Plan,
        run: RunId,
        instrument: u32,
        now: u64,
    ) -> Result<Batch, Refusal>
        ensures answer { let allowed = collectable (provider_of plan.now run) self.old instrument in
            AnswersCollector allowed self.old instrument now result }
        ensures seen { IfOk result (λ batch. self.new ≡ with_seen self.old instrument batch) }
        ensures err { OnErr result (self.new ≡ self.old) }
        ensures handed { let allowed = collectable (provider_of plan.now run) self.old instrument in
            HandsReading H.collects allowed self.old instrument held.old held.new now result }
    {
        if !self.is_of(plan, run) {
            return Err(Refusal::Stranger);
        }
        let at = instrument as usize;
        if at >= self.seen.len() {
            return Err(Refusal::UnknownInstrument);
        }
        let facts = plan.facts(instrument);
        let (start, number) = (self.run.start, self.number);
        let seen = &mut self.seen[at];
        held.collect(alloc, facts, start, seen, number, now)
    }

    /// Whether the seat is of this run of the plan, made for as many instruments, and of one of its
    /// readers.
    pub fn is_of(&self, plan: &Plan, run: RunId) -> bool
        ensures { result ≡ is_collector_of (provider_of plan.now run) self.now }
    {
        self.run.is(run)
            && (self.number as usize) < plan.config().readers().len()
            && self.seen.len() == plan.all_facts().len()
    }
}
