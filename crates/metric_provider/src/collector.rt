//! The seat of a reader with a provider.
ghost use Rattle.std.specs.Prelude.{◌≡◌, [], true, length, slice_get, IfOk, IfErr, OnErr, OnOk};
ghost use Rattle.std.specs.Option.{option_map};
ghost use Rattle.metric_seat.specs.Collections.{AllRefused, AnswersCollector, AnswersEach, collectable, with_all_seen, with_seen};
ghost use Rattle.metric_seat.specs.Seats.{is_collector_of, new_collector, provider_of};
ghost use Rattle.metric_slot.specs.declared.seen.Seen.{Seen as sightings};

use crate::fault::AllFault;
use crate::gate::Gate;
use crate::provider::Provider;
use metric_contents::Refusal;
use metric_history::{Batch, Book};
use metric_plan::Plan;
use metric_seat::{ReaderSeat, RunId};
use std::alloc::{AllocError, Global};
use std::marker::Model;
use std::sync::Wait;

/// The seat of one reader: with it a thread collects (Metrics SDK, collect). It keeps when the run started, and for
/// each instrument how many recordings the reader's last batch counted, and its time: so the windows of a delta reader
/// leave no gap and no overlap, and those of a cumulative one begin with the run.
#[derive(Drop)]
pub struct Collector {
    seat: ReaderSeat,
}

impl Model for Collector {
    ghost use Rattle.metric_seat.specs.Seats.{CollectorValue};

    ghost Value = { CollectorValue };

    ghost view = { λ c. c.seat };
}

impl Collector {
    // The seat of the reader of this number, which has seen nothing of a run.
    pub(crate) fn new(
        alloc: Global,
        run: RunId,
        number: u32,
        instruments: usize,
    ) -> Result<Collector, AllocError>
        ensures { IfOk result (λ seat. seat ≡ new_collector run instruments number) }
    {
        let seat = ReaderSeat::new(alloc, run, number, instruments)?;
        Ok(Collector { seat })
    }

    /// The number of the reader.
    pub fn number(&self) -> u32
        ensures { result ≡ self.now.number }
    {
        self.seat.number()
    }

    /// How many recordings of an instrument the reader's last batch counted, 0 before one; nothing for an unknown
    /// instrument.
    pub fn seen(&self, instrument: u32) -> Option<u64>
        ensures { let mark = λ (seen : sightings). seen.mark in
            result ≡ option_map mark (slice_get self.now.seen instrument) }
    {
        self.seat.seen(instrument)
    }

    /// What the reader is told of an instrument at a time in nanoseconds: its points since its last batch (delta) or
    /// since the start (cumulative) (Metrics SDK, collect). Where the reader's last batch has a later time, this one
    /// has that too.
    ///
    /// # Errors
    ///
    /// `Stranger` where the seat's run is another, the seat was made for another number of instruments, or
    /// the plan has no reader of its number; `UnknownInstrument`. Then, under the instrument's lock, `Stranger` where
    /// what is found there is not what the seat has seen, and `Memory`.
    pub fn collect<R: Wait, B: Book, G: Gate>(
        &mut self,
        rt: &R,
        alloc: Global,
        provider: &Provider<B, G>,
        instrument: u32,
        now: u64,
    ) -> Result<Batch, Refusal>
        ensures answer { let allowed = collectable provider.now self.old instrument in
            AnswersCollector allowed self.old instrument now result }
        ensures seen { IfOk result (λ batch. self.new ≡ with_seen self.old instrument batch) }
        ensures err { OnErr result (self.new ≡ self.old) }
    {
        let plan = provider.plan();
        let run = provider.run();
        let mut held = provider.inside(rt, instrument);
        self.seat
            .collect(&mut held, alloc, plan, run, instrument, now)
    }

    /// A batch of each instrument, in order. What was collected before a refusal is handed over with it.
    ///
    /// # Errors
    ///
    /// The first refusal of [`Collector::collect`], with its instrument; instrument 0 where it is a `Stranger` before
    /// any lock. When out of memory for the list itself, it is `Memory` at instrument 0, and nothing was collected.
    pub fn collect_all<R: Wait, B: Book, G: Gate>(
        &mut self,
        rt: &R,
        alloc: Global,
        provider: &Provider<B, G>,
        now: u64,
    ) -> Result<Vec<Batch>, AllFault>
        ensures each { IfOk result (λ batches.
            AnswersEach provider.now self.old now batches.items) }
        ensures all { IfOk result (λ batches.
            length batches.items ≡ length provider.now.plan.facts.instruments) }
        ensures own { OnOk result (is_collector_of provider.now self.old ≡ true) }
        ensures seen { IfOk result (λ batches. self.new ≡ with_all_seen self.old batches.items) }
        ensures refused { IfErr result (λ fault.
            AllRefused provider.now self.old now fault.done.items fault.instrument fault.refusal) }
        ensures seen_before { IfErr result (λ fault.
            self.new ≡ with_all_seen self.old fault.done.items) }
    {
        let is_own = self.is_of(provider.plan(), provider.run());
        if !is_own {
            return Err(AllFault {
                done: Vec::new(alloc),
                instrument: 0,
                refusal: Refusal::Stranger,
            });
        }
        let count = provider.plan().catalogue().instruments().len();
        let Ok(mut done) = Vec::with_capacity(alloc, count) else {
            return Err(AllFault {
                done: Vec::new(alloc),
                instrument: 0,
                refusal: Refusal::Memory,
            });
        };
        for instrument in 0..count as u32 {
            match self.collect(rt, alloc, provider, instrument, now) {
                Ok(batch) => done.push_reserved(batch),
                Err(refusal) => {
                    return Err(AllFault {
                        done,
                        instrument,
                        refusal,
                    });
                }
            }
        }
        Ok(done)
    }

    /// The last collection of all instruments (Metrics SDK, shutdown). Refused, the seat is handed back with what was
    /// collected.
    ///
    /// # Errors
    ///
    /// Those of [`Collector::collect_all`].
    pub fn shutdown<R: Wait, B: Book, G: Gate>(
        self,
        rt: &R,
        alloc: Global,
        provider: &Provider<B, G>,
        now: u64,
    ) -> Result<Vec<Batch>, (Collector, AllFault)>
        ensures each { IfOk result (λ batches.
            AnswersEach provider.now self now batches.items) }
        ensures all { IfOk result (λ batches.
            length batches.items ≡ length provider.now.plan.facts.instruments) }
        ensures own { OnOk result (is_collector_of provider.now self ≡ true) }
        ensures refused { IfErr result (λ refused. let fault = refused.1 in
            AllRefused provider.now self now fault.done.items fault.instrument fault.refusal) }
        ensures seen_before { IfErr result (λ refused.
            refused.0 ≡ with_all_seen self refused.1.done.items) }
    {
        let mut seat = self;
        match seat.collect_all(rt, alloc, provider, now) {
            Ok(batches) => Ok(batches),
            Err(fault) => Err((seat, fault)),
        }
    }

    // Whether the seat is of this run of the plan.
    fn is_of(&self, plan: &Plan, run: RunId) -> bool
        ensures { result ≡ is_collector_of (provider_of plan.now run) self.now }
    {
        self.seat.is_of(plan, run)
    }
}
