//! The seat of a recorder with a provider.
ghost use Rattle.std.specs.Prelude.{◌≡◌, map, take, slice_get, IfOk, IfErr, OnOk, OnErr};
ghost use Rattle.metric_contents.specs.Attributes.{given_by};
ghost use Rattle.metric_provider.specs.Granting.{AnswersAsking};
ghost use Rattle.metric_seat.specs.KeyRecordings.{AreAccepted, IsRefusedAfter, admitted_key, noted_of_all};
ghost use Rattle.metric_seat.specs.Recordings.{AnswersSeat, IsToldOf, KnowsRecording, SeatSpares, admitted};
ghost use Rattle.metric_seat.specs.Seats.{is_recorder_of, new_recorder, provider_of, slips_at};

use crate::gate::Gate;
use crate::provider::Provider;
use metric_contents::{Attr, Refusal, SetKey};
use metric_history::{Book, Slip};
use metric_plan::Plan;
use metric_seat::{Measurement, RecorderSeat, RunId, SetsFault, Tells};
use metric_slot::Told;
use std::alloc::{AllocError, Global};
use std::marker::Model;
use std::sync::Wait;

/// The seat of one recorder: with it a thread records (Metrics API, synchronous instruments). It keeps what the
/// recorder was told of its accepted recordings, and where the provider's books keep their entries, a slip of each.
#[derive(Drop)]
pub struct Recorder {
    seat: RecorderSeat,
}

impl Model for Recorder {
    ghost use Rattle.metric_seat.specs.Seats.{RecorderValue};

    ghost Value = { RecorderValue };

    ghost view = { λ r. r.seat };
}

impl Recorder {
    // The seat of the recorder of this number, which was told of nothing, and whether it keeps slips.
    pub(crate) fn new(
        alloc: Global,
        run: RunId,
        number: u32,
        instruments: usize,
        keeps: bool,
    ) -> Result<Recorder, AllocError>
        ensures { IfOk result (λ seat. seat ≡ new_recorder keeps run instruments number) }
    {
        let seat = RecorderSeat::new(alloc, run, number, instruments, keeps)?;
        Ok(Recorder { seat })
    }

    /// The number of the recorder.
    pub fn number(&self) -> u32
        ensures { result ≡ self.now.number }
    {
        self.seat.number()
    }

    /// The set key of a recording of this value on the instrument of this number that the seat may make, or the first
    /// refusal: `Stranger` where the seat's run is another, the seat was made for another number of instruments, or the
    /// plan has no recorder of its number; `UnknownInstrument`, those of the attributes in their
    /// order, the last of them `Combination` where they are none of the instrument's allowed combinations, and
    /// `ValueRange`. Allocates no memory and takes no lock.
    pub fn admits<B: Book, G: Gate>(
        &self,
        provider: &Provider<B, G>,
        instrument: u32,
        attrs: &[Attr<'_>],
        value: i64,
    ) -> Result<SetKey, Refusal>
        ensures exact { let given = map given_by attrs.now in
            result ≡ admitted provider.now self.now instrument given value }
        ensures known { IfOk result (λ set.
            KnowsRecording provider.now.plan instrument self.now.number set value) }
    {
        self.seat
            .admit(provider.plan(), provider.run(), instrument, attrs, &value)
    }

    /// Makes a recording (Metrics API, synchronous instruments), and tells the seat of it. Where the book keeps its
    /// entries (`B::KEEPS_ENTRIES`), the seat keeps a slip of it: the set key that the attributes name, and the value.
    ///
    /// # Errors
    ///
    /// Those of [`Recorder::admits`]. Where the book keeps its entries, `Stranger` where the seat was made to keep no
    /// slips, and `Memory` where there is none for the slip. Then, under the instrument's lock, `Stranger` where what
    /// is found there is not what the seat was told, `Closed`, `Budget`, and `Memory`, which never comes where the book
    /// says that recordings on the instrument take none. No recording is refused for a sum.
    pub fn record<R: Wait, B: Book, G: Gate>(
        &mut self,
        rt: &R,
        provider: &Provider<B, G>,
        instrument: u32,
        attrs: &[Attr<'_>],
        value: i64,
    ) -> Result<(), Refusal>
        ensures answer { let given = map given_by attrs.now in
            let admission = admitted provider.now self.old instrument given value in
            let spares = SeatSpares B.KEEPS_ENTRIES B.spares_memory in
            AnswersSeat spares admission provider.now.plan self.old instrument result }
        ensures told { let given = map given_by attrs.now in
            let admission = admitted provider.now self.old instrument given value in
            let plan = provider.now.plan in
            OnOk result (
            IsToldOf B.KEEPS_ENTRIES admission plan self.old self.new instrument value) }
        ensures err { OnErr result (self.new ≡ self.old) }
    {
        let (plan, run) = (provider.plan(), provider.run());
        let mut held = provider.inside(rt, instrument);
        self.seat
            .record(&mut held, plan, run, instrument, attrs, &value)
    }

    /// Makes a recording of a set key that [`Recorder::admits`] answered for the instrument (Metrics API, synchronous
    /// instruments), and tells the seat of it. Who records one set of attributes often finds its key once.
    ///
    /// # Errors
    ///
    /// `Stranger` and `UnknownInstrument` as of [`Recorder::admits`], `UnknownValue` where the set key is not one of
    /// the instrument's: it names a value that a key does not declare, or none of a required key; then `Combination`
    /// where it is none of the instrument's allowed combinations, and `ValueRange`. Then those that
    /// [`Recorder::record`] names after those of [`Recorder::admits`].
    pub fn record_set<R: Wait, B: Book, G: Gate>(
        &mut self,
        rt: &R,
        provider: &Provider<B, G>,
        instrument: u32,
        set: SetKey,
        value: i64,
    ) -> Result<(), Refusal>
        ensures answer { let admission = admitted_key provider.now self.old instrument set value in
            let spares = SeatSpares B.KEEPS_ENTRIES B.spares_memory in
            AnswersSeat spares admission provider.now.plan self.old instrument result }
        ensures told { let admission = admitted_key provider.now self.old instrument set value in
            let plan = provider.now.plan in
            OnOk result (
            IsToldOf B.KEEPS_ENTRIES admission plan self.old self.new instrument value) }
        ensures err { OnErr result (self.new ≡ self.old) }
    {
        let (plan, run) = (provider.plan(), provider.run());
        let mut held = provider.inside(rt, instrument);
        self.seat
            .record_set(&mut held, plan, run, instrument, set, &value)
    }

    /// Makes recordings of one instrument by their set keys (Metrics API, synchronous instruments), in order and under
    /// one lock, up to the first that is refused: no other thread records on the instrument between them. The seat is
    /// told of exactly those before the refused one, and has slips of them where it keeps any. An empty list is
    /// accepted of any seat. Allocates no memory of its own but for slips.
    ///
    /// # Errors
    ///
    /// The first refusal of [`Recorder::record_set`], as if they were made one by one, with its place in the list. What
    /// that tests before the lock is tested of all of them before the lock; when out of memory for all slips, the first
    /// recording is refused.
    pub fn record_sets<R: Wait, B: Book, G: Gate>(
        &mut self,
        rt: &R,
        provider: &Provider<B, G>,
        instrument: u32,
        all: &[Measurement],
    ) -> Result<(), SetsFault>
        ensures accepted { let spares = SeatSpares B.KEEPS_ENTRIES B.spares_memory in
            OnOk result (AreAccepted spares provider.now self.old instrument all.now) }
        ensures told { let plan = provider.now.plan in
            OnOk result (
            self.new ≡ noted_of_all B.KEEPS_ENTRIES plan self.old instrument all.now) }
        ensures refused { let spares = SeatSpares B.KEEPS_ENTRIES B.spares_memory in
            IfErr result (IsRefusedAfter spares provider.now self.old instrument all.now) }
        ensures told_before { IfErr result (λ fault. let made = take fault.place all.now in
            let plan = provider.now.plan in
            self.new ≡ noted_of_all B.KEEPS_ENTRIES plan self.old instrument made) }
    {
        let plan = provider.plan();
        let run = provider.run();
        let mut held = provider.inside(rt, instrument);
        self.seat.record_sets(&mut held, plan, run, instrument, all)
    }

    /// The slips of the recorder's accepted recordings on an instrument, in order; none where its provider's books keep
    /// no entries, and none for an unknown instrument.
    pub fn slips(&self, instrument: u32) -> &[Slip]
        ensures { result.now ≡ slips_at self.now instrument }
    {
        self.seat.slips(instrument)
    }

    /// What the recorder was told of its accepted recordings on an instrument; nothing for an unknown one.
    pub fn accepted(&self, instrument: u32) -> Option<Told>
        ensures { result ≡ slice_get self.now.told instrument }
    {
        self.seat.accepted(instrument)
    }

    /// Asks for so many recordings on an instrument beside the budget, of what is left of the instrument's spare
    /// budget.
    ///
    /// # Errors
    ///
    /// `Stranger` where the seat is none of the provider's, else those of [`Provider::grant`].
    pub fn ask<R: Wait, B: Book, G: Gate>(
        &self,
        rt: &R,
        provider: &Provider<B, G>,
        instrument: u32,
        amount: u64,
    ) -> Result<(), Refusal>
        ensures { AnswersAsking provider.now self.now instrument amount result }
    {
        if !self.is_of(provider.plan(), provider.run()) {
            return Err(Refusal::Stranger);
        }
        provider.grant(rt, self.number(), instrument, amount)
    }

    // Whether the seat is of this run of the plan.
    pub(crate) fn is_of(&self, plan: &Plan, run: RunId) -> bool
        ensures { result ≡ is_recorder_of (provider_of plan.now run) self.now }
    {
        self.seat.is_of(plan, run)
    }
}

impl Tells for Recorder {
    ghost use Rattle.metric_provider.specs.Totals.{number_of, told_on};

    ghost numbered = { number_of };

    ghost tells = { λ seat instrument. told_on instrument seat };

    fn number(&self) -> u32 {
        self.seat.number()
    }

    fn told_at(&self, instrument: u32) -> Told {
        self.seat.told_at(instrument)
    }
}
