//! The seat of a recorder.
ghost use Rattle.std.specs.Prelude.{◌≡◌, ◌<◌, ◌-◌, Bool, true, length, map, take, slice_get, slice_set, IfOk, IfErr, IfSome, Ok, OnOk, OnErr};
ghost use Rattle.metric_contents.specs.Attributes.{given_by};
ghost use Rattle.metric_contents.specs.Encoding.{encode_of};
ghost use Rattle.metric_core.specs.CellAnswers.{GainsEntry, entry_of, with_entry};
ghost use Rattle.metric_seat.specs.Handing.{Hands, HandsAdmitted, HandsAny, HandsOn, HandsOne};
ghost use Rattle.metric_seat.specs.KeyRecordings.{AreAccepted, AreAdmitted, IsRefusedAfter, IsUnadmittedAfter, admitted_key, noted_of_all, slip_of_one, told_of_all};
ghost use Rattle.metric_seat.specs.OneSlot.{AnswersSlot};
ghost use Rattle.metric_seat.specs.Recordings.{AnswersSeat, IsToldOf, KnowsRecording, RefusesSlip, SeatSpares, admitted, told_at, with_recording, with_slips};
ghost use Rattle.metric_seat.specs.Seats.{is_recorder_of, new_recorder, provider_of, slips_at};

use crate::admission::{declared_key, declared_set, key_of};
use crate::fault::SetsFault;
use crate::held::Held;
use crate::keys::{Measurement, recording_of};
use crate::notes::{Notes, no_notes};
use crate::run_id::RunId;
use metric_contents::{Attr, Refusal, SetKey};
use metric_facts::laws::attributes_name_allowed_sets;
use metric_history::{Book, Slip};
use metric_plan::Plan;
use metric_slot::{Slot, Told};
use std::alloc::{AllocError, Global};
use std::marker::Model;

// Room behind what a seat was told: 128 bytes. What it writes is then so far from the next block of the heap, in which
// another seat may write, wherever the allocator puts the two; so they share no lines of cache.
const ROOM_BEHIND: usize = 8;

/// The seat of one recorder in one run of a plan: with it a thread records (Metrics API, synchronous instruments). It
/// keeps what the recorder was told of its accepted recordings, and where the books keep their entries, a slip of each.
///
/// A call that takes a plan and a run takes those of the instrument that is recorded on.
#[derive(Drop)]
pub struct RecorderSeat {
    run: RunId,
    number: u32,
    told: Vec<Told>,
    notes: Vec<Notes>,
}

impl Model for RecorderSeat {
    ghost use Rattle.metric_seat.specs.Seats.{RecorderValue};

    ghost Value = { RecorderValue };

    ghost view = { λ r. record {
      run = r.run;
      number = r.number;
      told = r.told.items;
      slips = r.notes.items;
    } };
}

impl RecorderSeat {
    /// The seat of the recorder of this number in a run, which was told of nothing, for so many instruments, and whether
    /// it keeps slips. Fails only when out of memory.
    pub fn new(
        alloc: Global,
        run: RunId,
        number: u32,
        instruments: usize,
        keeps: bool,
    ) -> Result<RecorderSeat, AllocError>
        ensures { IfOk result (λ seat. seat ≡ new_recorder keeps run instruments number) }
    {
        let nothing = Told {
            count: 0,
            amount: 0,
        };
        let mut told = Vec::with_capacity(alloc, instruments.saturating_add(ROOM_BEHIND))?;
        told.resize(instruments, nothing)?;
        let notes = no_notes(alloc, if keeps { instruments } else { 0 })?;
        Ok(RecorderSeat {
            run,
            number,
            told,
            notes,
        })
    }

    /// The number of the recorder.
    pub fn number(&self) -> u32
        ensures { result ≡ self.now.number }
    {
        self.number
    }

    /// Makes recordings of one instrument by their set keys, in order and in one call of what holds it, up to the first
    /// that is refused. The seat is told of exactly those before the refused one, and has slips of them where it keeps
    /// any. An empty list is accepted of any seat. Allocates no memory of its own but for slips.
    ///
    /// # Errors
    ///
    /// The first refusal, with its place: what [`RecorderSeat::admit_key`] refuses is found of all of them before the
    /// instrument is touched; then those of [`RecorderSeat::record_each`].
    #[inline(always)]
    pub fn record_sets<B: Book, H: Held<B>>(
        &mut self,
        held: &mut H,
        plan: &Plan,
        run: RunId,
        instrument: u32,
        all: &[Measurement],
    ) -> Result<(), SetsFault>
        ensures accepted { let spares = SeatSpares B.KEEPS_ENTRIES B.spares_memory in
            let p = provider_of plan.now run in
            OnOk result (AreAccepted spares p self.old instrument all.now) }
        ensures told { OnOk result (
            self.new ≡ noted_of_all B.KEEPS_ENTRIES plan.now self.old instrument all.now) }
        ensures refused { let spares = SeatSpares B.KEEPS_ENTRIES B.spares_memory in
            let p = provider_of plan.now run in
            IfErr result (IsRefusedAfter spares p self.old instrument all.now) }
        ensures told_before { IfErr result (λ fault. let made = take fault.place all.now in
            self.new ≡ noted_of_all B.KEEPS_ENTRIES plan.now self.old instrument made) }
        ensures handed { let p = provider_of plan.now run in
            HandsAdmitted B.KEEPS_ENTRIES H.records p self.old instrument
            held.old held.new all.now }
    {
        let admitted = self.admit_each(plan, run, instrument, all);
        let count = match admitted {
            Ok(()) => all.len(),
            Err(fault) => fault.place,
        };
        self.record_each(held, plan, run, instrument, &all[..count])?;
        admitted
    }

    /// Makes a recording (Metrics API, synchronous instruments) in one call of what holds its instrument, and tells the
    /// seat of it. Where the book keeps its entries, the seat keeps a slip of it.
    ///
    /// # Errors
    ///
    /// Those of [`RecorderSeat::admit`], then those of [`RecorderSeat::record_each`].
    #[inline(always)]
    pub fn record<B: Book, H: Held<B>>(
        &mut self,
        held: &mut H,
        plan: &Plan,
        run: RunId,
        instrument: u32,
        attrs: &[Attr<'_>],
        value: &i64,
    ) -> Result<(), Refusal>
        ensures answer { let given = map given_by attrs.now in let p = provider_of plan.now run in
            let admission = admitted p self.old instrument given value.now in
            let spares = SeatSpares B.KEEPS_ENTRIES B.spares_memory in
            AnswersSeat spares admission plan.now self.old instrument result }
        ensures told { let given = map given_by attrs.now in let p = provider_of plan.now run in
            let admission = admitted p self.old instrument given value.now in OnOk result (
            IsToldOf B.KEEPS_ENTRIES admission plan.now self.old self.new instrument value.now) }
        ensures err { OnErr result (self.new ≡ self.old) }
        ensures handed { let given = map given_by attrs.now in let p = provider_of plan.now run in
            let admission = admitted p self.old instrument given value.now in
            HandsOne B.KEEPS_ENTRIES H.records admission plan.now self.old instrument
            held.old held.new value.now result }
    {
        let set = self.admit(plan, run, instrument, attrs, value)?;
        self.record_one(held, plan, run, instrument, set, value)
    }

    /// The same of a set key that a caller brings back.
    ///
    /// # Errors
    ///
    /// Those of [`RecorderSeat::admit_key`], then those of [`RecorderSeat::record_each`].
    #[inline(always)]
    pub fn record_set<B: Book, H: Held<B>>(
        &mut self,
        held: &mut H,
        plan: &Plan,
        run: RunId,
        instrument: u32,
        set: SetKey,
        value: &i64,
    ) -> Result<(), Refusal>
        ensures answer { let p = provider_of plan.now run in
            let admission = admitted_key p self.old instrument set value.now in
            let spares = SeatSpares B.KEEPS_ENTRIES B.spares_memory in
            AnswersSeat spares admission plan.now self.old instrument result }
        ensures told { let p = provider_of plan.now run in
            let admission = admitted_key p self.old instrument set value.now in OnOk result (
            IsToldOf B.KEEPS_ENTRIES admission plan.now self.old self.new instrument value.now) }
        ensures err { OnErr result (self.new ≡ self.old) }
        ensures handed { let p = provider_of plan.now run in
            let admission = admitted_key p self.old instrument set value.now in
            HandsOne B.KEEPS_ENTRIES H.records admission plan.now self.old instrument
            held.old held.new value.now result }
    {
        let set = self.admit_key(plan, run, instrument, set, value)?;
        self.record_one(held, plan, run, instrument, set, value)
    }

    // Makes a recording that the seat may make, as a list of one.
    #[inline(always)]
    fn record_one<B: Book, H: Held<B>>(
        &mut self,
        held: &mut H,
        plan: &Plan,
        run: RunId,
        instrument: u32,
        set: SetKey,
        value: &i64,
    ) -> Result<(), Refusal>
        requires { let p = provider_of plan.now run in
            admitted_key p self.old instrument set value.now ≡ Ok set }
        ensures answer { let spares = SeatSpares B.KEEPS_ENTRIES B.spares_memory in
            AnswersSeat spares (Ok set) plan.now self.old instrument result }
        ensures told { OnOk result (
            IsToldOf B.KEEPS_ENTRIES (Ok set) plan.now self.old self.new instrument value.now) }
        ensures err { OnErr result (self.new ≡ self.old) }
        ensures handed { HandsOne B.KEEPS_ENTRIES H.records (Ok set) plan.now self.old instrument
            held.old held.new value.now result }
    {
        let one = recording_of(set, value);
        match self.record_each(held, plan, run, instrument, &[one]) {
            Ok(()) => Ok(()),
            Err(fault) => Err(fault.refusal),
        }
    }

    /// Makes recordings that the seat may make on what holds their instrument, in one call of it, and tells the seat of
    /// them, up to the first that is refused. Where the book keeps its entries, the seat has a slip of each that was
    /// made.
    ///
    /// # Errors
    ///
    /// The first refusal, with its place: where the book keeps its entries, `Stranger` where the seat was made to keep
    /// no slips, and `Memory` where there is none for the slips; then those of what holds the instrument.
    #[inline(always)]
    pub fn record_each<B: Book, H: Held<B>>(
        &mut self,
        held: &mut H,
        plan: &Plan,
        run: RunId,
        instrument: u32,
        all: &[Measurement],
    ) -> Result<(), SetsFault>
        requires { let p = provider_of plan.now run in
            AreAdmitted p self.old instrument all.now }
        ensures told { OnOk result (
            self.new ≡ noted_of_all B.KEEPS_ENTRIES plan.now self.old instrument all.now) }
        ensures refused { let spares = SeatSpares B.KEEPS_ENTRIES B.spares_memory in
            let p = provider_of plan.now run in
            IfErr result (IsRefusedAfter spares p self.old instrument all.now) }
        ensures told_before { IfErr result (λ fault. let made = take fault.place all.now in
            self.new ≡ noted_of_all B.KEEPS_ENTRIES plan.now self.old instrument made) }
        ensures handed { HandsAny B.KEEPS_ENTRIES H.records plan.now self.old instrument
            held.old held.new all.now result }
    {
        if all.is_empty() {
            return Ok(());
        }
        if !B::KEEPS_ENTRIES {
            return self.record_told(held, plan, run, instrument, all);
        }
        self.record_noted(held, plan, run, instrument, all)
    }

    // The same where slips are kept: each has its slip before the instrument is touched, and those not told of lose
    // theirs.
    fn record_noted<B: Book, H: Held<B>>(
        &mut self,
        held: &mut H,
        plan: &Plan,
        run: RunId,
        instrument: u32,
        all: &[Measurement],
    ) -> Result<(), SetsFault>
        requires admitted { let p = provider_of plan.now run in
            AreAdmitted p self.old instrument all.now }
        requires some { 0 < length all.now }
        ensures told { OnOk result (
            self.new ≡ noted_of_all true plan.now self.old instrument all.now) }
        ensures refused { let spares = SeatSpares true B.spares_memory in
            let p = provider_of plan.now run in
            IfErr result (IsRefusedAfter spares p self.old instrument all.now) }
        ensures told_before { IfErr result (λ fault. let made = take fault.place all.now in
            self.new ≡ noted_of_all true plan.now self.old instrument made) }
        ensures handed { Hands true H.records plan.now self.old instrument
            held.old held.new all.now result }
    {
        match self.note_each(instrument, all) {
            Ok(()) => {}
            Err(refusal) => return Err(SetsFault { place: 0, refusal }),
        }
        match self.record_told(held, plan, run, instrument, all) {
            Ok(()) => Ok(()),
            Err(fault) => {
                self.strike_out(instrument, all.len().saturating_sub(fault.place));
                Err(fault)
            }
        }
    }

    // Makes recordings that the seat may make, and tells it of them without slips, up to the first that is refused.
    #[inline(always)]
    fn record_told<B: Book, H: Held<B>>(
        &mut self,
        held: &mut H,
        plan: &Plan,
        run: RunId,
        instrument: u32,
        all: &[Measurement],
    ) -> Result<(), SetsFault>
        requires admitted { let p = provider_of plan.now run in
            AreAdmitted p self.old instrument all.now }
        requires some { 0 < length all.now }
        ensures told { OnOk result (
            self.new ≡ told_of_all plan.now self.old instrument all.now) }
        ensures refused { let p = provider_of plan.now run in
            IfErr result (IsRefusedAfter B.spares_memory p self.old instrument all.now) }
        ensures told_before { IfErr result (λ fault. let made = take fault.place all.now in
            self.new ≡ told_of_all plan.now self.old instrument made) }
        ensures handed { HandsOn H.records plan.now self.old instrument
            held.old held.new all.now result }
    {
        let by = self.number;
        let facts = plan.facts(instrument);
        let so_far = &mut self.told[instrument as usize];
        held.record_each(facts, so_far, by, all)
    }

    /// Makes a recording that the seat may make on the slot of its instrument, and tells the seat of it, without a
    /// slip.
    ///
    /// # Errors
    ///
    /// Those of [`Slot::record`].
    pub fn record_on<B: Book>(
        &mut self,
        slot: &mut Slot<B>,
        plan: &Plan,
        instrument: u32,
        set: SetKey,
        value: &i64,
    ) -> Result<(), Refusal>
        requires known { KnowsRecording plan.now instrument self.old.number set value.now }
        requires long { instrument < length self.old.told }
        ensures answer { AnswersSlot B.stands B.spares_memory
            plan.now slot.old self.old instrument set value.now result }
        ensures new { let entry = entry_of self.old.number set value.now in
            OnOk result (slot.new ≡ with_entry slot.old entry slot.new.book) }
        ensures stands { let entry = entry_of self.old.number set value.now in
            OnOk result (GainsEntry B.stands slot.old slot.new entry) }
        ensures told { OnOk result (IfSome (slice_get plan.now.facts.instruments instrument) (λ own.
            self.new ≡ with_recording self.old instrument own value.now)) }
        ensures err { OnErr result (self.new ≡ self.old) }
        ensures slot_err { OnErr result (slot.new ≡ slot.old) }
    {
        let number = self.number;
        let facts = plan.facts(instrument);
        let told = &mut self.told[instrument as usize];
        let is_own = slot.is_of(facts);
        slot.record(is_own, facts, told, number, set, *value)
    }

    // A slip of each recording on an instrument, after those so far.
    fn note_each(&mut self, instrument: u32, all: &[Measurement]) -> Result<(), Refusal>
        ensures noted { let more = map slip_of_one all.now in
            OnOk result (self.new ≡ with_slips true self.old instrument more) }
        ensures within { OnOk result (instrument < length self.old.slips) }
        ensures refused { IfErr result (λ refusal. RefusesSlip refusal) }
        ensures err { OnErr result (self.new ≡ self.old) }
    {
        let at = instrument as usize;
        if at >= self.notes.len() {
            return Err(Refusal::Stranger);
        }
        let notes = &mut self.notes[at];
        if notes.add_each(all).is_err() {
            return Err(Refusal::Memory);
        }
        Ok(())
    }

    // Strikes out so many of the last slips of an instrument.
    fn strike_out(&mut self, instrument: u32, count: usize)
        requires { instrument < length self.old.slips }
        ensures { let slips = slips_at self.old instrument in
            let left = take (length slips - count) slips in
            self.new ≡ record self.old { slips = slice_set self.old.slips instrument left } }
    {
        let notes = &mut self.notes[instrument as usize];
        notes.strike_out(count);
    }

    /// The slips of the recorder's accepted recordings on an instrument, in order; none where the seat keeps none, and
    /// none for an unknown instrument.
    pub fn slips(&self, instrument: u32) -> &[Slip]
        ensures { result.now ≡ slips_at self.now instrument }
    {
        match self.notes.get(instrument as usize) {
            Some(notes) => notes.as_slice(),
            None => &[],
        }
    }

    /// What the recorder was told of its accepted recordings on an instrument; nothing for an unknown one.
    pub fn accepted(&self, instrument: u32) -> Option<Told>
        ensures { result ≡ slice_get self.now.told instrument }
    {
        self.told.get(instrument as usize).copied()
    }

    /// What the recorder was told of its accepted recordings on an instrument, none for an unknown one.
    pub fn told_at(&self, instrument: u32) -> Told
        ensures { result ≡ told_at self.now instrument }
    {
        let nothing = Told {
            count: 0,
            amount: 0,
        };
        self.told
            .get(instrument as usize)
            .copied()
            .unwrap_or(nothing)
    }

    /// Whether the seat is of this run of the plan, made for as many instruments, and of one of its
    /// recorders.
    #[inline(always)]
    pub fn is_of(&self, plan: &Plan, run: RunId) -> bool
        ensures { result ≡ is_recorder_of (provider_of plan.now run) self.now }
    {
        self.run.is(run)
            && (self.number as usize) < plan.catalogue().recorders().len()
            && self.told.len() == plan.all_facts().len()
    }

    /// The set key of attributes for the instrument of this number, or the first refusal of `UnknownInstrument` and
    /// those of the attributes in their order. Who records one set of attributes often finds its key once. Allocates no
    /// memory.
    pub fn prepare(
        &self,
        plan: &Plan,
        instrument: u32,
        attrs: &[Attr<'_>],
    ) -> Result<SetKey, Refusal>
        ensures { let given = map given_by attrs.now in
            result ≡ encode_of plan.now.facts.contents.instruments instrument given }
    {
        plan.catalogue().encode(instrument, attrs)
    }

    /// The set key of a recording of this value on the instrument of this number that the seat may make, or the first
    /// refusal: `Stranger` where the run is another, the seat was made for another number of instruments, or the plan has
    /// no recorder of its number; `UnknownInstrument`, those of the attributes in their order, the last of
    /// them `Combination` where they are none of the instrument's allowed combinations, and `ValueRange`. Allocates no
    /// memory.
    #[inline(always)]
    pub fn admit(
        &self,
        plan: &Plan,
        run: RunId,
        instrument: u32,
        attrs: &[Attr<'_>],
        value: &i64,
    ) -> Result<SetKey, Refusal>
        ensures exact { let given = map given_by attrs.now in
            result ≡ admitted (provider_of plan.now run) self.now instrument given value.now }
        ensures known { IfOk result (λ set.
            KnowsRecording plan.now instrument self.now.number set value.now) }
        ensures key { let p = provider_of plan.now run in
            IfOk result (λ set. admitted_key p self.now instrument set value.now ≡ Ok set) }
        ensures long { OnOk result (instrument < length self.now.told) }
    {
        attributes_name_allowed_sets();
        // For the proof alone: a plan has facts for each of its instruments.
        let _ = plan.all_facts();
        if !self.is_of(plan, run) {
            return Err(Refusal::Stranger);
        }
        declared_set(plan, instrument, attrs, value)
    }

    /// The same of a set key that a caller brings back: `Stranger` and `UnknownInstrument` as of
    /// [`RecorderSeat::admit`], `UnknownValue` where the set key is not one of the instrument's, `Combination` where it
    /// is none of its allowed combinations, and `ValueRange`.
    #[inline(always)]
    pub fn admit_key(
        &self,
        plan: &Plan,
        run: RunId,
        instrument: u32,
        set: SetKey,
        value: &i64,
    ) -> Result<SetKey, Refusal>
        ensures exact { let p = provider_of plan.now run in
            result ≡ admitted_key p self.now instrument set value.now }
        ensures known { IfOk result (λ key.
            KnowsRecording plan.now instrument self.now.number key value.now) }
        ensures key { let p = provider_of plan.now run in
            IfOk result (λ key. admitted_key p self.now instrument key value.now ≡ Ok key) }
        ensures long { OnOk result (instrument < length self.now.told) }
    {
        if !self.is_of(plan, run) {
            return Err(Refusal::Stranger);
        }
        declared_key(plan, instrument, set, value)
    }

    /// Whether the seat may make each of these recordings, or the first refusal of [`RecorderSeat::admit_key`], with
    /// its place. An empty list is accepted of any seat.
    #[inline(always)]
    pub fn admit_each(
        &self,
        plan: &Plan,
        run: RunId,
        instrument: u32,
        all: &[Measurement],
    ) -> Result<(), SetsFault>
        ensures admitted { let p = provider_of plan.now run in
            OnOk result (AreAdmitted p self.now instrument all.now) }
        ensures refused { let p = provider_of plan.now run in
            IfErr result (IsUnadmittedAfter p self.now instrument all.now) }
    {
        if all.is_empty() {
            return Ok(());
        }
        if !self.is_of(plan, run) {
            return Err(SetsFault {
                place: 0,
                refusal: Refusal::Stranger,
            });
        }
        if instrument as usize >= plan.all_facts().len() {
            return Err(SetsFault {
                place: 0,
                refusal: Refusal::UnknownInstrument,
            });
        }
        let facts = plan.facts(instrument);
        for (place, one) in all.iter().enumerate() {
            match key_of(facts, one.set, &one.value) {
                Ok(_) => {}
                Err(refusal) => return Err(SetsFault { place, refusal }),
            }
        }
        Ok(())
    }
}
