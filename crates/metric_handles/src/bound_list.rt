//! Lists of bound recordings.
ghost use Rattle.std.specs.Prelude.{◌≡◌, ◌≢◌, ◌↔◌, ◌⊎◌, ◌≤◌, [], ◌∷◌, ◌++◌, drop, length, IfErr, IsErrOf, OnErr, OnOk};
ghost use Rattle.metric_seat.specs.KeyRecordings.{measurement_of};
ghost use Rattle.metric_handles.specs.Calls.{MakesByList, left_of};

use crate::bound::Bound;
use crate::kinds::{Adds, Records};
use crate::seat::Seat;
use metric_contents::Refusal;
use metric_history::Book;
use metric_provider::{Gate, Measurement, Provider, SetsFault};
use std::alloc::Global;
use std::marker::{Model, PhantomData};
use std::sync::Wait;
use thiserror::Error;

/// Recordings of one instrument with bound attributes, which are made under one lock. Threads that record on one
/// instrument wait for its lock and for little else, so lists are what makes them faster (`docs/PERFORMANCE.md`, "by
/// set keys").
#[derive(Drop)]
pub struct BoundList<K> {
    plan: u64,
    instrument: u32,
    all: Vec<Measurement>,
    kind: PhantomData<K>,
}

impl<K> Model for BoundList<K> {
    ghost use Rattle.metric_handles.specs.Bounds.{BoundListValue};

    ghost Value = { BoundListValue };

    ghost view = { λ l. record {
      plan = l.plan;
      instrument = l.instrument;
      all = l.all.items;
    } };
}

/// Why a list does not take a recording.
#[derive(Clone, Copy, Debug, PartialEq, Eq, Drop, Error)]
pub enum ListFault {
    /// The attributes are bound to another instrument than the list's, as that of another plan is.
    #[error("the attributes are bound to another instrument")]
    OtherInstrument,
    /// Out of memory.
    #[error("no memory")]
    Memory,
}

impl<K> BoundList<K> {
    // An empty list for the instrument of this number, in a plan of this fingerprint.
    pub(crate) fn new(alloc: Global, plan: u64, instrument: u32) -> BoundList<K>
        ensures { result ≡ record { plan = plan; instrument = instrument; all = [] } }
    {
        BoundList {
            plan,
            instrument,
            all: Vec::new(alloc),
            kind: PhantomData,
        }
    }

    /// How many recordings stand in the list.
    pub fn len(&self) -> usize
        ensures { result ≡ length self.now.all }
    {
        self.all.len()
    }

    /// Puts a recording last. Takes memory only where the list has never been as long.
    ///
    /// # Errors
    ///
    /// `OtherInstrument` exactly where the attributes are bound to another instrument than the list's, or in another
    /// plan, else nothing but `Memory`. The list is then as it was.
    pub fn push(&mut self, bound: &Bound<K>, value: i64) -> Result<(), ListFault>
        ensures put { let last = measurement_of bound.now.set value in
            let all = self.old.all ++ last ∷ [] in
            OnOk result (self.new ≡ record self.old { all = all }) }
        ensures other { IsErrOf result ListFault.OtherInstrument
            ↔ ((bound.now.plan ≢ self.old.plan)
            ⊎ (bound.now.instrument ≢ self.old.instrument)) }
        ensures err { OnErr result (self.new ≡ self.old) }
    {
        if bound.plan() != self.plan || bound.number() != self.instrument {
            return Err(ListFault::OtherInstrument);
        }
        match self.all.push(bound.of_value(value)) {
            Ok(()) => Ok(()),
            Err(_) => Err(ListFault::Memory),
        }
    }

    /// Takes all recordings out of the list. It keeps their room.
    pub fn clear(&mut self)
        ensures { self.new ≡ record self.old { all = [] } }
    {
        self.all.clear();
    }

    // Makes all recordings, in order and under one lock, with a provider of the list's plan.
    #[inline(always)]
    fn record_all<R: Wait, S: Seat, B: Book, G: Gate>(
        &self,
        rt: &R,
        provider: &Provider<B, G>,
        seat: &mut S,
    ) -> Result<(), SetsFault>
        ensures made { MakesByList B.KEEPS_ENTRIES B.spares_memory S.seat S.notes S.records_sets
            provider.now self.now seat.old seat.new result }
        ensures within { IfErr result (λ fault. fault.place ≤ length self.now.all) }
    {
        if self.plan != provider.plan().fingerprint() {
            return Err(SetsFault {
                place: 0,
                refusal: Refusal::Stranger,
            });
        }
        seat.record_sets(rt, provider, self.instrument, self.all.as_slice())
    }

    // Takes out what was made by this answer.
    fn take_made(&mut self, answer: &Result<(), SetsFault>)
        requires { IfErr answer.now (λ fault. fault.place ≤ length self.old.all) }
        ensures { self.new ≡ record self.old { all = left_of self.old.all answer.now } }
    {
        match answer {
            Ok(()) => self.all.clear(),
            Err(fault) => self.take_first(fault.place),
        }
    }

    // Takes the first so many out.
    fn take_first(&mut self, made: usize)
        requires { made ≤ length self.old.all }
        ensures { self.new ≡ record self.old { all = drop made self.old.all } }
    {
        let left = self.all.len() - made;
        self.all.rotate_left(made);
        self.all.truncate(left);
    }
}

impl<K: Adds> BoundList<K> {
    /// Adds the values in order and under one lock, up to the first that is refused (Metrics API, Add):
    /// [`Seat::record_sets`] at the instrument's number, with its fault. What was made is taken out of the list: it is
    /// empty then, or begins with the refused recording, which can be tried again with those behind it. A provider of
    /// another plan than the list's answers `Stranger` at 0 before the lock is taken; list and seat are then as they
    /// were, and nothing is counted.
    pub fn add<R: Wait, S: Seat, B: Book, G: Gate>(
        &mut self,
        rt: &R,
        provider: &Provider<B, G>,
        seat: &mut S,
    ) -> Result<(), SetsFault>
        ensures made { MakesByList B.KEEPS_ENTRIES B.spares_memory S.seat S.notes S.records_sets
            provider.now self.old seat.old seat.new result }
        ensures left { self.new ≡ record self.old { all = left_of self.old.all result } }
    {
        let answer = self.record_all(rt, provider, seat);
        self.take_made(&answer);
        answer
    }

    /// The same, and the list stays as it is, so that all of it can be made again and again.
    pub fn add_and_keep<R: Wait, S: Seat, B: Book, G: Gate>(
        &self,
        rt: &R,
        provider: &Provider<B, G>,
        seat: &mut S,
    ) -> Result<(), SetsFault>
        ensures { MakesByList B.KEEPS_ENTRIES B.spares_memory S.seat S.notes S.records_sets
            provider.now self.now seat.old seat.new result }
    {
        self.record_all(rt, provider, seat)
    }
}

impl<K: Records> BoundList<K> {
    /// Records the values in order and under one lock, up to the first that is refused (Metrics API, Record):
    /// [`Seat::record_sets`] at the instrument's number, with its fault. What was made is taken out of the list: it is
    /// empty then, or begins with the refused recording, which can be tried again with those behind it. A provider of
    /// another plan than the list's answers `Stranger` at 0 before the lock is taken; list and seat are then as they
    /// were, and nothing is counted.
    pub fn record<R: Wait, S: Seat, B: Book, G: Gate>(
        &mut self,
        rt: &R,
        provider: &Provider<B, G>,
        seat: &mut S,
    ) -> Result<(), SetsFault>
        ensures made { MakesByList B.KEEPS_ENTRIES B.spares_memory S.seat S.notes S.records_sets
            provider.now self.old seat.old seat.new result }
        ensures left { self.new ≡ record self.old { all = left_of self.old.all result } }
    {
        let answer = self.record_all(rt, provider, seat);
        self.take_made(&answer);
        answer
    }

    /// The same, and the list stays as it is, so that all of it can be made again and again.
    pub fn record_and_keep<R: Wait, S: Seat, B: Book, G: Gate>(
        &self,
        rt: &R,
        provider: &Provider<B, G>,
        seat: &mut S,
    ) -> Result<(), SetsFault>
        ensures { MakesByList B.KEEPS_ENTRIES B.spares_memory S.seat S.notes S.records_sets
            provider.now self.now seat.old seat.new result }
    {
        self.record_all(rt, provider, seat)
    }
}
