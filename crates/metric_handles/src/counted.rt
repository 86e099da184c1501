//! A seat that counts what it is refused.
ghost use Rattle.std.specs.Prelude.{◌≡◌, ◌<◌, ◌≤◌, ◌+◌, IfErr, IfOk, length, replicate, slice_index_or, slice_set};
ghost use Rattle.metric_contents.specs.Refusals.{number_of};
ghost use Rattle.metric_handles.specs.Calls.{untried_of};
ghost use Rattle.metric_handles.specs.Counts.{CountsAnswer, count_in, counted_of, counts_after, counts_of, no_counts, place_of, refused_before};

use crate::recorded::Recorded;
use crate::seat::Seat;
use metric_contents::{Attr, Refusal, SetKey};
use metric_history::Book;
use metric_plan::Plan;
use metric_provider::{Gate, Measurement, Provider, Recorder, SetsFault};
use std::alloc::{AllocError, Global};
use std::marker::Model;
use std::sync::Wait;

// What became of an instrument's recordings that were not made: how often each refusal came, by its number, and how
// many recordings of lists stood behind a refused one.
#[derive(Clone, Copy)]
pub(crate) struct Counts {
    refused: [u64; 15],
    untried: u64,
}

impl Model for Counts {
    ghost use Rattle.std.specs.Prelude.{length, ◌≡◌};
    ghost use Rattle.metric_handles.specs.Counts.{CountsValue};

    ghost Value = { CountsValue };

    ghost view = { λ c. record { refused = c.refused; untried = c.untried } };

    ghost invariant = { λ c. length c.refused ≡ 15 };

    ghost inverse = { λ c. record { refused = c.refused; untried = c.untried } };
}

impl Counts {
    fn none() -> Counts
        ensures { result ≡ no_counts }
    {
        Counts {
            refused: [0; 15],
            untried: 0,
        }
    }

    pub(crate) fn of(&self, refusal: Refusal) -> u64
        ensures { result ≡ count_in self.now.refused refusal }
    {
        self.refused[number_of(refusal)]
    }

    // One more of a refusal, behind which so many recordings were not tried.
    fn add(&mut self, refusal: Refusal, untried: u64)
        ensures { self.new ≡ refused_before self.old refusal untried }
    {
        let number = number_of(refusal);
        self.refused[number] = self.refused[number].saturating_add(1);
        self.untried = self.untried.saturating_add(untried);
    }
}

// The number of a refusal, of which there are fewer than 15.
fn number_of(refusal: Refusal) -> usize
    ensures number { result ≡ number_of refusal }
    ensures few { result < 15 }
{
    usize::from(refusal.number())
}

/// A seat that counts its refusals by kind and by instrument, and the recordings of lists that were not tried since one
/// before them was refused. So what was handed in is what was made, what was refused and what was not tried, also where
/// a service goes on without looking at an answer. Its recordings are those of the seat, and handles, bound attributes
/// and lists take it as they take that (a [`Seat`]). Kinds are told apart by their numbers ([`Refusal::number`]), and
/// all instruments that the plan does not have are counted as one.
#[derive(Drop)]
pub struct Counted<S = Recorder> {
    seat: S,
    counts: Vec<Counts>,
}

impl<S> Model for Counted<S> {
    ghost use Rattle.std.specs.Prelude.{◌<◌, ◌≤◌, length};
    ghost use Rattle.metric_handles.specs.Counts.{CountedValue};

    ghost Value = { CountedValue S };

    ghost view = { λ c. record { seat = c.seat; counts = c.counts.items } };

    ghost invariant = { λ c. (0 < length c.counts.items) × (length c.counts.items ≤ 513) };
}

impl<S> Counted<S> {
    /// The seat, which was refused nothing of the instruments of a plan. Takes 128 bytes for each instrument and as
    /// many for all others. When out of memory, the seat is handed back.
    pub fn new(alloc: Global, plan: &Plan, seat: S) -> Result<Counted<S>, (S, AllocError)>
        ensures made { IfOk result (λ counted. counted ≡ counted_of plan.now seat) }
        ensures back { IfErr result (λ refused. refused.0 ≡ seat) }
    {
        match none_of_all(alloc, plan.catalogue().instruments().len()) {
            Ok(counts) => Ok(Counted { seat, counts }),
            Err(refused) => Err((seat, refused)),
        }
    }

    /// The seat.
    pub fn seat(&self) -> &S
        ensures { result.now ≡ self.now.seat }
    {
        &self.seat
    }

    /// The seat, to be handed in at the end. The counts are let go.
    pub fn into_seat(self) -> S
        ensures { result ≡ self.seat }
    {
        self.seat
    }

    /// How often this refusal, or one of its number, came on the instrument of this number, up to the greatest number
    /// of 64 bits.
    pub fn refused(&self, instrument: u32, refusal: Refusal) -> u64
        ensures { result ≡ count_in (counts_of self.now.counts instrument).refused refusal }
    {
        self.counts[self.place(instrument)].of(refusal)
    }

    /// How many recordings of lists on the instrument of this number were not tried, since one before them in their
    /// list was refused, up to the greatest number of 64 bits.
    pub fn untried(&self, instrument: u32) -> u64
        ensures { result ≡ (counts_of self.now.counts instrument).untried }
    {
        self.counts[self.place(instrument)].untried
    }

    // The counts of each instrument, and at last of all others.
    pub(crate) fn all_counts(&self) -> &[Counts]
        ensures counts { result.now ≡ self.now.counts }
        ensures few { length result.now ≤ 513 }
    {
        self.counts.as_slice()
    }

    // Counts an answer, behind which so many recordings were not tried.
    fn count(&mut self, instrument: u32, untried: u64, answer: &Result<(), Refusal>)
        ensures { let counts = counts_after self.old.counts instrument untried answer.now in
            self.new ≡ record self.old { counts = counts } }
    {
        if let Err(refusal) = answer {
            let place = self.place(instrument);
            count_at(&mut self.counts, place, *refusal, untried);
        }
    }

    // The place of the counts of an instrument.
    fn place(&self, instrument: u32) -> usize
        ensures place { result ≡ place_of self.now.counts instrument }
        ensures within { result < length self.now.counts }
    {
        (instrument as usize).min(self.counts.len() - 1)
    }
}

impl<S: Seat> Seat for Counted<S> {
    ghost seat = { λ counted. S.seat counted.seat };

    ghost notes = { CountsAnswer S.notes };

    ghost records = { λ p old new. S.records p old.seat new.seat };

    ghost records_set = { λ p old new. S.records_set p old.seat new.seat };

    ghost records_sets = { λ p old new. S.records_sets p old.seat new.seat };

    fn record<R: Wait, B: Book, G: Gate>(
        &mut self,
        rt: &R,
        provider: &Provider<B, G>,
        instrument: u32,
        attrs: &[Attr<'_>],
        value: i64,
    ) -> Result<(), Refusal> {
        let answer = self.seat.record(rt, provider, instrument, attrs, value);
        self.count(instrument, 0, &answer);
        answer
    }

    fn record_set<R: Wait, B: Book, G: Gate>(
        &mut self,
        rt: &R,
        provider: &Provider<B, G>,
        instrument: u32,
        set: SetKey,
        value: i64,
    ) -> Result<(), Refusal> {
        let answer = self.seat.record_set(rt, provider, instrument, set, value);
        self.count(instrument, 0, &answer);
        answer
    }

    fn record_sets<R: Wait, B: Book, G: Gate>(
        &mut self,
        rt: &R,
        provider: &Provider<B, G>,
        instrument: u32,
        all: &[Measurement],
    ) -> Result<(), SetsFault> {
        let answer = self.seat.record_sets(rt, provider, instrument, all);
        let untried = untried_of(all, &answer);
        self.count(instrument, untried, &answer.map_err(|fault| fault.refusal));
        answer
    }
}

impl<S: Recorded> Recorded for Counted<S> {
    ghost makes_room = { λ p old new instrument needed.
        S.makes_room p old.seat new.seat instrument needed × (new.counts ≡ old.counts) };

    fn recorder(&self) -> &Recorder {
        self.seat().recorder()
    }

    fn make_room<R: Wait, B: Book, G: Gate>(
        &mut self,
        rt: &R,
        provider: &Provider<B, G>,
        instrument: u32,
        needed: u64,
    ) {
        self.seat.make_room(rt, provider, instrument, needed)
    }
}

// How many recordings of a list stand behind the one that was refused.
fn untried_of(all: &[Measurement], answer: &Result<(), SetsFault>) -> u64
    ensures { result ≡ untried_of all.now answer.now }
{
    match answer {
        Ok(()) => 0,
        Err(fault) => all.len().saturating_sub(fault.place).saturating_sub(1) as u64,
    }
}

// Counts a refusal in the counts at a place.
fn count_at(all: &mut Vec<Counts>, place: usize, refusal: Refusal, untried: u64)
    requires { place < length all.old.items }
    ensures { let old = slice_index_or all.old.items place no_counts in
        all.new.items ≡ slice_set all.old.items place (refused_before old refusal untried) }
{
    let counts = &mut all[place];
    counts.add(refusal, untried);
}

// No counts of each of so many instruments, nor of all others.
fn none_of_all(alloc: Global, instruments: usize) -> Result<Vec<Counts>, AllocError>
    requires { instruments ≤ 512 }
    ensures { IfOk result (λ all. all.items ≡ replicate (instruments + 1) no_counts) }
{
    let mut all = Vec::new(alloc);
    all.resize(instruments + 1, Counts::none())?;
    Ok(all)
}
