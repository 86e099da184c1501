//! A seat that asks for more before its budget ends.
ghost use Rattle.std.specs.Prelude.{◌≡◌, ◌<◌, IfErr, IfOk, length, map, slice_get};
ghost use Rattle.metric_contents.specs.Attributes.{given_by};
ghost use Rattle.metric_seat.specs.KeyRecordings.{admitted_key};
ghost use Rattle.metric_seat.specs.Recordings.{admitted};
ghost use Rattle.metric_handles.specs.Asking.{AsksFirst, FindsRoom, MakesRoom, NeedsRoom, asking_of, with_found};
ghost use Rattle.metric_handles.specs.Calls.{MakesRecording, MakesRecordings, answer_of, untried_of};

use crate::during::told_count;
use crate::recorded::Recorded;
use crate::rooms::RoomsOf;
use crate::seat::Seat;
use crate::spares::{Found, Spares, find_room};
use metric_contents::{Attr, Refusal, SetKey};
use metric_history::Book;
use metric_plan::Plan;
use metric_provider::{Gate, Measurement, Provider, Recorder, SetsFault};
use std::alloc::{AllocError, Global};
use std::marker::Model;
use std::sync::Wait;

/// A seat that lives on the spares of its instruments: where its budget of one ends, it asks for so many recordings
/// more before it records, and where fewer are left in the spare, for all of them. Its recordings are those of the
/// seat, and handles, bound attributes and lists take it as they take that (a [`Seat`]). An instrument that has still
/// room costs a comparison; asking takes the instrument's lock two to four times before the recording takes it.
///
/// What is refused an ask is no refusal of the recording: a recording that has room is made, and one that has none is
/// refused `Budget`, once, also where a [`Counted`](crate::Counted) seat counts it. Where another recorder takes what
/// is left at the same moment, the next recording asks again.
#[derive(Drop)]
pub struct Asking<S = Recorder> {
    seat: S,
    known: Known,
}

impl<S> Model for Asking<S> {
    ghost use Rattle.metric_handles.specs.Asking.{AskingValue};

    ghost Value = { AskingValue S };

    ghost view = { λ a. record { seat = a.seat; known = a.known } };
}

// What is known of room.
#[derive(Drop)]
struct Known {
    // How many recordings are asked for at once.
    each: u64,
    // Up to how many recordings of each instrument there is room.
    limits: Vec<u64>,
    // Whether fewer were left than were needed.
    wants: bool,
}

impl Model for Known {
    ghost use Rattle.metric_handles.specs.Asking.{KnownValue};

    ghost Value = { KnownValue };

    ghost view = { λ k. record { each = k.each; limits = k.limits.items; wants = k.wants } };
}

impl Known {
    // Sees that so many recordings more have room on an instrument, of which so many were told.
    fn make_room<M: Spares>(&mut self, from: &M, instrument: u32, told: u64, needed: u64)
        ensures { let finds = FindsRoom (M.tells from.now instrument) (M.spares from.now instrument)
            (M.grants from.now instrument) self.old.each needed in
            NeedsRoom finds self.old self.new instrument told needed
            (slice_get self.old.limits instrument) }
    {
        let Some(limit) = self.limits.get(instrument as usize) else {
            return;
        };
        if told.saturating_add(needed) <= *limit {
            return;
        }
        let found = find_room(from, instrument, self.each, needed);
        self.keep(instrument, told, found);
    }

    // Keeps what was found for an instrument, of which so many recordings were told.
    fn keep(&mut self, instrument: u32, told: u64, found: Found)
        requires { instrument < length self.old.limits }
        ensures { self.new ≡ with_found self.old instrument told found }
    {
        self.limits[instrument as usize] = told.saturating_add(found.room);
        self.wants |= found.wants;
    }
}

impl<S> Asking<S> {
    /// The seat, which asks for so many recordings at once, on the instruments of a plan. When out of memory, the seat
    /// is handed back.
    pub fn new(alloc: Global, plan: &Plan, seat: S, each: u64) -> Result<Asking<S>, (S, AllocError)>
        ensures made { IfOk result (λ asking. asking ≡ asking_of plan.now seat each) }
        ensures back { IfErr result (λ refused. refused.0 ≡ seat) }
    {
        match vec![in alloc; 0; plan.catalogue().instruments().len()] {
            Ok(limits) => {
                let known = Known {
                    each,
                    limits,
                    wants: false,
                };
                Ok(Asking { seat, known })
            }
            Err(refused) => Err((seat, refused)),
        }
    }

    /// The seat.
    pub fn seat(&self) -> &S
        ensures { result.now ≡ self.now.seat }
    {
        &self.seat
    }

    /// The seat, to be handed in at the end.
    pub fn into_seat(self) -> S
        ensures { result ≡ self.seat }
    {
        self.seat
    }

    /// Whether a recording found fewer left in a spare than it needed: its instrument gets full budgets in the next
    /// run alone.
    pub fn wants_next_run(&self) -> bool
        ensures { result ≡ self.now.known.wants }
    {
        self.known.wants
    }
}

impl<S: Recorded> Asking<S> {
    /// Sees that so many recordings more have room on an instrument, as for a job of several, before which nothing else
    /// asks: what is missing is asked for, and at least as many as the seat asks for at once; where fewer are left, all
    /// of them. Nothing is refused: `has_room` of an `At` tells what there is. Allocates no memory.
    pub fn make_room<R: Wait, B: Book, G: Gate>(
        &mut self,
        rt: &R,
        provider: &Provider<B, G>,
        instrument: u32,
        needed: u64,
    )
        ensures seat { self.new.seat ≡ self.old.seat }
        ensures room { MakesRoom provider.now (S.seat self.old.seat) instrument needed
            self.old.known self.new.known }
    {
        let recorder = self.seat.recorder();
        let told = told_count(recorder, instrument);
        let from = RoomsOf {
            recorder,
            rt,
            provider,
        };
        self.known.make_room(&from, instrument, told, needed);
    }
}

impl<S: Recorded> Seat for Asking<S> {
    ghost seat = { λ asking. S.seat asking.seat };

    ghost notes = { λ old new. S.notes old.seat new.seat };

    ghost records = { λ p old new instrument given value result.
        AsksFirst (MakesRoom p (S.seat old.seat) instrument 1)
        (λ a b. S.records p a b instrument given value result) old new };

    ghost records_set = { λ p old new instrument set value result.
        AsksFirst (MakesRoom p (S.seat old.seat) instrument 1)
        (λ a b. S.records_set p a b instrument set value result) old new };

    ghost records_sets = { λ p old new instrument all result.
        AsksFirst (MakesRoom p (S.seat old.seat) instrument (length all))
        (λ a b. S.records_sets p a b instrument all result) old new };

    #[inline(always)]
    fn record<R: Wait, B: Book, G: Gate>(
        &mut self,
        rt: &R,
        provider: &Provider<B, G>,
        instrument: u32,
        attrs: &[Attr<'_>],
        value: i64,
    ) -> Result<(), Refusal> {
        self.make_room(rt, provider, instrument, 1);
        self.seat.record(rt, provider, instrument, attrs, value)
    }

    #[inline(always)]
    fn record_set<R: Wait, B: Book, G: Gate>(
        &mut self,
        rt: &R,
        provider: &Provider<B, G>,
        instrument: u32,
        set: SetKey,
        value: i64,
    ) -> Result<(), Refusal> {
        self.make_room(rt, provider, instrument, 1);
        self.seat.record_set(rt, provider, instrument, set, value)
    }

    #[inline(always)]
    fn record_sets<R: Wait, B: Book, G: Gate>(
        &mut self,
        rt: &R,
        provider: &Provider<B, G>,
        instrument: u32,
        all: &[Measurement],
    ) -> Result<(), SetsFault> {
        self.make_room(rt, provider, instrument, all.len() as u64);
        self.seat.record_sets(rt, provider, instrument, all)
    }
}

impl<S: Recorded> Recorded for Asking<S> {
    ghost makes_room = { λ p old new instrument needed.
        AsksFirst (MakesRoom p (S.seat old.seat) instrument needed) (λ a b. b ≡ a) old new };

    fn recorder(&self) -> &Recorder {
        self.seat().recorder()
    }

    fn make_room<R: Wait, B: Book, G: Gate>(
        &mut self,
        rt: &R,
        provider: &Provider<B, G>,
        instrument: u32,
        needed: u64,
    ) {
        Asking::make_room(self, rt, provider, instrument, needed)
    }
}
