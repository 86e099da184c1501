//! What instruments are recorded with.
ghost use Rattle.std.specs.Prelude.{ℕ, ℤ, List, Result, map};
ghost use Rattle.metric_contents.specs.Attributes.{given_by};
ghost use Rattle.metric_contents.specs.Encoding.{Given};
ghost use Rattle.metric_contents.specs.declared.refusal.Refusal.{Refusal as refusals};
ghost use Rattle.metric_seat.specs.KeyRecordings.{admitted_key};
ghost use Rattle.metric_seat.specs.Recordings.{admitted};
ghost use Rattle.metric_seat.specs.Seats.{ProviderValue, RecorderValue};
ghost use Rattle.metric_seat.specs.declared.fault.SetsFault.{SetsFault as faults};
ghost use Rattle.metric_seat.specs.declared.keys.Measurement.{Measurement as measurements};
ghost use Rattle.metric_handles.specs.Calls.{MakesRecording, MakesRecordings, answer_of, untried_of};

use metric_contents::{Attr, Refusal, SetKey};
use metric_history::Book;
use metric_provider::{Gate, Measurement, Provider, Recorder, SetsFault};
use std::sync::Wait;

/// What instruments are recorded with: the seat of a [`Recorder`], or one that does more at each answer, as a
/// [`Counted`](crate::Counted) seat that counts refusals. Handles, bound attributes and their lists take any.
///
/// Contracts see the seat that is told of the recordings, what an answer changes beside it, and what each call comes
/// to. So what calls a seat cannot but call it: what a call came to is known by the call alone, with its instrument,
/// attributes or set keys, and values.
pub trait Seat {
    // The recorder's seat that is told of the recordings.
    ghost seat: { Self → RecorderValue };

    // What the answer to recordings on an instrument changes beside it, where so many behind a refused one are not
    // tried.
    ghost notes: { Self → Self → ℕ → ℕ → Result (Unit {0}) refusals → Type 0 };

    // What a recording comes to: the provider, the seat before and after it, the number of the instrument, the
    // attributes, the value, and its answer.
    ghost records: { ProviderValue → Self → Self → ℕ → List Given → ℤ
        → Result (Unit {0}) refusals → Type 0 };

    // The same of a recording by a set key.
    ghost records_set: { ProviderValue → Self → Self → ℕ → List ℕ → ℤ
        → Result (Unit {0}) refusals → Type 0 };

    // The same of recordings by set keys.
    ghost records_sets: { ProviderValue → Self → Self → ℕ → List measurements
        → Result (Unit {0}) faults → Type 0 };

    /// Makes a recording: [`Recorder::record`], with its refusals.
    fn record<R: Wait, B: Book, G: Gate>(
        &mut self,
        rt: &R,
        provider: &Provider<B, G>,
        instrument: u32,
        attrs: &[Attr<'_>],
        value: i64,
    ) -> Result<(), Refusal>
        ensures made { let given = map given_by attrs.now in
            let admission = admitted provider.now (seat self.old) instrument given value in
            MakesRecording B.KEEPS_ENTRIES B.spares_memory provider.now
            (seat self.old) (seat self.new) instrument value admission result }
        ensures noted { notes self.old self.new instrument 0 result }
        ensures handed { records provider.now self.old self.new instrument (map given_by attrs.now)
            value result };

    /// Makes a recording by a set key: [`Recorder::record_set`], with its refusals.
    fn record_set<R: Wait, B: Book, G: Gate>(
        &mut self,
        rt: &R,
        provider: &Provider<B, G>,
        instrument: u32,
        set: SetKey,
        value: i64,
    ) -> Result<(), Refusal>
        ensures made { let old = seat self.old in
            let admission = admitted_key provider.now old instrument set value in
            MakesRecording B.KEEPS_ENTRIES B.spares_memory provider.now
            old (seat self.new) instrument value admission result }
        ensures noted { notes self.old self.new instrument 0 result }
        ensures handed { records_set provider.now self.old self.new instrument set value result };

    /// Makes recordings by set keys under one lock, up to the first that is refused: [`Recorder::record_sets`], with
    /// its fault.
    fn record_sets<R: Wait, B: Book, G: Gate>(
        &mut self,
        rt: &R,
        provider: &Provider<B, G>,
        instrument: u32,
        all: &[Measurement],
    ) -> Result<(), SetsFault>
        ensures made { MakesRecordings B.KEEPS_ENTRIES B.spares_memory provider.now
            (seat self.old) (seat self.new) instrument all.now result }
        ensures noted { let untried = untried_of all.now result in
            notes self.old self.new instrument untried (answer_of result) }
        ensures handed { records_sets provider.now self.old self.new instrument all.now result };
}

impl Seat for Recorder {
    ghost seat = { λ recorder. recorder };

    ghost notes = { λ _ _ _ _ _. Unit {0} };

    // What becomes of the instrument stands behind its lock, and is known of no call.
    ghost records = { λ _ _ _ _ _ _ _. Unit {0} };

    ghost records_set = { λ _ _ _ _ _ _ _. Unit {0} };

    ghost records_sets = { λ _ _ _ _ _ _. Unit {0} };

    #[inline(always)]
    fn record<R: Wait, B: Book, G: Gate>(
        &mut self,
        rt: &R,
        provider: &Provider<B, G>,
        instrument: u32,
        attrs: &[Attr<'_>],
        value: i64,
    ) -> Result<(), Refusal> {
        Recorder::record(self, rt, provider, instrument, attrs, value)
    }

    #[inline(always)]
    fn record_set<R: Wait, B: Book, G: Gate>(
        &mut self,
        rt: &R,
        provider: &Provider<B, G>,
        instrument: u32,
        set: SetKey,
        value: i64,
    ) -> Result<(), Refusal> {
        Recorder::record_set(self, rt, provider, instrument, set, value)
    }

    #[inline(always)]
    fn record_sets<R: Wait, B: Book, G: Gate>(
        &mut self,
        rt: &R,
        provider: &Provider<B, G>,
        instrument: u32,
        all: &[Measurement],
    ) -> Result<(), SetsFault> {
        Recorder::record_sets(self, rt, provider, instrument, all)
    }
}
