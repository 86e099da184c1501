//! Attributes that are bound to an instrument.
ghost use Rattle.std.specs.Prelude.{◌≡◌};
ghost use Rattle.metric_seat.specs.KeyRecordings.{measurement_of};
ghost use Rattle.metric_handles.specs.Calls.{MakesByBound};

use crate::kinds::{Adds, IsCounter, IsGauge, IsHistogram, IsUpDownCounter, Records};
use crate::seat::Seat;
use metric_contents::{Refusal, SetKey};
use metric_history::Book;
use metric_provider::{Gate, Measurement, Provider};
use std::marker::{Model, PhantomData};
use std::sync::Wait;

/// Attributes that are bound to an instrument of one kind: its number, the set key of the attributes, and the
/// fingerprint of the plan. It is 32 bytes that own nothing, so it is copied and kept wherever recordings are made.
#[derive(Clone, Copy)]
pub struct Bound<K> {
    plan: u64,
    instrument: u32,
    set: SetKey,
    kind: PhantomData<K>,
}

impl<K> Model for Bound<K> {
    ghost use Rattle.metric_handles.specs.Bounds.{BoundValue};

    ghost Value = { BoundValue };

    ghost view = { λ b. record { plan = b.plan; instrument = b.instrument; set = b.set } };

    ghost inverse = { λ b. record {
      plan = b.plan;
      instrument = b.instrument;
      set = b.set;
      kind = record {};
    } };
}

/// Attributes that are bound to a counter.
pub type BoundCounter = Bound<IsCounter>;

/// Attributes that are bound to an up-down counter.
pub type BoundUpDownCounter = Bound<IsUpDownCounter>;

/// Attributes that are bound to a histogram.
pub type BoundHistogram = Bound<IsHistogram>;

/// Attributes that are bound to a gauge.
pub type BoundGauge = Bound<IsGauge>;

impl<K> Bound<K> {
    // What this set key is bound to, in a plan of this fingerprint.
    pub(crate) fn of(plan: u64, instrument: u32, set: SetKey) -> Bound<K>
        ensures { result ≡ record { plan = plan; instrument = instrument; set = set } }
    {
        Bound {
            plan,
            instrument,
            set,
            kind: PhantomData,
        }
    }

    /// The number of the instrument in the catalogue.
    pub fn number(&self) -> u32
        ensures { result ≡ self.now.instrument }
    {
        self.instrument
    }

    /// The set key of the attributes.
    pub fn set(&self) -> SetKey
        ensures { result ≡ self.now.set }
    {
        self.set
    }

    // The fingerprint of the plan.
    pub(crate) fn plan(&self) -> u64
        ensures { result ≡ self.now.plan }
    {
        self.plan
    }

    // A recording of this value.
    pub(crate) fn of_value(&self, value: i64) -> Measurement
        ensures { result ≡ measurement_of self.now.set value }
    {
        Measurement {
            set: self.set,
            value,
        }
    }
}

impl<K: Adds> Bound<K> {
    /// Adds a value to the series of the attributes (Metrics API, Add): [`Seat::record_set`] at the instrument's number
    /// with the set key, with its refusals. A provider of another plan than the attributes' answers `Stranger` before
    /// the lock is taken; the seat is then as it was, and counts nothing.
    #[inline(always)]
    pub fn add<R: Wait, S: Seat, B: Book, G: Gate>(
        &self,
        rt: &R,
        provider: &Provider<B, G>,
        seat: &mut S,
        value: i64,
    ) -> Result<(), Refusal>
        ensures { MakesByBound B.KEEPS_ENTRIES B.spares_memory S.seat S.notes S.records_set
            provider.now self.now value seat.old seat.new result }
    {
        if self.plan != provider.plan().fingerprint() {
            return Err(Refusal::Stranger);
        }
        seat.record_set(rt, provider, self.instrument, self.set, value)
    }
}

impl<K: Records> Bound<K> {
    /// Records a value with the attributes (Metrics API, Record): [`Seat::record_set`] at the instrument's number with
    /// the set key, with its refusals. A provider of another plan than the attributes' answers `Stranger` before the
    /// lock is taken; the seat is then as it was, and counts nothing.
    #[inline(always)]
    pub fn record<R: Wait, S: Seat, B: Book, G: Gate>(
        &self,
        rt: &R,
        provider: &Provider<B, G>,
        seat: &mut S,
        value: i64,
    ) -> Result<(), Refusal>
        ensures { MakesByBound B.KEEPS_ENTRIES B.spares_memory S.seat S.notes S.records_set
            provider.now self.now value seat.old seat.new result }
    {
        if self.plan != provider.plan().fingerprint() {
            return Err(Refusal::Stranger);
        }
        seat.record_set(rt, provider, self.instrument, self.set, value)
    }
}
