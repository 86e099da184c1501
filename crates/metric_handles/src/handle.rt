//! Handles of instruments.
ghost use Rattle.std.specs.Prelude.{◌≡◌, [], map};
ghost use Rattle.metric_contents.specs.Attributes.{given_by};
ghost use Rattle.metric_plan.specs.Plans.{print_of};
ghost use Rattle.metric_handles.specs.Bounds.{bound_of, number_in};
ghost use Rattle.metric_handles.specs.Calls.{MakesByHandle};

use crate::bound::Bound;
use crate::bound_list::BoundList;
use crate::kinds::{Adds, IsCounter, IsGauge, IsHistogram, IsUpDownCounter, Records};
use crate::seat::Seat;
use metric_contents::{Attr, Refusal, SetKey};
use metric_history::Book;
use metric_plan::Plan;
use metric_provider::{Gate, Provider};
use std::alloc::Global;
use std::marker::{Model, PhantomData};
use std::sync::Wait;

/// The handle of an instrument of one kind, found by its name in the catalogue of a plan: the instrument's number in
/// that catalogue and the plan's fingerprint ([`Plan::fingerprint`]). To another plan and its provider it is a
/// stranger: each call that brings one compares the two fingerprints first.
#[derive(Clone, Copy)]
pub struct Handle<K> {
    plan: u64,
    number: u32,
    kind: PhantomData<K>,
}

impl<K> Model for Handle<K> {
    ghost use Rattle.metric_handles.specs.Bounds.{HandleValue};

    ghost Value = { HandleValue };

    ghost view = { λ h. record { plan = h.plan; number = h.number } };

    ghost inverse = { λ h. record { plan = h.plan; number = h.number; kind = record {} } };
}

/// The handle of a counter (Metrics API, Counter).
pub type Counter = Handle<IsCounter>;

/// The handle of an up-down counter (Metrics API, UpDownCounter).
pub type UpDownCounter = Handle<IsUpDownCounter>;

/// The handle of a histogram (Metrics API, Histogram).
pub type Histogram = Handle<IsHistogram>;

/// The handle of a gauge (Metrics API, Gauge).
pub type Gauge = Handle<IsGauge>;

impl<K> Handle<K> {
    // The handle of the instrument of this number of a plan.
    pub(crate) fn of(plan: &Plan, number: u32) -> Handle<K>
        ensures { result ≡ record { plan = print_of plan.now; number = number } }
    {
        Handle {
            plan: plan.fingerprint(),
            number,
            kind: PhantomData,
        }
    }

    /// The number of the instrument in the catalogue.
    pub fn number(&self) -> u32
        ensures { result ≡ self.now.number }
    {
        self.number
    }

    // The fingerprint of the plan.
    pub(crate) fn plan(&self) -> u64
        ensures { result ≡ self.now.plan }
    {
        self.plan
    }

    // The number of the instrument in a plan, to another of which the handle is a stranger.
    #[inline(always)]
    pub(crate) fn number_in(&self, plan: &Plan) -> Result<u32, Refusal>
        ensures { result ≡ number_in plan.now self.now }
    {
        if self.plan != plan.fingerprint() {
            return Err(Refusal::Stranger);
        }
        Ok(self.number)
    }

    /// The attributes, bound to the instrument: they are looked up once, and recordings with them then bring the set
    /// key. A recording with three attributes at the call looks them up in some 40 ns, 2.5 times what a look-up by a
    /// set key costs; a bound one leaves that out (`docs/PERFORMANCE.md`, "set key"). Allocates no memory.
    ///
    /// # Errors
    ///
    /// `Stranger` exactly where the handle is of another plan. Then those of `Catalogue::encode`: `UnknownInstrument`
    /// where the plan has no instrument of the handle's number, then the first of `DuplicateKey`, `UnknownKey`,
    /// `UnknownValue`, `MissingKey` and `Combination`.
    pub fn bind(&self, plan: &Plan, attrs: &[Attr<'_>]) -> Result<Bound<K>, Refusal>
        ensures { result ≡ bound_of plan.now self.now (map given_by attrs.now) }
    {
        let number = self.number_in(plan)?;
        let set = plan.catalogue().encode(number, attrs)?;
        Ok(Bound::of(self.plan, number, set))
    }

    /// The set key, bound to the instrument, whatever it names: a recording compares it with the instrument, and is
    /// refused `UnknownValue` where it is no set of it, or `Combination`. So a program that knows the ranks of its
    /// values looks up nothing: [`expected`](crate::expected) says that it knows them.
    pub fn bind_set(&self, set: SetKey) -> Bound<K>
        ensures { result
            ≡ record { plan = self.now.plan; instrument = self.now.number; set = set } }
    {
        Bound::of(self.plan, self.number, set)
    }

    /// An empty list of bound recordings of the instrument.
    pub fn list(&self, alloc: Global) -> BoundList<K>
        ensures { result ≡ record {
          plan = self.now.plan;
          instrument = self.now.number;
          all = [];
        } }
    {
        BoundList::new(alloc, self.plan, self.number)
    }
}

impl<K: Adds> Handle<K> {
    /// Adds a value to the series of these attributes (Metrics API, Add): [`Seat::record`] at the handle's number, with
    /// its refusals. A provider of another plan than the handle's answers `Stranger` before the lock is taken; the seat
    /// is then as it was, and counts nothing.
    #[inline(always)]
    pub fn add<R: Wait, S: Seat, B: Book, G: Gate>(
        &self,
        rt: &R,
        provider: &Provider<B, G>,
        seat: &mut S,
        attrs: &[Attr<'_>],
        value: i64,
    ) -> Result<(), Refusal>
        ensures { let given = map given_by attrs.now in
            MakesByHandle B.KEEPS_ENTRIES B.spares_memory S.seat S.notes S.records provider.now
            self.now given value seat.old seat.new result }
    {
        if self.plan != provider.plan().fingerprint() {
            return Err(Refusal::Stranger);
        }
        seat.record(rt, provider, self.number, attrs, value)
    }
}

impl<K: Records> Handle<K> {
    /// Records a value with these attributes (Metrics API, Record): [`Seat::record`] at the handle's number, with its
    /// refusals. A provider of another plan than the handle's answers `Stranger` before the lock is taken; the seat is
    /// then as it was, and counts nothing.
    #[inline(always)]
    pub fn record<R: Wait, S: Seat, B: Book, G: Gate>(
        &self,
        rt: &R,
        provider: &Provider<B, G>,
        seat: &mut S,
        attrs: &[Attr<'_>],
        value: i64,
    ) -> Result<(), Refusal>
        ensures { let given = map given_by attrs.now in
            MakesByHandle B.KEEPS_ENTRIES B.spares_memory S.seat S.notes S.records provider.now
            self.now given value seat.old seat.new result }
    {
        if self.plan != provider.plan().fingerprint() {
            return Err(Refusal::Stranger);
        }
        seat.record(rt, provider, self.number, attrs, value)
    }
}
