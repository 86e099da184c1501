//! A seat with what it records on.
ghost use Rattle.std.specs.Prelude.{◌≡◌, OnErr, OnOk, map};
ghost use Rattle.std.specs.Ordering.{int_eq};
ghost use Rattle.metric_contents.specs.Attributes.{given_by};
ghost use Rattle.metric_handles.specs.Calls.{MakesByBound, MakesByHandle, MakesByList, left_of};
ghost use Rattle.metric_handles.specs.Replaced.{clamped_in, counted_after, counted_unless, keeps_value_in, known_or_in};
ghost use Rattle.metric_names.specs.Values.{value_of};

use crate::bound::Bound;
use crate::bound_list::BoundList;
use crate::handle::Handle;
use crate::kinds::{Adds, Records};
use crate::replaced::Replaced;
use crate::seat::Seat;
use metric_contents::{Attr, Refusal};
use metric_history::Book;
use metric_names::ValueRef;
use metric_provider::{Gate, Provider, SetsFault};
use std::sync::Wait;

/// A seat with the runtime and the provider that it records with: what a thread has in hand for some work, so that a
/// recording names the instrument, the attributes and the value alone. It is made by [`AnySeat::at`].
pub struct At<'a, R, S, B: Book, G: Gate> {
    pub(crate) seat: &'a mut S,
    pub(crate) rt: &'a R,
    pub(crate) provider: &'a Provider<B, G>,
}

impl<R, S, B: Book, G: Gate> Drop for At<'_, R, S, B, G> {
    fn drop(self)
        ensures { self.exit.0.now ≡ self.entry.seat.now }
    {
        let At {
            seat: _,
            rt: _,
            provider: _,
        } = self;
    }
}

/// What each [`Seat`] can be lent for.
pub trait AnySeat {
    /// The seat with the runtime and the provider that it records with, for as long as it is lent.
    fn at<'a, R, B: Book, G: Gate>(
        &'a mut self,
        rt: &'a R,
        provider: &'a Provider<B, G>,
    ) -> At<'a, R, Self, B, G>
        ensures same { result.seat.ghost_name ≡ self.entry.ghost_name }
        ensures seat { result.seat.now ≡ self.old }
        ensures provider { result.provider.now ≡ provider.now };
}

impl<S: Seat> AnySeat for S {
    fn at<'a, R, B: Book, G: Gate>(
        &'a mut self,
        rt: &'a R,
        provider: &'a Provider<B, G>,
    ) -> At<'a, R, S, B, G> {
        At {
            seat: self,
            rt,
            provider,
        }
    }
}

impl<R: Wait, S: Seat, B: Book, G: Gate> At<'_, R, S, B, G> {
    /// Adds a value to the series of these attributes (Metrics API, Add): `Handle::add`, with its refusals.
    #[inline(always)]
    pub fn add<K: Adds>(
        &mut self,
        handle: &Handle<K>,
        attrs: &[Attr<'_>],
        value: i64,
    ) -> Result<(), Refusal>
        ensures same { self.new.seat.ghost_name ≡ self.old.seat.ghost_name }
        ensures provider { self.new.provider.now ≡ self.old.provider.now }
        ensures made { let p = self.old.provider.now in let given = map given_by attrs.now in
            MakesByHandle B.KEEPS_ENTRIES B.spares_memory S.seat S.notes S.records p handle.now
            given value self.old.seat.now self.new.seat.now result }
    {
        handle.add(self.rt, self.provider, self.seat, attrs, value)
    }

    /// Adds a value as [`At::add`] does, or the end of the instrument's range that is next to it where it is out of
    /// range: once it is recorded, the count of replaced amounts rises by one. The range is that of the instrument that
    /// records it, so no amount is clamped by one and recorded by another.
    pub fn add_clamped<K: Adds>(
        &mut self,
        handle: &Handle<K>,
        replaced: &mut Replaced,
        attrs: &[Attr<'_>],
        value: i64,
    ) -> Result<(), Refusal>
        ensures same { self.new.seat.ghost_name ≡ self.old.seat.ghost_name }
        ensures provider { self.new.provider.now ≡ self.old.provider.now }
        ensures made { let p = self.old.provider.now in let given = map given_by attrs.now in
            let amount = clamped_in p.plan handle.now value in
            MakesByHandle B.KEEPS_ENTRIES B.spares_memory S.seat S.notes S.records p handle.now
            given amount self.old.seat.now self.new.seat.now result }
        ensures counted { let plan = self.old.provider.now.plan in
            let kept = int_eq (clamped_in plan handle.now value) value in
            OnOk result (replaced.new
            ≡ record replaced.old { amounts = counted_unless kept replaced.old.amounts }) }
        ensures uncounted { OnErr result (replaced.new ≡ replaced.old) }
    {
        let amount = handle.clamped(self.provider.plan(), value);
        handle.add(self.rt, self.provider, self.seat, attrs, amount)?;
        replaced.count_amount(amount, value);
        Ok(())
    }

    /// Records a value with these attributes (Metrics API, Record): `Handle::record`, with its refusals.
    #[inline(always)]
    pub fn record<K: Records>(
        &mut self,
        handle: &Handle<K>,
        attrs: &[Attr<'_>],
        value: i64,
    ) -> Result<(), Refusal>
        ensures same { self.new.seat.ghost_name ≡ self.old.seat.ghost_name }
        ensures provider { self.new.provider.now ≡ self.old.provider.now }
        ensures made { let p = self.old.provider.now in let given = map given_by attrs.now in
            MakesByHandle B.KEEPS_ENTRIES B.spares_memory S.seat S.notes S.records p handle.now
            given value self.old.seat.now self.new.seat.now result }
    {
        handle.record(self.rt, self.provider, self.seat, attrs, value)
    }

    /// Records a value as [`At::record`] does, or the end of the instrument's range that is next to it where it is out of
    /// range: once it is recorded, the count of replaced amounts rises by one. The range is that of the instrument that
    /// records it, so no amount is clamped by one and recorded by another.
    pub fn record_clamped<K: Records>(
        &mut self,
        handle: &Handle<K>,
        replaced: &mut Replaced,
        attrs: &[Attr<'_>],
        value: i64,
    ) -> Result<(), Refusal>
        ensures same { self.new.seat.ghost_name ≡ self.old.seat.ghost_name }
        ensures provider { self.new.provider.now ≡ self.old.provider.now }
        ensures made { let p = self.old.provider.now in let given = map given_by attrs.now in
            let amount = clamped_in p.plan handle.now value in
            MakesByHandle B.KEEPS_ENTRIES B.spares_memory S.seat S.notes S.records p handle.now
            given amount self.old.seat.now self.new.seat.now result }
        ensures counted { let plan = self.old.provider.now.plan in
            let kept = int_eq (clamped_in plan handle.now value) value in
            OnOk result (replaced.new
            ≡ record replaced.old { amounts = counted_unless kept replaced.old.amounts }) }
        ensures uncounted { OnErr result (replaced.new ≡ replaced.old) }
    {
        let amount = handle.clamped(self.provider.plan(), value);
        handle.record(self.rt, self.provider, self.seat, attrs, amount)?;
        replaced.count_amount(amount, value);
        Ok(())
    }

    /// Adds a value to the series of bound attributes (Metrics API, Add): `Bound::add`, with its refusals.
    #[inline(always)]
    pub fn add_bound<K: Adds>(&mut self, bound: &Bound<K>, value: i64) -> Result<(), Refusal>
        ensures same { self.new.seat.ghost_name ≡ self.old.seat.ghost_name }
        ensures provider { self.new.provider.now ≡ self.old.provider.now }
        ensures made { let p = self.old.provider.now in
            MakesByBound B.KEEPS_ENTRIES B.spares_memory S.seat S.notes S.records_set p bound.now
            value self.old.seat.now self.new.seat.now result }
    {
        bound.add(self.rt, self.provider, self.seat, value)
    }

    /// Records a value with bound attributes (Metrics API, Record): `Bound::record`, with its refusals.
    #[inline(always)]
    pub fn record_bound<K: Records>(&mut self, bound: &Bound<K>, value: i64) -> Result<(), Refusal>
        ensures same { self.new.seat.ghost_name ≡ self.old.seat.ghost_name }
        ensures provider { self.new.provider.now ≡ self.old.provider.now }
        ensures made { let p = self.old.provider.now in
            MakesByBound B.KEEPS_ENTRIES B.spares_memory S.seat S.notes S.records_set p bound.now
            value self.old.seat.now self.new.seat.now result }
    {
        bound.record(self.rt, self.provider, self.seat, value)
    }

    /// Adds the values of a list under one lock, up to the first that is refused, and takes out what was made:
    /// `BoundList::add`, with its fault.
    pub fn add_list<K: Adds>(&mut self, list: &mut BoundList<K>) -> Result<(), SetsFault>
        ensures same { self.new.seat.ghost_name ≡ self.old.seat.ghost_name }
        ensures provider { self.new.provider.now ≡ self.old.provider.now }
        ensures made { let p = self.old.provider.now in
            MakesByList B.KEEPS_ENTRIES B.spares_memory S.seat S.notes S.records_sets p list.old
            self.old.seat.now self.new.seat.now result }
        ensures left { list.new ≡ record list.old { all = left_of list.old.all result } }
    {
        list.add(self.rt, self.provider, self.seat)
    }

    /// Records the values of a list under one lock, up to the first that is refused, and takes out what was made:
    /// `BoundList::record`, with its fault.
    pub fn record_list<K: Records>(&mut self, list: &mut BoundList<K>) -> Result<(), SetsFault>
        ensures same { self.new.seat.ghost_name ≡ self.old.seat.ghost_name }
        ensures provider { self.new.provider.now ≡ self.old.provider.now }
        ensures made { let p = self.old.provider.now in
            MakesByList B.KEEPS_ENTRIES B.spares_memory S.seat S.notes S.records_sets p list.old
            self.old.seat.now self.new.seat.now result }
        ensures left { list.new ≡ record list.old { all = left_of list.old.all result } }
    {
        list.record(self.rt, self.provider, self.seat)
    }
}

impl<R, S, B: Book, G: Gate> At<'_, R, S, B, G> {
    /// The attribute, where the instrument declares its value for its key; else the key with the other value, and the
    /// count of replaced values rises by one: `Handle::known_or`, with its refusals.
    pub fn known_or<'v, K>(
        &self,
        handle: &Handle<K>,
        replaced: &mut Replaced,
        attr: Attr<'v>,
        other: ValueRef<'v>,
    ) -> Result<Attr<'v>, Refusal>
        ensures value { let plan = self.now.provider.now.plan in
            result ≡ known_or_in plan handle.now attr.entry other.entry }
        ensures counted { let value = value_of attr.entry.value in
            let plan = self.now.provider.now.plan in
            let kept = keeps_value_in plan handle.now attr.entry.key.now value in
            let after = counted_after kept replaced.old.values in
            replaced.new ≡ record replaced.old { values = after } }
    {
        handle.known_or(self.provider.plan(), replaced, attr, other)
    }

    /// The seat.
    pub fn seat(&self) -> &S
        ensures { result.now ≡ self.now.seat.now }
    {
        self.seat
    }
}
