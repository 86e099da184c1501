//! Values that a catalogue does not declare, replaced and counted.
ghost use Rattle.std.specs.Prelude.{◌≡◌, find, if◌then◌else◌};
ghost use Rattle.std.specs.Option.{option_copied};
ghost use Rattle.std.specs.Ordering.{int_eq};
ghost use Rattle.std.specs.Result.{result_map_both};
ghost use Rattle.metric_names.specs.Values.{value_of};
ghost use Rattle.metric_contents.specs.KeyNames.{is_key};
ghost use Rattle.metric_handles.specs.Replaced.{clamped_in, counted_after, counted_unless, instrument_at, is_known, keeps_value_in, key_at, known_or_in, nearest, nearest_at};

use crate::handle::Handle;
use metric_contents::{Attr, Instrument, Key, Refusal};
use metric_names::ValueRef;
use metric_plan::Plan;

/// How often values were replaced: what comes in from outside is told by a count, and no recording is lost for it. The
/// counts rise by [`Handle::known_or`], and by `At::add_clamped` and `At::record_clamped`, and stop at the greatest
/// number of 64 bits.
#[derive(Clone, Copy, Debug, PartialEq, Eq, Drop)]
pub struct Replaced {
    /// How many values of attributes were not declared.
    pub values: u64,
    /// How many recorded values were out of range.
    pub amounts: u64,
}

impl Replaced {
    /// No value was replaced.
    pub fn none() -> Replaced
        ensures { result ≡ record { values = 0; amounts = 0 } }
    {
        Replaced {
            values: 0,
            amounts: 0,
        }
    }

    // The value, where the key declares it; else the other one, which is counted.
    fn known_or<'a>(&mut self, key: &Key, value: ValueRef<'a>, other: ValueRef<'a>) -> ValueRef<'a>
        ensures value { let known = is_known key.now (value_of value.entry) in
            result ≡ (if known then value.entry else other.entry) }
        ensures counted { let known = is_known key.now (value_of value.entry) in
            self.new ≡ record self.old { values = counted_unless known self.old.values } }
    {
        if key.values.number_of(value).is_some() {
            return value;
        }
        self.values = self.values.saturating_add(1);
        other
    }

    // Counts an amount that was recorded in place of another one.
    pub(crate) fn count_amount(&mut self, amount: i64, value: i64)
        ensures { let kept = int_eq amount value in
            self.new ≡ record self.old { amounts = counted_unless kept self.old.amounts } }
    {
        if amount != value {
            self.amounts = self.amounts.saturating_add(1);
        }
    }
}

impl<K> Handle<K> {
    /// The attribute, where the instrument declares its value for its key; else the key with the other value, and the
    /// count of replaced values rises by one. What comes back is recorded as it is: where the other value is declared,
    /// it is not refused for this attribute.
    ///
    /// # Errors
    ///
    /// `Stranger` where the handle is of another plan, else `UnknownInstrument` where the plan has no instrument of the
    /// handle's number, `UnknownKey` where this declares no such key. Nothing is counted then.
    pub fn known_or<'a>(
        &self,
        plan: &Plan,
        replaced: &mut Replaced,
        attr: Attr<'a>,
        other: ValueRef<'a>,
    ) -> Result<Attr<'a>, Refusal>
        ensures value { result ≡ known_or_in plan.now self.now attr.entry other.entry }
        ensures counted { let value = value_of attr.entry.value in
            let kept = keeps_value_in plan.now self.now attr.entry.key.now value in
            replaced.new ≡ record replaced.old { values = counted_after kept replaced.old.values } }
    {
        let number = self.number_in(plan)?;
        let key = key_at(plan.catalogue().instruments(), number, attr.key)?;
        let value = replaced.known_or(key, attr.value, other);
        Ok(Attr {
            key: attr.key,
            value,
        })
    }

    // The number of the instrument's range that is next to a value. Where the plan has no such instrument it is the value,
    // which no recording takes there.
    pub(crate) fn clamped(&self, plan: &Plan, value: i64) -> i64
        ensures { result ≡ clamped_in plan.now self.now value }
    {
        if self.plan() != plan.fingerprint() {
            return value;
        }
        nearest_at(plan.catalogue().instruments(), self.number(), value)
    }
}

// The instrument of a number.
fn instrument_at(instruments: &[Instrument], number: u32) -> Result<&Instrument, Refusal>
    ensures { result_map_both (λ r. r.now) (λ e. e) result ≡ instrument_at instruments.now number }
{
    instruments
        .get(number as usize)
        .ok_or(Refusal::UnknownInstrument)
}

// The key of a name on the instrument of a number.
fn key_at<'a>(instruments: &'a [Instrument], number: u32, name: &str) -> Result<&'a Key, Refusal>
    ensures { result_map_both (λ r. r.now) (λ e. e) result
        ≡ key_at instruments.now number name.now }
{
    let instrument = instrument_at(instruments, number)?;
    match key_named(instrument.keys.as_slice(), name) {
        Some(key) => Ok(key),
        None => Err(Refusal::UnknownKey),
    }
}

fn key_named<'a>(keys: &'a [Key], name: &str) -> Option<&'a Key>
    ensures { option_copied result ≡ find (is_key name.now) keys.now }
{
    keys.iter().find(|key| key.name.as_str() == name)
}

// The number of the range of the instrument of a number that is next to a value, where there is one.
fn nearest_at(instruments: &[Instrument], number: u32, value: i64) -> i64
    ensures { result ≡ nearest_at instruments.now number value }
{
    match instruments.get(number as usize) {
        Some(instrument) => nearest(instrument, value),
        None => value,
    }
}

// The number of the instrument's range that is next to a value.
fn nearest(instrument: &Instrument, value: i64) -> i64
    ensures { result ≡ nearest instrument.now value }
{
    if value < instrument.lo {
        instrument.lo
    } else if instrument.hi < value {
        instrument.hi
    } else {
        value
    }
}
