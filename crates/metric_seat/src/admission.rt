//! Which recordings a plan declares: what a seat asks before it takes a lock. No call takes memory.
ghost use Rattle.std.specs.Prelude.{◌≡◌, map};
ghost use Rattle.metric_contents.specs.Attributes.{given_by};
ghost use Rattle.metric_seat.specs.KeyRecordings.{declared_key, key_of};
ghost use Rattle.metric_seat.specs.Recordings.{declared_set};

use metric_combinations::permits;
use metric_contents::{Attr, Refusal, SetKey};
use metric_facts::Facts;
use metric_plan::Plan;

/// The set key of a recording that the plan declares, or the first refusal: `UnknownInstrument`, those of the
/// attributes in their order, the last of them `Combination`, and `ValueRange`.
#[inline(always)]
pub(crate) fn declared_set(
    plan: &Plan,
    instrument: u32,
    attrs: &[Attr<'_>],
    value: &i64,
) -> Result<SetKey, Refusal>
    ensures { let given = map given_by attrs.now in
        result ≡ declared_set plan.now instrument given value.now }
{
    if instrument as usize >= plan.all_facts().len() {
        return Err(Refusal::UnknownInstrument);
    }
    let set = plan.catalogue().encode(instrument, attrs)?;
    if !plan.facts(instrument).admits(value) {
        return Err(Refusal::ValueRange);
    }
    Ok(set)
}

/// The same of a set key that a caller brings back: `UnknownInstrument`, `UnknownValue` where it is not one of the
/// instrument's, `Combination` where it is none of its allowed combinations, `ValueRange`.
#[inline(always)]
pub(crate) fn declared_key(
    plan: &Plan,
    instrument: u32,
    set: SetKey,
    value: &i64,
) -> Result<SetKey, Refusal>
    ensures { result ≡ declared_key plan.now instrument set value.now }
{
    if instrument as usize >= plan.all_facts().len() {
        return Err(Refusal::UnknownInstrument);
    }
    key_of(plan.facts(instrument), set, value)
}

// The set key of a recording that an instrument with these facts declares, or the first refusal.
#[inline(always)]
pub(crate) fn key_of(facts: &Facts, set: SetKey, value: &i64) -> Result<SetKey, Refusal>
    ensures { result ≡ key_of facts.now set value.now }
{
    if !facts.takes(&set) {
        return Err(Refusal::UnknownValue);
    }
    if !permits(&facts.allowed, &set) {
        return Err(Refusal::Combination);
    }
    if !facts.admits(value) {
        return Err(Refusal::ValueRange);
    }
    Ok(set)
}
