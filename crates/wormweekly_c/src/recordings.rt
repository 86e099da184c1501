//! Recordings.
ghost use Rattle.std.specs.Prelude.{◌≡◌, ◌≢◌, IsSomeAnd, length, map, Some};
ghost use Rattle.wormweekly_c.specs.Attributes.{attributes_from, looked_at};
ghost use Rattle.wormweekly_c.specs.Codes.{Changes, IsCodeOf, IsCodeOfRead, WhereBoth, instrument_in, instrument_of, recorder_in, recorder_of};
ghost use Rattle.wormweekly_c.specs.Recordings.{AnswersGiven, AnswersKey, RecordsGiven, RecordsKey};
ghost use Rattle.metric_contents.specs.Attributes.{given_by};

use crate::attributes::{Attribute, Unread, all_attributes, few_attributes, looked_at};
use crate::codes::{MEMORY, NO_TEXT, NOT_OPEN, code_of};
use crate::handles::Handle;
use crate::held::Held;
use crate::in_order::encoded_in_order;
use metric_contents::{Attr, SetKey};
use metric_facts::laws::attributes_name_allowed_sets;
use metric_hosted::{Hosted, HostedRecorder};
use std::alloc::Global;

/// Makes a recording of a recorder on an instrument (Metrics API, synchronous instruments). Of more than 65 attributes
/// the first 65 are looked at, and refused.
#[unsafe(no_mangle)]
pub extern "C" fn wormweekly_record(
    alloc: Global,
    instrument: &mut Handle,
    recorder: &mut Handle,
    texts: &[u8],
    given: &[Attribute],
    value: i64,
) -> u32
    ensures answer { let given = looked_at given.now in
        let read = attributes_from given texts.now in
        WhereBoth (instrument_in instrument.old) (recorder_in recorder.old) (result ≡ 100) (λ h own.
        IsCodeOfRead (length given) read (λ attrs. AnswersGiven attrs value h own) result) }
    ensures done { let read = attributes_from (looked_at given.now) texts.now in
        result ≡ 0 → IsSomeAnd read (λ attrs.
        Changes (instrument_in instrument.old) (instrument_in instrument.new)
        (recorder_in recorder.old) (recorder_in recorder.new) (RecordsGiven attrs value)) }
    ensures instrument { result ≢ 0 → instrument.new.value ≡ instrument.old.value }
    ensures recorder { result ≢ 0 → recorder.new.value ≡ recorder.old.value }
{
    let Some(mut held) = instrument.take(alloc) else {
        return NOT_OPEN;
    };
    let Some(mut own) = recorder.take(alloc) else {
        instrument.put(alloc, Some(held));
        return NOT_OPEN;
    };
    let code = record_held(alloc, &mut held, &mut own, texts, looked_at(given), value);
    recorder.put(alloc, Some(own));
    instrument.put(alloc, Some(held));
    code
}

fn record_held(
    alloc: Global,
    held: &mut Held,
    own: &mut Held,
    texts: &[u8],
    given: &[Attribute],
    value: i64,
) -> u32
    ensures answer { let read = attributes_from given.now texts.now in
        WhereBoth (instrument_of (Some held.old)) (recorder_of (Some own.old))
        (result ≡ 100) (λ h own.
        IsCodeOfRead (length given.now) read (λ attrs. AnswersGiven attrs value h own) result) }
    ensures done { let read = attributes_from given.now texts.now in
        result ≡ 0 → IsSomeAnd read (λ attrs.
        Changes (instrument_of (Some held.old)) (instrument_of (Some held.new))
        (recorder_of (Some own.old)) (recorder_of (Some own.new)) (RecordsGiven attrs value)) }
    ensures instrument { result ≢ 0 → held.new ≡ held.old }
    ensures recorder { result ≢ 0 → own.new ≡ own.old }
{
    match (held, own) {
        (Held::Instrument(held), Held::Recorder(own)) => {
            record_given(alloc, held, own, texts, given, value)
        }
        _ => NOT_OPEN,
    }
}

// Finds the set key of the attributes, and makes the recording.
fn record_given(
    alloc: Global,
    held: &mut Hosted,
    own: &mut HostedRecorder,
    texts: &[u8],
    given: &[Attribute],
    value: i64,
) -> u32
    ensures answer { IsCodeOfRead (length given.now) (attributes_from given.now texts.now)
        (λ attrs. AnswersGiven attrs value held.old own.old) result }
    ensures done { result ≡ 0 → IsSomeAnd (attributes_from given.now texts.now) (λ attrs.
        RecordsGiven attrs value held.old held.new own.old own.new) }
    ensures instrument { result ≢ 0 → held.new ≡ held.old }
    ensures recorder { result ≢ 0 → own.new ≡ own.old }
{
    // For the proof alone: what attributes name is an allowed set of the instrument.
    attributes_name_allowed_sets();
    let plan = own.plan.get();
    let _ = plan.catalogue();
    match encoded_in_order(plan, held.number(), texts, given) {
        Some(set) => record_key(held, own, set, value),
        None => record_listed(alloc, held, own, texts, given, value),
    }
}

// The same by way of a list of them, of which eight allocate no memory. A call of its own, so that the room for that
// list is paid for by those that need it.
#[inline(never)]
fn record_listed(
    alloc: Global,
    held: &mut Hosted,
    own: &mut HostedRecorder,
    texts: &[u8],
    given: &[Attribute],
    value: i64,
) -> u32
    ensures answer { IsCodeOfRead (length given.now) (attributes_from given.now texts.now)
        (λ attrs. AnswersGiven attrs value held.old own.old) result }
    ensures done { result ≡ 0 → IsSomeAnd (attributes_from given.now texts.now) (λ attrs.
        RecordsGiven attrs value held.old held.new own.old own.new) }
    ensures instrument { result ≢ 0 → held.new ≡ held.old }
    ensures recorder { result ≢ 0 → own.new ≡ own.old }
{
    if given.len() <= 8 {
        let few = few_attributes(texts, given);
        if !few.are_read {
            return NO_TEXT;
        }
        record_attributes(held, own, &few.all[..given.len()], value)
    } else {
        match all_attributes(alloc, texts, given) {
            Err(Unread::NoText) => NO_TEXT,
            Err(Unread::Memory) => MEMORY,
            Ok(attrs) => record_attributes(held, own, attrs.as_slice(), value),
        }
    }
}

fn record_attributes(
    held: &mut Hosted,
    own: &mut HostedRecorder,
    attrs: &[Attr<'_>],
    value: i64,
) -> u32
    ensures answer { let attrs = map given_by attrs.now in
        IsCodeOf (AnswersGiven attrs value held.old own.old) result }
    ensures done { let attrs = map given_by attrs.now in
        result ≡ 0 → RecordsGiven attrs value held.old held.new own.old own.new }
    ensures instrument { result ≢ 0 → held.new ≡ held.old }
    ensures recorder { result ≢ 0 → own.new ≡ own.old }
{
    let HostedRecorder { plan, seat } = own;
    let answer = held.record(plan.get(), seat, attrs, value);
    code_of(&answer)
}

/// Makes a recording of a set key.
pub(crate) fn record_key(
    held: &mut Hosted,
    own: &mut HostedRecorder,
    set: SetKey,
    value: i64,
) -> u32
    ensures answer { IsCodeOf (AnswersKey set value held.old own.old) result }
    ensures done { result ≡ 0 → RecordsKey set value held.old held.new own.old own.new }
    ensures instrument { result ≢ 0 → held.new ≡ held.old }
    ensures recorder { result ≢ 0 → own.new ≡ own.old }
{
    let HostedRecorder { plan, seat } = own;
    let answer = held.record_set(plan.get(), seat, set, value);
    code_of(&answer)
}
