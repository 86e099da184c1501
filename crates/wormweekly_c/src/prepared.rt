//! Recordings of set keys that were prepared.
ghost use Rattle.std.specs.Prelude.{◌≡◌, ◌≢◌, Some, length, map};
ghost use Rattle.wormweekly_c.specs.Attributes.{attributes_from, looked_at};
ghost use Rattle.wormweekly_c.specs.Codes.{Changes, IsCodeOf, WhereBoth, WhereHeld, instrument_in, instrument_of, recorder_in, recorder_of};
ghost use Rattle.wormweekly_c.specs.Prepared.{IsEncoded, IsPrepared, RecordsList};
ghost use Rattle.wormweekly_c.specs.Recordings.{AnswersKey, RecordsKey};
ghost use Rattle.metric_contents.specs.Attributes.{given_by};
ghost use Rattle.metric_contents.specs.Encoding.{encode_of};

use crate::attributes::{Attribute, Unread, all_attributes, few_attributes, looked_at};
use crate::codes::{DONE, MEMORY, NO_TEXT, NOT_OPEN};
use crate::handles::Handle;
use crate::held::Held;
use crate::in_order::encoded_in_order;
use crate::recordings::record_key;
use metric_contents::Attr;
use metric_hosted::{Hosted, HostedRecorder, Measurement};
use std::alloc::Global;

/// Finds the set key of attributes for the instrument of a number, and writes it; the value stays. Nothing else
/// changes.
#[unsafe(no_mangle)]
pub extern "C" fn wormweekly_prepare(
    alloc: Global,
    recorder: &mut Handle,
    instrument: u32,
    texts: &[u8],
    given: &[Attribute],
    prepared: &mut Measurement,
) -> u32
    ensures answer { let given = looked_at given.now in
        let read = attributes_from given texts.now in
        WhereHeld (recorder_in recorder.old) (result ≡ 100) (λ own.
        IsPrepared own.plan instrument (length given) read result prepared.new.set) }
    ensures refused { result ≢ 0 → prepared.new ≡ prepared.old }
    ensures value { prepared.new.value ≡ prepared.old.value }
    ensures recorder { recorder.new.value ≡ recorder.old.value }
{
    let held = recorder.take(alloc);
    let code = match held.as_deref() {
        Some(Held::Recorder(own)) => prepare_given(
            alloc,
            own,
            instrument,
            texts,
            looked_at(given),
            prepared,
        ),
        _ => NOT_OPEN,
    };
    recorder.put(alloc, held);
    code
}

// Reads the attributes, and writes their set key.
fn prepare_given(
    alloc: Global,
    own: &HostedRecorder,
    instrument: u32,
    texts: &[u8],
    given: &[Attribute],
    prepared: &mut Measurement,
) -> u32
    ensures answer { let read = attributes_from given.now texts.now in
        IsPrepared own.now.plan instrument (length given.now) read result prepared.new.set }
    ensures refused { result ≢ 0 → prepared.new ≡ prepared.old }
    ensures value { prepared.new.value ≡ prepared.old.value }
{
    match encoded_in_order(own.plan.get(), instrument, texts, given) {
        Some(set) => {
            prepared.set = set;
            DONE
        }
        None => prepare_listed(alloc, own, instrument, texts, given, prepared),
    }
}

// The same by way of a list of them, of which eight allocate no memory. A call of its own, so that the room for that
// list is paid for by those that need it.
#[inline(never)]
fn prepare_listed(
    alloc: Global,
    own: &HostedRecorder,
    instrument: u32,
    texts: &[u8],
    given: &[Attribute],
    prepared: &mut Measurement,
) -> u32
    ensures answer { let read = attributes_from given.now texts.now in
        IsPrepared own.now.plan instrument (length given.now) read result prepared.new.set }
    ensures refused { result ≢ 0 → prepared.new ≡ prepared.old }
    ensures value { prepared.new.value ≡ prepared.old.value }
{
    if given.len() <= 8 {
        let few = few_attributes(texts, given);
        if !few.are_read {
            return NO_TEXT;
        }
        prepare_attributes(own, instrument, &few.all[..given.len()], prepared)
    } else {
        match all_attributes(alloc, texts, given) {
            Err(Unread::NoText) => NO_TEXT,
            Err(Unread::Memory) => MEMORY,
            Ok(attrs) => prepare_attributes(own, instrument, attrs.as_slice(), prepared),
        }
    }
}

fn prepare_attributes(
    own: &HostedRecorder,
    instrument: u32,
    attrs: &[Attr<'_>],
    prepared: &mut Measurement,
) -> u32
    ensures answer { let attrs = map given_by attrs.now in
        IsEncoded (encode_of own.now.plan.facts.contents.instruments instrument attrs)
        result prepared.new.set }
    ensures refused { result ≢ 0 → prepared.new ≡ prepared.old }
    ensures value { prepared.new.value ≡ prepared.old.value }
{
    match own.seat.prepare(own.plan.get(), instrument, attrs) {
        Ok(set) => {
            prepared.set = set;
            DONE
        }
        Err(refusal) => u32::from(refusal.number()),
    }
}

/// Makes a recording of a set key that [`wormweekly_prepare`] wrote for the instrument, and of the value beside it.
#[unsafe(no_mangle)]
pub extern "C" fn wormweekly_record_prepared(
    alloc: Global,
    instrument: &mut Handle,
    recorder: &mut Handle,
    prepared: &Measurement,
) -> u32
    ensures answer { let set = prepared.now.set in let value = prepared.now.value in
        WhereBoth (instrument_in instrument.old) (recorder_in recorder.old)
        (result ≡ 100) (λ h own. IsCodeOf (AnswersKey set value h own) result) }
    ensures done { result ≡ 0
        → Changes (instrument_in instrument.old) (instrument_in instrument.new)
        (recorder_in recorder.old) (recorder_in recorder.new)
        (RecordsKey prepared.now.set prepared.now.value) }
    ensures instrument { result ≢ 0 → instrument.new.value ≡ instrument.old.value }
    ensures recorder { result ≢ 0 → recorder.new.value ≡ recorder.old.value }
{
    let Some(mut held) = instrument.take(alloc) else {
        return NOT_OPEN;
    };
    let Some(mut own) = recorder.take(alloc) else {
        instrument.put(alloc, Some(held));
        return NOT_OPEN;
    };
    let code = record_one(&mut held, &mut own, prepared);
    recorder.put(alloc, Some(own));
    instrument.put(alloc, Some(held));
    code
}

fn record_one(held: &mut Held, own: &mut Held, prepared: &Measurement) -> u32
    ensures answer { let set = prepared.now.set in let value = prepared.now.value in
        WhereBoth (instrument_of (Some held.old)) (recorder_of (Some own.old))
        (result ≡ 100) (λ h own. IsCodeOf (AnswersKey set value h own) result) }
    ensures done { result ≡ 0
        → Changes (instrument_of (Some held.old)) (instrument_of (Some held.new))
        (recorder_of (Some own.old)) (recorder_of (Some own.new))
        (RecordsKey prepared.now.set prepared.now.value) }
    ensures instrument { result ≢ 0 → held.new ≡ held.old }
    ensures recorder { result ≢ 0 → own.new ≡ own.old }
{
    match (held, own) {
        (Held::Instrument(held), Held::Recorder(own)) => {
            record_key(held, own, prepared.set, prepared.value)
        }
        _ => NOT_OPEN,
    }
}

/// Makes the recordings of a list, one after the other, up to the first that is refused, and writes how many were made.
#[unsafe(no_mangle)]
pub extern "C" fn wormweekly_record_list(
    alloc: Global,
    instrument: &mut Handle,
    recorder: &mut Handle,
    list: &[Measurement],
    made: &mut usize,
) -> u32
    ensures { let held = instrument.new in let own = recorder.new in
        WhereBoth (instrument_in instrument.old) (recorder_in recorder.old)
        ((result ≡ 100) × (made.new ≡ 0)
        × (held.value ≡ instrument.old.value) × (own.value ≡ recorder.old.value))
        (λ old before. Changes (Some old) (instrument_in held) (Some before) (recorder_in own)
        (RecordsList list.now made.new result)) }
{
    *made = 0;
    let Some(mut held) = instrument.take(alloc) else {
        return NOT_OPEN;
    };
    let Some(mut own) = recorder.take(alloc) else {
        instrument.put(alloc, Some(held));
        return NOT_OPEN;
    };
    let code = record_all(&mut held, &mut own, list, made);
    recorder.put(alloc, Some(own));
    instrument.put(alloc, Some(held));
    code
}

fn record_all(held: &mut Held, own: &mut Held, list: &[Measurement], made: &mut usize) -> u32
    ensures { WhereBoth (instrument_of (Some held.old)) (recorder_of (Some own.old))
        ((result ≡ 100) × (made.new ≡ made.old) × (held.new ≡ held.old) × (own.new ≡ own.old))
        (λ old before. Changes (Some old) (instrument_of (Some held.new))
        (Some before) (recorder_of (Some own.new)) (RecordsList list.now made.new result)) }
{
    match (held, own) {
        (Held::Instrument(held), Held::Recorder(own)) => record_known(held, own, list, made),
        _ => NOT_OPEN,
    }
}

fn record_known(
    held: &mut Hosted,
    own: &mut HostedRecorder,
    list: &[Measurement],
    made: &mut usize,
) -> u32
    ensures { RecordsList list.now made.new result held.old held.new own.old own.new }
{
    let HostedRecorder { plan, seat } = own;
    match held.record_sets(plan.get(), seat, list) {
        Ok(()) => {
            *made = list.len();
            DONE
        }
        Err(stop) => {
            *made = stop.place;
            u32::from(stop.refusal.number())
        }
    }
}
