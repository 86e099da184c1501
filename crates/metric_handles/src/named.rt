//! Handles by names.
ghost use Rattle.std.specs.Prelude.{◌≡◌, ◌<◌, IfSome, length, map, not};
ghost use Rattle.std.specs.List.{list_any, position_from};
ghost use Rattle.metric_contents.specs.declared.contents.Kind.TheVariants as kinds;
ghost use Rattle.metric_contents.specs.KeyNames.{is_key};
ghost use Rattle.metric_views.specs.Selection.{is_kind};
ghost use Rattle.metric_handles.specs.Named.{handle_in, handle_of, is_found, is_meter_named, is_missing, is_named, is_of_meter, is_text, is_undeclared, keys_checked, number_named, number_of_kind, repeated_from, unknown_of};

use crate::fault::{HandleFault, NoHandle};
use crate::handle::{Counter, Gauge, Handle, Histogram, UpDownCounter};
use crate::kinds::OfKind;
use metric_catalogue::Catalogue;
use metric_contents::{Instrument, Key, Kind, Meter};
use metric_plan::Plan;

/// The handle of a counter of this name in a meter of that name, to which the program is going to give attributes of
/// these keys (Metrics API, Counter creation). Instrument names are compared without ASCII case; those of meters and
/// keys exactly, as where views select them.
///
/// Attributes with just these keys, in any order, are then never refused for their keys on this plan
/// ([`compared_keys_are_bound`](crate::compared_keys_are_bound),
/// [`compared_keys_are_recorded`](crate::compared_keys_are_recorded)). A program that leaves one out at times asks with
/// the list without it, too.
///
/// # Errors
///
/// [`NoHandle`] with the first [`HandleFault`], in the order in which it lists them: of the names, of the kind, and of
/// the keys, each tried over the whole list before the next. It says in words which meter, instrument and key it is
/// about. So a catalogue that renames an instrument or a key, takes another kind or
/// declares one more key that may not be left out is refused before anything is recorded, and one in another order
/// makes no difference.
pub fn counter(plan: &Plan, meter: &str, name: &str, keys: &[&str]) -> Result<Counter, NoHandle>
    ensures { let keys = map (λ key. key.now) keys.now in
        is_found result ≡ handle_in plan.now kinds.Counter meter.now name.now keys }
{
    look_up(plan, meter, name, keys)
}

/// The same of an up-down counter (Metrics API, UpDownCounter creation).
///
/// # Errors
///
/// Those of [`counter`].
pub fn up_down_counter(
    plan: &Plan,
    meter: &str,
    name: &str,
    keys: &[&str],
) -> Result<UpDownCounter, NoHandle>
    ensures { let keys = map (λ key. key.now) keys.now in
        is_found result ≡ handle_in plan.now kinds.UpDownCounter meter.now name.now keys }
{
    look_up(plan, meter, name, keys)
}

/// The same of a histogram (Metrics API, Histogram creation).
///
/// # Errors
///
/// Those of [`counter`].
pub fn histogram(plan: &Plan, meter: &str, name: &str, keys: &[&str]) -> Result<Histogram, NoHandle>
    ensures { let keys = map (λ key. key.now) keys.now in
        is_found result ≡ handle_in plan.now kinds.Histogram meter.now name.now keys }
{
    look_up(plan, meter, name, keys)
}

/// The same of a gauge (Metrics API, Gauge creation).
///
/// # Errors
///
/// Those of [`counter`].
pub fn gauge(plan: &Plan, meter: &str, name: &str, keys: &[&str]) -> Result<Gauge, NoHandle>
    ensures { let keys = map (λ key. key.now) keys.now in
        is_found result ≡ handle_in plan.now kinds.Gauge meter.now name.now keys }
{
    look_up(plan, meter, name, keys)
}

// The handle of the instrument that all this is of, or the first fault, with what it is about.
fn look_up<K: OfKind>(
    plan: &Plan,
    meter: &str,
    name: &str,
    keys: &[&str],
) -> Result<Handle<K>, NoHandle>
    ensures { let keys = map (λ key. key.now) keys.now in
        is_found result ≡ handle_in plan.now K.KIND meter.now name.now keys }
{
    match handle_of(plan.catalogue(), K::KIND, meter, name, keys) {
        Ok(number) => Ok(Handle::of(plan, number)),
        Err(fault) => {
            let key = key_of(plan.catalogue(), meter, name, keys, fault);
            Err(NoHandle::new(meter, name, key, fault))
        }
    }
}

// The key that a fault is about.
fn key_of<'a>(
    catalogue: &'a Catalogue,
    meter: &str,
    name: &str,
    keys: &[&'a str],
    fault: HandleFault,
) -> Option<&'a str> {
    match fault {
        HandleFault::RepeatedKey(place) | HandleFault::UnknownKey(place) => {
            keys.get(place).copied()
        }
        HandleFault::MissingKey(place) => {
            let number = number_named(catalogue, meter, name).ok()?;
            let instrument = catalogue.instruments().get(number)?;
            Some(instrument.keys.as_slice().get(place)?.name.as_str())
        }
        _ => None,
    }
}

// The number of the instrument that all this is of, or the first fault.
#[tactic(auto, unfolding(crate::specs::Named::handle_of))]
fn handle_of(
    catalogue: &Catalogue,
    kind: Kind,
    meter: &str,
    name: &str,
    keys: &[&str],
) -> Result<u32, HandleFault>
    ensures { let keys = map (λ key. key.now) keys.now in
        result ≡ handle_of catalogue.now kind meter.now name.now keys }
{
    let number = number_of_kind(catalogue, kind, meter, name)?;
    match catalogue.instruments().get(number as usize) {
        Some(instrument) => {
            keys_checked(instrument.keys.as_slice(), keys)?;
            Ok(number)
        }
        None => Err(HandleFault::UnknownInstrument),
    }
}

// The number of the only instrument of this name in the meters of that name, where it is of the kind.
#[tactic(auto, unfolding(crate::specs::Named::number_of_kind))]
pub(crate) fn number_of_kind(
    catalogue: &Catalogue,
    kind: Kind,
    meter: &str,
    name: &str,
) -> Result<u32, HandleFault>
    ensures { result ≡ number_of_kind catalogue.now kind meter.now name.now }
{
    let number = number_named(catalogue, meter, name)?;
    match catalogue.instruments().get(number) {
        Some(instrument) if is_kind(kind, instrument.kind) => Ok(number as u32),
        Some(instrument) => Err(HandleFault::OtherKind(instrument.kind)),
        None => Err(HandleFault::UnknownInstrument),
    }
}

// The number of the only instrument of this name in the meters of that name.
#[tactic(auto, unfolding(crate::specs::Named::number_named))]
fn number_named(catalogue: &Catalogue, meter: &str, name: &str) -> Result<usize, HandleFault>
    ensures { result ≡ number_named catalogue.now meter.now name.now }
{
    let meters = catalogue.meters();
    let instruments = catalogue.instruments();
    let Some(first) = place_named(meters, instruments, meter, name) else {
        return Err(unknown_of(meters, meter));
    };
    if has_named(meters, &instruments[first + 1..], meter, name) {
        return Err(HandleFault::Ambiguous(first));
    }
    Ok(first)
}

// What is unknown where no instrument has the name.
fn unknown_of(meters: &[Meter], meter: &str) -> HandleFault
    ensures { result ≡ unknown_of meters.now meter.now }
{
    if has_meter(meters, meter) {
        HandleFault::UnknownInstrument
    } else {
        HandleFault::UnknownMeter
    }
}

fn has_meter(meters: &[Meter], name: &str) -> bool
    ensures { result ≡ list_any (is_meter_named name.now) meters.now }
{
    meters.iter().any(|meter| meter.name.as_str() == name)
}

// The place of the first instrument of this name in a meter of that name.
fn place_named(
    meters: &[Meter],
    instruments: &[Instrument],
    meter: &str,
    name: &str,
) -> Option<usize>
    ensures place { result
        ≡ position_from (is_named meters.now meter.now name.now) 0 instruments.now }
    ensures within { IfSome result (λ place. place < length instruments.now) }
{
    instruments
        .iter()
        .position(|instrument| is_named(meters, meter, name, instrument))
}

// Whether there is one.
fn has_named(meters: &[Meter], instruments: &[Instrument], meter: &str, name: &str) -> bool
    ensures { result ≡ list_any (is_named meters.now meter.now name.now) instruments.now }
{
    instruments
        .iter()
        .any(|instrument| is_named(meters, meter, name, instrument))
}

// Whether the instrument has this name, and its meter has that name.
fn is_named(meters: &[Meter], meter: &str, name: &str, instrument: &Instrument) -> bool
    ensures { result ≡ is_named meters.now meter.now name.now instrument.now }
{
    instrument.name.get().as_str().eq_ignore_ascii_case(name)
        && is_of_meter(meters, meter, instrument.meter)
}

// Whether the meter of this number has the name.
fn is_of_meter(meters: &[Meter], name: &str, number: u32) -> bool
    ensures { result ≡ is_of_meter meters.now name.now number }
{
    match meters.get(number as usize) {
        Some(meter) => meter.name.as_str() == name,
        None => false,
    }
}

fn is_kind(kind: Kind, other: Kind) -> bool
    ensures { result ≡ is_kind kind other }
{
    kind == other
}

// Whether the keys are declared, none stands twice and none is missing, or the first fault.
#[tactic(auto, unfolding(crate::specs::Named::keys_checked))]
fn keys_checked(declared: &[Key], keys: &[&str]) -> Result<(), HandleFault>
    ensures { result ≡ keys_checked declared.now (map (λ key. key.now) keys.now) }
{
    if let Some(place) = repeated(keys) {
        return Err(HandleFault::RepeatedKey(place));
    }
    if let Some(place) = undeclared(declared, keys) {
        return Err(HandleFault::UnknownKey(place));
    }
    if let Some(place) = missing(declared, keys) {
        return Err(HandleFault::MissingKey(place));
    }
    Ok(())
}

// The place of the first key that stands again after it. Each key is compared with all after it.
fn repeated(keys: &[&str]) -> Option<usize>
    ensures { result ≡ repeated_from 0 (map (λ key. key.now) keys.now) }
{
    let mut left = keys;
    let mut place = 0;
    while let [first, rest @ ..] = left {
        if is_given(rest, first) {
            return Some(place);
        }
        left = rest;
        place += 1;
    }
    None
}

// The place of the first key that is not declared.
#[tactic(auto, using(crate::proofs::Mapped::maps))]
fn undeclared(declared: &[Key], keys: &[&str]) -> Option<usize>
    ensures { result
        ≡ position_from (is_undeclared declared.now) 0 (map (λ key. key.now) keys.now) }
{
    place_undeclared(declared, keys)
}

fn place_undeclared(declared: &[Key], keys: &[&str]) -> Option<usize>
    ensures { result ≡ position_from (λ key. is_undeclared declared.now key.now) 0 keys.now }
{
    keys.iter().position(|key| is_undeclared(declared, key))
}

fn is_undeclared(declared: &[Key], name: &str) -> bool
    ensures { result ≡ is_undeclared declared.now name.now }
{
    !has_key(declared, name)
}

pub(crate) fn has_key(keys: &[Key], name: &str) -> bool
    ensures { result ≡ list_any (is_key name.now) keys.now }
{
    keys.iter().any(|key| key.name.as_str() == name)
}

// The place of the first declared key that is missing.
fn missing(declared: &[Key], keys: &[&str]) -> Option<usize>
    ensures { result
        ≡ position_from (is_missing (map (λ key. key.now) keys.now)) 0 declared.now }
{
    declared.iter().position(|key| is_missing(keys, key))
}

fn is_missing(keys: &[&str], key: &Key) -> bool
    ensures { result ≡ is_missing (map (λ key. key.now) keys.now) key.now }
{
    !key.optional && !is_given(keys, key.name.as_str())
}

// Whether a key is among these.
#[tactic(auto, using(crate::proofs::Mapped::maps))]
fn is_given(keys: &[&str], name: &str) -> bool
    ensures { result ≡ list_any (is_text name.now) (map (λ key. key.now) keys.now) }
{
    is_some_key(keys, name)
}

fn is_some_key(keys: &[&str], name: &str) -> bool
    ensures { result ≡ list_any (λ key. is_text name.now key.now) keys.now }
{
    keys.iter().any(|key| *key == name)
}
