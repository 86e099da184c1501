//! The set key that attributes name.
ghost use Rattle.std.specs.Prelude.{◌≡◌, ◌≤◌, None, Some, false, find, if◌then◌else◌, length, map, true, vec_capacity};
ghost use Rattle.std.specs.List.{All, list_all, list_any};
ghost use Rattle.std.specs.Option.{option_copied, option_map};
ghost use Rattle.metric_names.specs.Values.{value_of};
ghost use Rattle.metric_contents.specs.Attributes.{given_by_owned};
ghost use Rattle.metric_contents.specs.ByKeys.{is_allowed};
ghost use Rattle.metric_contents.specs.Encoding.{IgnoresOrder, encode_of, entry_at, entry_with, has_declared_value, has_repeated_key, is_complete, is_declared, is_of, permitted, set_key, set_of};
ghost use Rattle.metric_contents.specs.InOrder.{AreKeysApart, entry_in_order, set_in_order};
ghost use Rattle.metric_contents.specs.KeyNames.{is_key};

use crate::attributes::{Attribute, OwnedAttr};
use crate::contents::{Instrument, Key};
use crate::packed::same_text;
use crate::refusal::Refusal;
use crate::repeats::{has_repeated_key, has_repeated_key_with_room, is_given};
use metric_combinations::permits;
use metric_names::ValueRef;

/// For each declared key 0 where it is absent, else one plus the number of its value; 0 in the places
/// that are left.
pub type SetKey = [u16; 8];

/// The set key of attributes for the instrument of this number, or the first refusal. Allocates no memory.
#[tactic(auto, unfolding(crate::specs::Encoding::encode_of, crate::specs::Encoding::allowed_set))]
#[inline(always)]
pub fn encode_of<A: Attribute>(
    instruments: &[Instrument],
    instrument: u32,
    attrs: &[A],
) -> Result<SetKey, Refusal>
    requires { All (λ instrument. AreKeysApart instrument.keys) instruments.now }
    ensures { result ≡ encode_of instruments.now instrument (map A.given attrs.now) }
{
    match instruments.get(instrument as usize) {
        Some(instrument) => {
            let set = set_of(instrument.keys.as_slice(), attrs)?;
            allowed(instrument, set)
        }
        None => Err(Refusal::UnknownInstrument),
    }
}

/// The order of attributes makes no difference: in another order they name the same set key, or get the
/// same refusal. The contract of this function is that law; it does nothing.
pub fn encode_ignores_order()
    ensures { IgnoresOrder }
{}

/// The same by way of a room that holds as many keys as there are attributes.
#[tactic(auto, unfolding(crate::specs::Encoding::encode_of, crate::specs::Encoding::allowed_set))]
pub fn encode_with_room<'a>(
    instruments: &[Instrument],
    instrument: u32,
    attrs: &'a [OwnedAttr],
    room: &mut Vec<&'a str>,
) -> Result<SetKey, Refusal>
    requires apart { All (λ instrument. AreKeysApart instrument.keys) instruments.now }
    requires room { length attrs.now ≤ vec_capacity room.old }
    ensures exact { result ≡ encode_of instruments.now instrument (map given_by_owned attrs.now) }
    ensures room { vec_capacity room.new ≡ vec_capacity room.old }
{
    match instruments.get(instrument as usize) {
        Some(instrument) => {
            let set = set_with_room(instrument.keys.as_slice(), attrs, room)?;
            allowed(instrument, set)
        }
        None => Err(Refusal::UnknownInstrument),
    }
}

// A set key that the instrument allows.
#[inline(always)]
fn allowed(instrument: &Instrument, set: SetKey) -> Result<SetKey, Refusal>
    ensures { result ≡ permitted instrument.now.allowed set }
{
    if permits(&instrument.allowed, &set) {
        Ok(set)
    } else {
        Err(Refusal::Combination)
    }
}

// The usual order is tried first; then which keys are declared, since attributes of declared keys alone
// soon repeat one.
#[tactic(auto, unfolding(crate::specs::Encoding::set_of))]
#[inline(always)]
fn set_of<A: Attribute>(keys: &[Key], attrs: &[A]) -> Result<SetKey, Refusal>
    requires few { length keys.now ≤ 8 }
    requires apart { AreKeysApart keys.now }
    ensures { result ≡ set_of keys.now (map A.given attrs.now) }
{
    if let Some(set) = set_in_order(keys, attrs) {
        return Ok(set);
    }
    if are_declared(keys, attrs) {
        return set_of_declared(keys, attrs);
    }
    if has_repeated_key(attrs) {
        return Err(Refusal::DuplicateKey);
    }
    Err(Refusal::UnknownKey)
}

#[tactic(auto, unfolding(crate::specs::Encoding::set_of))]
fn set_with_room<'a>(
    keys: &[Key],
    attrs: &'a [OwnedAttr],
    room: &mut Vec<&'a str>,
) -> Result<SetKey, Refusal>
    requires few { length keys.now ≤ 8 }
    requires apart { AreKeysApart keys.now }
    requires room { length attrs.now ≤ vec_capacity room.old }
    ensures exact { result ≡ set_of keys.now (map given_by_owned attrs.now) }
    ensures room { vec_capacity room.new ≡ vec_capacity room.old }
{
    if let Some(set) = set_in_order(keys, attrs) {
        return Ok(set);
    }
    if are_declared(keys, attrs) {
        return set_of_declared(keys, attrs);
    }
    if has_repeated_key_with_room(attrs, room) {
        return Err(Refusal::DuplicateKey);
    }
    Err(Refusal::UnknownKey)
}

// The set key of attributes that stand in the order of their keys, as they mostly do: one pass finds it.
// Nothing where they do not, or where there is a refusal to tell.
#[tactic(auto, unfolding(crate::specs::InOrder::set_in_order))]
#[inline(always)]
fn set_in_order<A: Attribute>(keys: &[Key], attrs: &[A]) -> Option<SetKey>
    requires { length keys.now ≤ 8 }
    ensures { result ≡ set_in_order keys.now (map A.given attrs.now) }
{
    let mut set = [0; 8];
    let mut left = attrs;
    for (place, key) in keys.iter().enumerate() {
        let (entry, rest) = entry_in_order(key, left)?;
        set[place] = entry;
        left = rest;
    }
    left.is_empty().then_some(set)
}

// The entry of a key, whose attribute stands first where it has one, and the attributes that are left.
#[inline(always)]
fn entry_in_order<'a, A: Attribute>(key: &Key, attrs: &'a [A]) -> Option<(u16, &'a [A])>
    ensures { option_map (λ taken. (taken.0, map A.given taken.1.now)) result
        ≡ entry_in_order key.now (map A.given attrs.now) }
{
    if let Some((attr, rest)) = attrs.split_first() {
        if same_text(attr.key(), key.name.as_str()) {
            return Some((entry_with(key, attr.value())?, rest));
        }
    }
    key.optional.then_some((0, attrs))
}

// The set key of attributes whose keys are all declared, or the first refusal.
#[tactic(auto, unfolding(crate::specs::Encoding::set_of))]
#[inline(never)]
fn set_of_declared<A: Attribute>(keys: &[Key], attrs: &[A]) -> Result<SetKey, Refusal>
    requires keys { length keys.now ≤ 8 }
    requires declared { list_all (is_declared keys.now) (map A.given attrs.now) ≡ true }
    ensures { result ≡ set_of keys.now (map A.given attrs.now) }
{
    if has_repeated_key(attrs) {
        return Err(Refusal::DuplicateKey);
    }
    let set = set_key(keys, attrs).ok_or(Refusal::UnknownValue)?;
    if !are_complete(keys, attrs) {
        return Err(Refusal::MissingKey);
    }
    Ok(set)
}

// Whether each key is declared.
#[tactic(auto, using(crate::proofs::Mapped::maps))]
#[inline(never)]
fn are_declared<A: Attribute>(keys: &[Key], attrs: &[A]) -> bool
    ensures { result ≡ list_all (is_declared keys.now) (map A.given attrs.now) }
{
    all_declared(keys, attrs)
}

fn all_declared<A: Attribute>(keys: &[Key], attrs: &[A]) -> bool
    ensures { result ≡ list_all (λ a. is_declared keys.now (A.given a)) attrs.now }
{
    attrs.iter().all(|attr| is_declared(keys, attr))
}

fn is_declared<A: Attribute>(keys: &[Key], attr: &A) -> bool
    ensures { result ≡ is_declared keys.now (A.given attr.now) }
{
    has_key(keys, attr.key())
}

fn has_key(keys: &[Key], name: &str) -> bool
    ensures { result ≡ list_any (is_key name.now) keys.now }
{
    keys.iter().any(|key| key.name.as_str() == name)
}

// Whether each key is given or may be left out.
fn are_complete<A: Attribute>(keys: &[Key], attrs: &[A]) -> bool
    ensures { result ≡ list_all (is_complete (map A.given attrs.now)) keys.now }
{
    keys.iter().all(|key| is_complete(key, attrs))
}

fn is_complete<A: Attribute>(key: &Key, attrs: &[A]) -> bool
    ensures { result ≡ is_complete (map A.given attrs.now) key.now }
{
    key.optional || is_given(attrs, key.name.as_str())
}

// The set key of attributes, or nothing where some value is not declared for its key.
fn set_key<A: Attribute>(keys: &[Key], attrs: &[A]) -> Option<SetKey>
    requires keys { length keys.now ≤ 8 }
    requires distinct { has_repeated_key (map A.given attrs.now) ≡ false }
    ensures { result ≡ (if list_all (has_declared_value keys.now) (map A.given attrs.now)
        then Some (set_key keys.now (map A.given attrs.now)) else None) }
{
    entries_of(keys, attrs)
}

// The entry of each key, or nothing where some key does not declare the value that it is given.
fn entries_of<A: Attribute>(keys: &[Key], attrs: &[A]) -> Option<SetKey>
    requires { length keys.now ≤ 8 }
    ensures { result ≡ (if list_all (is_allowed (map A.given attrs.now)) keys.now
        then Some (set_key keys.now (map A.given attrs.now)) else None) }
{
    let mut set = [0; 8];
    for (place, key) in keys.iter().enumerate() {
        set[place] = entry_at(key, attrs)?;
    }
    Some(set)
}

// The entry of a key, or nothing where it does not declare the value that it is given.
#[tactic(auto, using(crate::proofs::Mapped::maps))]
fn entry_at<A: Attribute>(key: &Key, attrs: &[A]) -> Option<u16>
    ensures { result ≡ entry_at (map A.given attrs.now) key.now }
{
    match attr_named(attrs, key.name.as_str()) {
        Some(attr) => entry_with(key, attr.value()),
        None => Some(0),
    }
}

#[inline(always)]
fn entry_with(key: &Key, value: ValueRef<'_>) -> Option<u16>
    ensures { result ≡ entry_with key.now (value_of value.entry) }
{
    let number = key.values.number_of(value)?;
    Some(number + 1)
}

fn attr_named<'a, A: Attribute>(attrs: &'a [A], name: &str) -> Option<&'a A>
    ensures { option_copied result ≡ find (λ a. is_of name.now (A.given a)) attrs.now }
{
    attrs.iter().find(|attr| attr.key() == name)
}
