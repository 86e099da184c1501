//! Set keys of attributes that stand in the order of their keys, found in one pass over their texts.
ghost use Rattle.std.specs.Prelude.{◌≡◌, ◌≤◌, length, All, IfSome, IsSomeAnd, MatchOption};
ghost use Rattle.metric_contents.specs.Encoding.{encode_of, set_of};
ghost use Rattle.metric_contents.specs.InOrder.{AreKeysApart};
ghost use Rattle.wormweekly_c.specs.Attributes.{attributes_from, text_first};
ghost use Rattle.wormweekly_c.specs.InOrder.{IsOtherName, TakesEntry, TakesValue};

use crate::attributes::{Attribute, text_of, value_of};
use metric_combinations::permits;
use metric_contents::{Instrument, Key, SetKey};
use metric_names::ValueRef;
use metric_plan::Plan;

/// The set key of attributes for the instrument of this number, where they stand in the order of its keys; nothing
/// where they do not, or where there is something to refuse. Each key is compared with the declared name, and no list
/// of attributes is made. Allocates no memory.
pub(crate) fn encoded_in_order(
    plan: &Plan,
    instrument: u32,
    texts: &[u8],
    given: &[Attribute],
) -> Option<SetKey>
    ensures { let instruments = plan.now.facts.contents.instruments in
        IfSome result (λ set. IsSomeAnd (attributes_from given.now texts.now) (λ attrs.
        encode_of instruments instrument attrs ≡ Ok set)) }
{
    allowed_in_order(plan.catalogue().instruments(), instrument, texts, given)
}

fn allowed_in_order(
    instruments: &[Instrument],
    instrument: u32,
    texts: &[u8],
    given: &[Attribute],
) -> Option<SetKey>
    requires { All (λ own. AreKeysApart own.keys) instruments.now }
    ensures { IfSome result (λ set. IsSomeAnd (attributes_from given.now texts.now) (λ attrs.
        encode_of instruments.now instrument attrs ≡ Ok set)) }
{
    let own = instruments.get(instrument as usize)?;
    let set = set_in_order(own.keys.as_slice(), texts, given)?;
    if permits(&own.allowed, &set) {
        Some(set)
    } else {
        None
    }
}

// The set key of attributes that stand in the order of these keys.
fn set_in_order(keys: &[Key], texts: &[u8], given: &[Attribute]) -> Option<SetKey>
    requires few { length keys.now ≤ 8 }
    requires apart { AreKeysApart keys.now }
    ensures { IfSome result (λ set. IsSomeAnd (attributes_from given.now texts.now) (λ attrs.
        set_of keys.now attrs ≡ Ok set)) }
{
    let mut set = [0; 8];
    let mut left = given;
    let mut rest = texts;
    for (place, key) in keys.iter().enumerate() {
        let (entry, others, after) = entry_in_order(key, rest, left)?;
        set[place] = entry;
        left = others;
        rest = after;
    }
    if left.is_empty() { Some(set) } else { None }
}

// The entry of a key, whose attribute stands first where it has one, and the attributes and texts that are left.
fn entry_in_order<'a, 'b>(
    key: &Key,
    texts: &'a [u8],
    given: &'b [Attribute],
) -> Option<(u16, &'b [Attribute], &'a [u8])>
    ensures { IfSome result (λ taken.
        TakesEntry key.now texts.now given.now taken.0 taken.1.now taken.2.now) }
{
    let Some((own, others)) = given.split_first() else {
        return key.optional.then_some((0, given, texts));
    };
    match after_name(key.name.as_str(), texts, own.key) {
        Some(rest) => {
            let (entry, rest) = entry_first(key, rest, own)?;
            Some((entry, others, rest))
        }
        None => key.optional.then_some((0, given, texts)),
    }
}

// What is left after this name, where it is the text of so many bytes that stands first.
fn after_name<'a>(name: &str, texts: &'a [u8], length: usize) -> Option<&'a [u8]>
    ensures { let first = text_first length texts.now in
        MatchOption result (IsOtherName name.now first) (λ rest.
        first ≡ Some (name.now, rest.now)) }
{
    if length > texts.len() {
        return None;
    }
    let (first, rest) = texts.split_at(length);
    if first == name.as_bytes() {
        Some(rest)
    } else {
        None
    }
}

// The entry of a key that is given the value that stands first, and the texts that are left.
fn entry_first<'a>(key: &Key, texts: &'a [u8], own: &Attribute) -> Option<(u16, &'a [u8])>
    ensures { IfSome result (λ taken.
        TakesValue key.now texts.now own.now taken.0 taken.1.now) }
{
    if own.kind == 0 {
        let (text, rest) = text_of(texts, own.text)?;
        let number = key.values.number_of(ValueRef::Text(text))?;
        return Some((number + 1, rest));
    }
    let number = key.values.number_of(value_of(own)?)?;
    Some((number + 1, texts))
}
