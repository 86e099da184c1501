//! What the keys of two instruments and their values differ in.
ghost use Rattle.std.specs.Prelude.{◌≡◌, ◌++◌, OnOk, slice_get};
ghost use Rattle.std.specs.List.{enumerate_from, flat_map, list_any, position_from};
ghost use Rattle.std.specs.Option.{option_copied, option_map};
ghost use Rattle.metric_contents.specs.KeyNames.{is_key};
ghost use Rattle.metric_diff.specs.Instruments.{declared_keys, is_turned, key_differences, key_named, key_with, lost_value, value_change};
ghost use Rattle.metric_diff.specs.Placed.{placed_key};

use crate::change::Change;
use crate::each::{Teller, tell_each};
use crate::keys::Way;
use crate::parts::{Numbers, add_when};
use metric_base::Items;
use metric_contents::{Key, Values};
use metric_names::AttrValue;
use std::alloc::AllocError;

/// A key with its number.
#[derive(Clone, Copy)]
pub(crate) struct PlacedKey<'k> {
    pub(crate) number: usize,
    pub(crate) key: &'k Key,
}

// The old keys of an instrument, beside the new ones.
#[derive(Clone, Copy)]
struct OldKeys<'k> {
    of: Numbers,
    others: &'k [Key],
}

// The new keys of an instrument, beside the old ones.
#[derive(Clone, Copy)]
struct NewKeys<'k> {
    of: Numbers,
    keys: &'k [Key],
}

// Values of a key, beside those that it has on the other side.
#[derive(Clone, Copy)]
struct LostValues<'v> {
    way: Way,
    of: Numbers,
    key: usize,
    others: &'v Values,
}

/// Puts last what the keys of two instruments differ in.
pub(crate) fn add_declared_keys(
    changes: &mut Items<Change>,
    of: Numbers,
    keys: &[Key],
    others: &[Key],
) -> Result<(), AllocError>
    ensures { OnOk result (changes.new ≡ changes.old
        ++ declared_keys of.old of.new keys.now others.now) }
{
    tell_each(changes, &OldKeys { of, others }, keys)?;
    tell_each(changes, &NewKeys { of, keys }, others)
}

impl Teller<Key> for OldKeys<'_> {
    ghost use Rattle.metric_diff.specs.Instruments.{old_key};

    ghost told = { λ these key. old_key these.of.old these.of.new these.others.now key };

    fn tell(
        &self,
        changes: &mut Items<Change>,
        number: usize,
        key: &Key,
    ) -> Result<(), AllocError> {
        let found = key_named(self.others, key.name.as_str());
        add_key(changes, self.of, PlacedKey { number, key }, found)
    }
}

// Puts last that a key goes, or what it differs in from the other.
fn add_key(
    changes: &mut Items<Change>,
    of: Numbers,
    key: PlacedKey<'_>,
    found: Option<PlacedKey<'_>>,
) -> Result<(), AllocError>
    ensures { OnOk result (changes.new ≡ changes.old
        ++ key_with of.old of.new (placed_key key.entry) (option_map placed_key found.entry)) }
{
    match found {
        Some(other) => add_key_differences(changes, of, key, other),
        None => {
            changes.push(Change::DeclaredKeyGone {
                old: of.old,
                new: of.new,
                key: key.number,
            })
        }
    }
}

fn add_key_differences(
    changes: &mut Items<Change>,
    of: Numbers,
    one: PlacedKey<'_>,
    other: PlacedKey<'_>,
) -> Result<(), AllocError>
    ensures { OnOk result (changes.new ≡ changes.old
        ++ key_differences of.old of.new (placed_key one.entry) (placed_key other.entry)) }
{
    let turned = Change::KeyTurned {
        old: of.old,
        new: of.new,
        key: one.number,
        other: other.number,
        is_required: one.key.optional,
    };
    let is_turned = is_turned(one.key.optional, other.key.optional);
    add_when(changes, is_turned, turned)?;
    add_lost_values(changes, Way::Gone, of, one, other)?;
    add_lost_values(changes, Way::New, of, other, one)
}

fn is_turned(old: bool, new: bool) -> bool
    ensures { result ≡ is_turned old new }
{
    if old { !new } else { new }
}

// Puts last which values of a key are none of the other's.
fn add_lost_values(
    changes: &mut Items<Change>,
    way: Way,
    of: Numbers,
    one: PlacedKey<'_>,
    other: PlacedKey<'_>,
) -> Result<(), AllocError>
    ensures { OnOk result (changes.new ≡ changes.old
        ++ flat_map (lost_value way of.old of.new one.entry.number other.entry.key.now.values)
        (enumerate_from 0 one.entry.key.now.values)) }
{
    let values = LostValues {
        way,
        of,
        key: one.number,
        others: &other.key.values,
    };
    tell_each(changes, &values, one.key.values.as_slice())
}

impl Teller<AttrValue> for LostValues<'_> {
    ghost use Rattle.metric_diff.specs.Instruments.{lost_value};

    ghost told = { λ these value. lost_value these.way these.of.old these.of.new these.key
        these.others.now value };

    fn tell(
        &self,
        changes: &mut Items<Change>,
        number: usize,
        value: &AttrValue,
    ) -> Result<(), AllocError> {
        let is_known = self.others.number_of(value.as_ref()).is_some();
        let change = value_change(self.way, self.of, self.key, number);
        add_when(changes, !is_known, change)
    }
}

fn value_change(way: Way, of: Numbers, key: usize, value: usize) -> Change
    ensures { result ≡ value_change way of.old of.new key value }
{
    let Numbers { old, new } = of;
    match way {
        Way::Gone => Change::ValueGone {
            old,
            new,
            key,
            value,
        },
        Way::New => Change::ValueNew {
            old,
            new,
            key,
            value,
        },
    }
}

impl Teller<Key> for NewKeys<'_> {
    ghost use Rattle.metric_diff.specs.Instruments.{new_key};

    ghost told = { λ these key. new_key these.of.old these.of.new these.keys.now key };

    fn tell(
        &self,
        changes: &mut Items<Change>,
        number: usize,
        key: &Key,
    ) -> Result<(), AllocError> {
        let change = Change::DeclaredKeyNew {
            old: self.of.old,
            new: self.of.new,
            key: number,
            is_required: !key.optional,
        };
        add_when(changes, !is_declared(self.keys, key.name.as_str()), change)
    }
}

fn is_declared(keys: &[Key], name: &str) -> bool
    ensures { result ≡ list_any (is_key name.now) keys.now }
{
    keys.iter().any(|key| key.name.as_str() == name)
}

// The first key of a name, with its number.
fn key_named<'k>(keys: &'k [Key], name: &str) -> Option<PlacedKey<'k>>
    ensures { option_map placed_key result ≡ key_named keys.entry.now name.now }
{
    let number = place_of(keys, name)?;
    let key = key_at(keys, number)?;
    Some(PlacedKey { number, key })
}

fn place_of(keys: &[Key], name: &str) -> Option<usize>
    ensures { result ≡ position_from (is_key name.now) 0 keys.now }
{
    keys.iter().position(|key| key.name.as_str() == name)
}

fn key_at(keys: &[Key], number: usize) -> Option<&Key>
    ensures { option_copied result ≡ slice_get keys.now number }
{
    keys.get(number)
}
