//! The value of one point in a list of batches, for tests of a service.
ghost use Rattle.std.specs.Prelude.{◌≡◌, find, map};
ghost use Rattle.std.specs.List.{list_all, list_any};
ghost use Rattle.std.specs.Option.{option_copied};
ghost use Rattle.std.specs.Str.{bytes_eq};
ghost use Rattle.metric_contents.specs.Attributes.{given_by};
ghost use Rattle.metric_contents.specs.Encoding.{entry_at, entry_with, has_repeated_key, is_declared, is_of};
ghost use Rattle.metric_names.specs.Names.{folded};
ghost use Rattle.metric_names.specs.Values.{value_of as given_value};
ghost use Rattle.metric_handles.specs.Found.{has_name, have_entries, is_entry, is_exactly, is_point, is_stream_named, value_at, value_in, value_in_streams, value_of};

use crate::named::has_key;
use metric_aggregate::PointValue;
use metric_contents::{Attr, Key};
use metric_history::{Batch, Point, StreamPoints};
use metric_names::ValueRef;
use metric_plan::Plan;
use metric_views::Stream;

/// The value of the point of the stream of this name with exactly these attributes, in any order, in the last of these
/// batches that has it; nothing where none has. Names are compared without ASCII case, and the attributes are those
/// that the stream keeps. In one batch the first stream of the name is looked at; two readers that export one name are
/// told apart by their batches alone. Overflow points are not found, nor is anything in a batch of another plan. It
/// goes over all batches: it is for tests of a service.
pub fn value_of<'a>(
    plan: &Plan,
    batches: &'a [Batch],
    name: &str,
    attrs: &[Attr<'_>],
) -> Option<&'a PointValue>
    ensures { option_copied result
        ≡ value_of plan.now name.now (map given_by attrs.now) batches.now }
{
    let mut left = batches;
    let mut found = None;
    while let [first, rest @ ..] = left {
        let value = value_in(plan, first, name, attrs);
        if value.is_some() {
            found = value;
        }
        left = rest;
    }
    found
}

// The same in one batch of the plan.
fn value_in<'a>(
    plan: &Plan,
    batch: &'a Batch,
    name: &str,
    attrs: &[Attr<'_>],
) -> Option<&'a PointValue>
    ensures { option_copied result
        ≡ value_in plan.now name.now (map given_by attrs.now) batch.now }
{
    if batch.plan != plan.fingerprint() {
        return None;
    }
    let instrument = plan
        .catalogue()
        .instruments()
        .get(batch.instrument as usize)?;
    let keys = instrument.keys.as_slice();
    value_in_streams(plan, keys, batch.streams.as_slice(), name, attrs)
}

// The same in the first stream of this name.
fn value_in_streams<'a>(
    plan: &Plan,
    keys: &[Key],
    streams: &'a [StreamPoints],
    name: &str,
    attrs: &[Attr<'_>],
) -> Option<&'a PointValue>
    ensures { option_copied result
        ≡ value_in_streams plan.now name.now keys.now (map given_by attrs.now) streams.now }
{
    let stream = stream_named(plan, streams, name)?;
    value_at(keys, stream.points.as_slice(), attrs)
}

fn stream_named<'a>(
    plan: &Plan,
    streams: &'a [StreamPoints],
    name: &str,
) -> Option<&'a StreamPoints>
    ensures { option_copied result ≡ find (is_stream_named plan.now name.now) streams.now }
{
    streams
        .iter()
        .find(|stream| is_stream_named(plan, name, stream))
}

// The value of the point of these attributes.
fn value_at<'a>(keys: &[Key], points: &'a [Point], attrs: &[Attr<'_>]) -> Option<&'a PointValue>
    ensures { option_copied result ≡ value_at keys.now (map given_by attrs.now) points.now }
{
    let point = points.iter().find(|point| is_point(keys, attrs, point))?;
    Some(&point.value)
}

// Whether the stream of a number has this name.
fn is_stream_named(plan: &Plan, name: &str, points: &StreamPoints) -> bool
    ensures { result ≡ is_stream_named plan.now name.now points.now }
{
    has_name(plan.streams(), name, points.stream)
}

fn has_name(streams: &[Stream], name: &str, number: u32) -> bool
    ensures { result ≡ has_name streams.now name.now number }
{
    match streams.get(number as usize) {
        Some(stream) => is_same(stream.name.get().as_str(), name),
        None => false,
    }
}

// Whether two names are the same without ASCII case.
fn is_same(name: &str, other: &str) -> bool
    ensures { result ≡ bytes_eq (folded name.now) (folded other.now) }
{
    name.eq_ignore_ascii_case(other)
}

// Whether the point is of a series with exactly these attributes.
fn is_point(keys: &[Key], attrs: &[Attr<'_>], point: &Point) -> bool
    ensures { result ≡ is_point keys.now (map given_by attrs.now) point.now }
{
    match &point.set {
        Some(set) => is_exactly(keys, attrs, set.as_slice()),
        None => false,
    }
}

// Whether a set key is of exactly these attributes.
fn is_exactly(keys: &[Key], attrs: &[Attr<'_>], set: &[u16]) -> bool
    ensures { result ≡ is_exactly keys.now (map given_by attrs.now) set.now }
{
    !has_repeated_key(attrs) && are_declared(keys, attrs) && have_entries(attrs, keys, set)
}

// Whether some key stands again after it.
fn has_repeated_key(attrs: &[Attr<'_>]) -> bool
    ensures { result ≡ has_repeated_key (map given_by attrs.now) }
{
    let Some((first, rest)) = attrs.split_first() else {
        return false;
    };
    is_given(rest, first.key) || has_repeated_key(rest)
}

// Whether an attribute is of the key of this name.
#[tactic(auto, using(crate::proofs::Mapped::maps))]
fn is_given(attrs: &[Attr<'_>], name: &str) -> bool
    ensures { result ≡ list_any (is_of name.now) (map given_by attrs.now) }
{
    is_key_of_some(attrs, name)
}

fn is_key_of_some(attrs: &[Attr<'_>], name: &str) -> bool
    ensures { result ≡ list_any (λ attr. is_of name.now (given_by attr)) attrs.now }
{
    attrs.iter().any(|attr| attr.key == name)
}

// Whether each attribute is of a declared key.
#[tactic(auto, using(crate::proofs::Mapped::maps))]
fn are_declared(keys: &[Key], attrs: &[Attr<'_>]) -> bool
    ensures { result ≡ list_all (is_declared keys.now) (map given_by attrs.now) }
{
    are_all_declared(keys, attrs)
}

fn are_all_declared(keys: &[Key], attrs: &[Attr<'_>]) -> bool
    ensures { result ≡ list_all (λ attr. is_declared keys.now (given_by attr)) attrs.now }
{
    attrs.iter().all(|attr| has_key(keys, attr.key))
}

// Whether each key's entry is that of the attribute of the key.
#[tactic(auto, using(crate::proofs::EntryLaws::first_entry))]
fn have_entries(attrs: &[Attr<'_>], keys: &[Key], set: &[u16]) -> bool
    ensures { result ≡ have_entries (map given_by attrs.now) keys.now set.now }
{
    let Some((key, keys)) = keys.split_first() else {
        return true;
    };
    let Some((entry, set)) = set.split_first() else {
        return false;
    };
    is_entry(attrs, key, *entry) && have_entries(attrs, keys, set)
}

// Whether this is the entry of a key.
fn is_entry(attrs: &[Attr<'_>], key: &Key, entry: u16) -> bool
    ensures { result ≡ is_entry (map given_by attrs.now) key.now entry }
{
    match entry_at(key, attrs) {
        Some(own) => own == entry,
        None => false,
    }
}

// The entry of a key, or nothing where it does not declare the value that it is given.
#[tactic(auto, using(crate::proofs::Mapped::maps))]
fn entry_at(key: &Key, attrs: &[Attr<'_>]) -> Option<u16>
    ensures { result ≡ entry_at (map given_by attrs.now) key.now }
{
    match attr_of(attrs, key.name.as_str()) {
        Some(attr) => entry_with(key, attr.value),
        None => Some(0),
    }
}

fn entry_with(key: &Key, value: ValueRef<'_>) -> Option<u16>
    ensures { result ≡ entry_with key.now (given_value value.entry) }
{
    let number = key.values.number_of(value)?;
    Some(number + 1)
}

fn attr_of<'a>(attrs: &'a [Attr<'a>], name: &str) -> Option<&'a Attr<'a>>
    ensures { option_copied result ≡ find (λ attr. is_of name.now (given_by attr)) attrs.now }
{
    attrs.iter().find(|attr| attr.key == name)
}
