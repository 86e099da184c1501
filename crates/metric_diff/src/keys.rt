//! Which keys a stream no longer keeps, and which it keeps now.
ghost use Rattle.std.specs.Prelude.{◌≡◌, ◌++◌, ◌&&◌, OnOk, Some, false, length, not, slice_get, slice_index_or};
ghost use Rattle.std.specs.List.{enumerate_from, flat_map, list_any};
ghost use Rattle.std.specs.Str.{bytes_eq};
ghost use Rattle.metric_diff.specs.Parts.{is_kept_as, is_lost, keeps, key_change, key_changes, keys_of, lost_key};

use crate::change::Change;
use crate::parts::{Numbers, add_when};
use metric_base::Items;
use metric_catalogue::Catalogue;
use metric_contents::Key;
use metric_views::Stream;
use std::alloc::AllocError;

/// A stream with the keys of its instrument.
#[derive(Clone, Copy)]
pub(crate) struct Keyed<'k> {
    pub(crate) keys: &'k [Key],
    pub(crate) stream: &'k Stream,
}

/// Whether keys go or are new.
#[derive(Clone, Copy, Drop)]
pub(crate) enum Way {
    Gone,
    New,
}

/// A stream of a catalogue with the keys of its instrument.
pub(crate) fn with_keys<'k>(catalogue: &'k Catalogue, stream: &'k Stream) -> Keyed<'k>
    ensures keys { result.keys.now ≡ keys_of catalogue.now stream.now }
    ensures stream { result.stream.now ≡ stream.now }
{
    let keys = keys_of(catalogue, stream);
    Keyed { keys, stream }
}

fn keys_of<'k>(catalogue: &'k Catalogue, stream: &Stream) -> &'k [Key]
    ensures { result.now ≡ keys_of catalogue.now stream.now }
{
    match catalogue.instruments().get(stream.instrument as usize) {
        None => &[],
        Some(instrument) => instrument.keys.as_slice(),
    }
}

/// Puts a change last for each key that goes, and then for each that is new.
pub(crate) fn add_keys(
    changes: &mut Items<Change>,
    of: Numbers,
    old: Keyed<'_>,
    new: Keyed<'_>,
) -> Result<(), AllocError>
    ensures { OnOk result (changes.new ≡ changes.old
        ++ key_changes of.old of.new old.entry.keys.now new.entry.keys.now
        old.entry.stream.now new.entry.stream.now) }
{
    add_lost(changes, of, Way::Gone, old, new)?;
    add_lost(changes, of, Way::New, new, old)
}

// Puts a change last for each key that one stream keeps and another does not.
fn add_lost(
    changes: &mut Items<Change>,
    of: Numbers,
    way: Way,
    own: Keyed<'_>,
    other: Keyed<'_>,
) -> Result<(), AllocError>
    ensures { OnOk result (changes.new ≡ changes.old
        ++ flat_map (lost_key way of.old of.new other.entry.keys.now own.entry.stream.now
        other.entry.stream.now) (enumerate_from 0 own.entry.keys.now)) }
{
    for (number, key) in own.keys.iter().enumerate() {
        let change = key_change(way, of, number);
        add_when(changes, is_lost(own.stream, number, key, other), change)?;
    }
    Ok(())
}

fn key_change(way: Way, of: Numbers, key: usize) -> Change
    ensures { result ≡ key_change way of.old of.new key }
{
    let Numbers { old, new } = of;
    match way {
        Way::Gone => Change::KeyGone { old, new, key },
        Way::New => Change::KeyNew { old, new, key },
    }
}

// Whether a stream keeps the key of a number, and another none of its name.
fn is_lost(stream: &Stream, number: usize, key: &Key, other: Keyed<'_>) -> bool
    ensures { result ≡ is_lost other.entry.keys.now stream.now other.entry.stream.now
        (number, key.now) }
{
    is_kept(stream, number) && !keeps(other.keys, other.stream, key.name.as_str())
}

fn is_kept(stream: &Stream, number: usize) -> bool
    ensures { result ≡ slice_index_or stream.now.kept number false }
{
    match stream.kept.get().as_slice().get(number) {
        Some(is_kept) => *is_kept,
        None => false,
    }
}

// Whether a stream keeps a key of this name, of these keys.
fn keeps(keys: &[Key], stream: &Stream, name: &str) -> bool
    ensures { result ≡ keeps keys.now stream.now name.now }
{
    keys.iter()
        .enumerate()
        .any(|(number, key)| is_kept_as(stream, name, number, key))
}

fn is_kept_as(stream: &Stream, name: &str, number: usize, key: &Key) -> bool
    ensures { result ≡ is_kept_as stream.now name.now (number, key.now) }
{
    is_kept(stream, number) && key.name.as_str() == name
}
