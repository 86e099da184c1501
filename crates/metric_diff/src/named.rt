//! What goes, differs or is new, of what both sides know by names.
ghost use Rattle.std.specs.Prelude.{◌≡◌, ◌++◌, OnOk};
ghost use Rattle.std.specs.BTreeMap.{get_by_text};
ghost use Rattle.std.specs.List.{enumerate_from, flat_map};
ghost use Rattle.metric_diff.specs.Changes.{change, change_by, coming, new_by, plan_of, sort_changes, unless_found};

use crate::change::Change;
use crate::instruments::add_instrument_change;
use crate::names::names;
use crate::parts::add_when;
use crate::places::{Places, place_in, places_of};
use crate::readers::add_reader_change;
use crate::side::Side;
use crate::streams::add_stream_change;
use metric_base::{Items, Text};
use std::alloc::{AllocError, Global};

/// What is known by names in both.
#[derive(Clone, Copy, Drop)]
pub(crate) enum Sort {
    Readers,
    Streams,
    // Streams that have the name of an earlier one.
    Collisions,
    Instruments,
    Recorders,
}

/// Puts the changes of a sort last: those that go or differ, in the order of the old ones, and then those that are new.
pub(crate) fn add_sort(
    alloc: Global,
    changes: &mut Items<Change>,
    sort: Sort,
    old: Side<'_>,
    new: Side<'_>,
) -> Result<(), AllocError>
    ensures { OnOk result (changes.new ≡ changes.old
        ++ sort_changes sort (plan_of old.entry) (plan_of new.entry)) }
{
    let old_names = names(alloc, sort, old, old)?;
    let new_names = names(alloc, sort, old, new)?;
    let old_places = places_of(alloc, old_names.as_slice())?;
    let new_places = places_of(alloc, new_names.as_slice())?;
    add_old(
        alloc,
        changes,
        sort,
        old,
        new,
        old_names.as_slice(),
        &new_places,
    )?;
    add_new(changes, sort, new_names.as_slice(), &old_places)
}

// Puts the changes of the old ones of these names last.
fn add_old(
    alloc: Global,
    changes: &mut Items<Change>,
    sort: Sort,
    old: Side<'_>,
    new: Side<'_>,
    names: &[Text],
    places: &Places,
) -> Result<(), AllocError>
    ensures { OnOk result (changes.new ≡ changes.old
        ++ flat_map (change_by sort (get_by_text places.now) (plan_of old.entry)
        (plan_of new.entry)) (enumerate_from 0 names.now)) }
{
    for (number, name) in names.iter().enumerate() {
        let found = place_in(places, name.as_str());
        add_change(alloc, changes, sort, old, new, number, found)?;
    }
    Ok(())
}

// Puts the change of the old one of a number last.
fn add_change(
    alloc: Global,
    changes: &mut Items<Change>,
    sort: Sort,
    old: Side<'_>,
    new: Side<'_>,
    number: usize,
    found: Option<usize>,
) -> Result<(), AllocError>
    ensures { OnOk result (changes.new ≡ changes.old
        ++ change sort (plan_of old.entry) (plan_of new.entry) number found) }
{
    match sort {
        Sort::Readers => add_reader_change(changes, old.config, new.config, number, found),
        Sort::Streams => add_stream_change(changes, old, new, number, found),
        Sort::Collisions => add_unless_found(changes, Change::CollisionGone { old: number }, found),
        Sort::Instruments => add_instrument_change(alloc, changes, old, new, number, found),
        Sort::Recorders => add_unless_found(changes, Change::RecorderGone { old: number }, found),
    }
}

// Puts a change last where no new one is found.
fn add_unless_found(
    changes: &mut Items<Change>,
    change: Change,
    found: Option<usize>,
) -> Result<(), AllocError>
    ensures { OnOk result (changes.new ≡ changes.old ++ unless_found change found) }
{
    add_when(changes, found.is_none(), change)
}

// Puts a change last for each new one that is none of the old ones.
fn add_new(
    changes: &mut Items<Change>,
    sort: Sort,
    names: &[Text],
    places: &Places,
) -> Result<(), AllocError>
    ensures { OnOk result (changes.new ≡ changes.old
        ++ flat_map (new_by sort (get_by_text places.now)) (enumerate_from 0 names.now)) }
{
    for (number, name) in names.iter().enumerate() {
        let is_known = place_in(places, name.as_str()).is_some();
        add_when(changes, !is_known, coming(sort, number))?;
    }
    Ok(())
}

fn coming(sort: Sort, new: usize) -> Change
    ensures { result ≡ coming sort new }
{
    match sort {
        Sort::Readers => Change::ReaderNew { new },
        Sort::Streams => Change::StreamNew { new },
        Sort::Collisions => Change::CollisionNew { new },
        Sort::Instruments => Change::InstrumentNew { new },
        Sort::Recorders => Change::RecorderNew { new },
    }
}
