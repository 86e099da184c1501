//! What an old instrument differs in.
ghost use Rattle.std.specs.Prelude.{◌≡◌, ◌++◌, OnOk};
ghost use Rattle.metric_diff.specs.Changes.{instrument_change, instrument_differences, most_at, plan_of};

use crate::change::Change;
use crate::declared::add_declared;
use crate::parts::add_when_other;
use crate::side::Side;
use metric_base::Items;
use metric_lint::Headroom;
use std::alloc::{AllocError, Global};

/// Puts last that the old instrument of a number goes, or in what it differs from the new one.
pub(crate) fn add_instrument_change(
    alloc: Global,
    changes: &mut Items<Change>,
    old: Side<'_>,
    new: Side<'_>,
    number: usize,
    found: Option<usize>,
) -> Result<(), AllocError>
    ensures { OnOk result (changes.new ≡ changes.old ++ instrument_change (plan_of old.entry)
        (plan_of new.entry) number found) }
{
    match found {
        Some(other) => add_differences(alloc, changes, old, new, number, other),
        None => {
            changes.push(Change::InstrumentGone { old: number })?;
            Ok(())
        }
    }
}

fn add_differences(
    alloc: Global,
    changes: &mut Items<Change>,
    old: Side<'_>,
    new: Side<'_>,
    number: usize,
    other: usize,
) -> Result<(), AllocError>
    ensures { OnOk result (changes.new ≡ changes.old ++ instrument_differences (plan_of old.entry)
        (plan_of new.entry) number other) }
{
    add_declared(alloc, changes, old.catalogue, new.catalogue, number, other)?;
    let change = Change::HeadroomChanged {
        old: number,
        new: other,
    };
    let most = most_at(old.rooms, number);
    add_when_other(changes, change, most, most_at(new.rooms, other))
}

// The greatest sum of budgets and spare that is safe for the instrument of a number.
fn most_at(rooms: &[Headroom], number: usize) -> Option<u128>
    ensures { result ≡ most_at rooms.now number }
{
    let room = rooms.get(number)?;
    Some(u128::from(room.most))
}
