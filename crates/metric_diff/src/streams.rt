//! What an old stream differs in.
ghost use Rattle.std.specs.Prelude.{◌≡◌, ◌++◌, OnOk, Some, slice_get};
ghost use Rattle.metric_diff.specs.Changes.{plan_of, stream_change, stream_differences};
ghost use Rattle.metric_diff.specs.Parts.{differences_with};

use crate::change::Change;
use crate::keys::{add_keys, with_keys};
use crate::parts::{Numbers, Sourced, add_parts, add_when_other};
use crate::side::Side;
use metric_base::Items;
use metric_views::Stream;
use std::alloc::AllocError;

/// Puts last that the old stream of a number goes, or what it differs in from the new one.
pub(crate) fn add_stream_change(
    changes: &mut Items<Change>,
    old: Side<'_>,
    new: Side<'_>,
    number: usize,
    found: Option<usize>,
) -> Result<(), AllocError>
    ensures { OnOk result (changes.new ≡ changes.old ++ stream_change (plan_of old.entry)
        (plan_of new.entry) number found) }
{
    match found {
        Some(other) => add_stream_differences(changes, old, new, number, other),
        None => {
            changes.push(Change::StreamGone { old: number })?;
            Ok(())
        }
    }
}

fn add_stream_differences(
    changes: &mut Items<Change>,
    old: Side<'_>,
    new: Side<'_>,
    number: usize,
    other: usize,
) -> Result<(), AllocError>
    ensures { OnOk result (changes.new ≡ changes.old ++ stream_differences (plan_of old.entry)
        (plan_of new.entry) number other) }
{
    add_differences(changes, old, new, number, other)?;
    let change = Change::SeriesChanged {
        old: number,
        new: other,
    };
    let series = series_at(old.series, number);
    add_when_other(changes, change, series, series_at(new.series, other))
}

fn series_at(series: &[u128], number: usize) -> Option<u128>
    ensures { result ≡ slice_get series.now number }
{
    series.get(number).copied()
}

// Puts the differences of the streams of two numbers last, but for how many series they may have.
fn add_differences(
    changes: &mut Items<Change>,
    old: Side<'_>,
    new: Side<'_>,
    number: usize,
    other: usize,
) -> Result<(), AllocError>
    ensures { OnOk result (changes.new ≡ changes.old
        ++ differences_with old.entry.catalogue.now new.entry.catalogue.now number other
        (slice_get old.entry.streams.now number) (slice_get new.entry.streams.now other)) }
{
    let of = Numbers {
        old: number,
        new: other,
    };
    match old.streams.get(number) {
        None => Ok(()),
        Some(one) => match new.streams.get(other) {
            None => Ok(()),
            Some(another) => add_of_streams(changes, old, new, of, one, another),
        },
    }
}

fn add_of_streams(
    changes: &mut Items<Change>,
    old: Side<'_>,
    new: Side<'_>,
    of: Numbers,
    one: &Stream,
    another: &Stream,
) -> Result<(), AllocError>
    ensures { OnOk result (changes.new ≡ changes.old
        ++ differences_with old.entry.catalogue.now new.entry.catalogue.now of.old of.new
        (Some one.now) (Some another.now)) }
{
    let old_stream = Sourced {
        catalogue: old.catalogue,
        stream: one,
    };
    let new_stream = Sourced {
        catalogue: new.catalogue,
        stream: another,
    };
    add_parts(changes, of, old_stream, new_stream)?;
    let old_keys = with_keys(old.catalogue, one);
    let new_keys = with_keys(new.catalogue, another);
    add_keys(changes, of, old_keys, new_keys)
}
