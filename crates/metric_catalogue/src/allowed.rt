//! The allowed combinations of an instrument.
ghost use Rattle.std.specs.Prelude.{◌≡◌, ◌≤◌, ◌<◌, ◌≤ℤ◌, ◌+◌, None, Some, [], if◌then◌else◌, length, map, pos, unsigned_abs, IsTrue, IfOk, IfSome, OnOk};
ghost use Rattle.std.specs.Option.{option_map};
ghost use Rattle.toml.specs.View.{table_view, view};
ghost use Rattle.metric_base.specs.Steps.{Advances, Gives, each, with_next};
ghost use Rattle.metric_table.specs.Fields.{Reads, whole_in};
ghost use Rattle.metric_catalogue.specs.Allowed.{allowed_field, allowed_of, is_entry_of, is_row, row_of, row_set, set_of_row};

use crate::fault::{CatalogueDefect, CatalogueFault, CatalogueSpot};
use crate::holding::holder;
use crate::texts::faults_at;
use metric_combinations::{CombinationRows, Combinations};
use metric_contents::{Key, SetKey};
use metric_table::{all_integers_of, list_of, member, whole_in};
use std::alloc::Global;
use toml::{Table, Value};

// The rows of the allowed combinations, where the table lists them.
#[tactic(auto, unfolding(crate::specs::Allowed::allowed_field))]
pub(crate) fn allowed_field<'a>(
    table: &'a Table,
    group: &'a Table,
    at: CatalogueSpot,
) -> Result<Option<&'a [Value]>, CatalogueFault>
    ensures exact { Reads (option_map (λ rows. map view rows.now)) result
        (allowed_field at (table_view group.now) (table_view table.now)) }
    ensures few { IfOk result (λ listed. IfSome listed (λ rows. length rows.now ≤ 4096)) }
{
    match member(holder("allowed", group, table), "allowed") {
        Some(value) => {
            let rows = list_of(value, 4096, &faults_at(at))?;
            Ok(Some(rows))
        }
        None => Ok(None),
    }
}

// The combinations that the rows are, where there are rows.
pub(crate) fn allowed_of(
    alloc: Global,
    rows: Option<&[Value]>,
    keys: &[Key],
    at: CatalogueSpot,
) -> Result<Option<Combinations>, CatalogueFault>
    requires rows { IfSome rows (λ listed. length listed.now ≤ 4096) }
    requires keys { length keys.now ≤ 8 }
    ensures { Gives CatalogueFault.Memory result
        (allowed_of at keys.now (option_map (λ listed. map view listed.now) rows.entry)) }
{
    match rows {
        Some(rows) => {
            let allowed = combinations_of(alloc, rows, keys, at)?;
            Ok(Some(allowed))
        }
        None => Ok(None),
    }
}

fn combinations_of(
    alloc: Global,
    rows: &[Value],
    keys: &[Key],
    at: CatalogueSpot,
) -> Result<Combinations, CatalogueFault>
    requires rows { length rows.now ≤ 4096 }
    requires keys { length keys.now ≤ 8 }
    ensures { Gives CatalogueFault.Memory result
        (each (row_of at keys.now) [] (map view rows.now)) }
{
    let mut read = CombinationRows::new(alloc);
    for row in rows {
        put_row(&mut read, row, keys, at)?;
    }
    Ok(read.finish(alloc)?)
}

// Puts a row last, unless it is there already.
#[tactic(auto, unfolding(crate::specs::Allowed::row_of))]
fn put_row(
    read: &mut CombinationRows,
    row: &Value,
    keys: &[Key],
    at: CatalogueSpot,
) -> Result<(), CatalogueFault>
    requires keys { length keys.now ≤ 8 }
    requires few { length read.old < 4096 }
    ensures exact { Advances CatalogueFault.Memory result read.new
        (with_next (row_of at keys.now) read.old (view row.now)) }
    ensures longer { OnOk result (length read.new ≡ length read.old + 1) }
{
    let at = at.entry(read.len() as u32);
    let set = set_of_row(row, keys, at)?;
    if read.push(set)? {
        Ok(())
    } else {
        Err(CatalogueFault::At(CatalogueDefect::DuplicateCombination, at))
    }
}

#[tactic(auto, unfolding(crate::specs::Allowed::set_of_row))]
fn set_of_row(row: &Value, keys: &[Key], at: CatalogueSpot) -> Result<SetKey, CatalogueFault>
    requires { length keys.now ≤ 8 }
    ensures { result ≡ set_of_row at keys.now (view row.now) }
{
    let entries = all_integers_of(row, &faults_at(at))?;
    row_set(keys, entries).ok_or(CatalogueFault::At(CatalogueDefect::BadCombination, at))
}

// The set key that a row is, of which each entry is a whole number.
fn row_set(keys: &[Key], entries: &[Value]) -> Option<SetKey>
    requires { length keys.now ≤ 8 }
    ensures { result ≡ (if is_row keys.now (map (λ v. whole_in (view v)) entries.now)
        then Some (row_set (map (λ v. whole_in (view v)) entries.now)) else None) }
{
    if entries.len() != keys.len() {
        return None;
    }
    let mut set = [0; 8];
    for (place, key) in keys.iter().enumerate() {
        set[place] = entry_of(key, &entries[place])?;
    }
    Some(set)
}

// The entry of a key that a whole number is.
fn entry_of(key: &Key, value: &Value) -> Option<u16>
    ensures { result ≡ (if is_entry_of key.now (whole_in (view value.now))
        then Some (unsigned_abs (whole_in (view value.now))) else None) }
{
    let number = whole_in(value);
    if is_entry_of(key, number) {
        Some(number as u16)
    } else {
        None
    }
}

// Whether a number is one plus the place of a value of the key, or 0 where the key may be left out.
fn is_entry_of(key: &Key, number: i64) -> bool
    ensures exact { result ≡ is_entry_of key.now number }
    ensures within { IsTrue result → (pos 0 ≤ℤ number) × (number ≤ℤ pos 1000) }
{
    if number == 0 {
        key.optional
    } else {
        0 < number && number <= key.values.len() as i64
    }
}
