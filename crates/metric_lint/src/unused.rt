//! Remarks on values that no allowed combination has.
ghost use Rattle.std.specs.Prelude.{◌≡◌, ◌==◌, ◌<◌, ◌≤◌, ◌+◌, ◌++◌, ◌||◌, ℕ, IfOk, OnOk, Some, false, length, map, slice_index_or};
ghost use Rattle.std.specs.List.{flat_map, range_with_len};
ghost use Rattle.std.proofs.Common.{get_or};
ghost use Rattle.metric_lint.specs.Unused.{is_used, key_unused, rows_unused, unused_of, unused_remarks};

use crate::linting::add_when;
use crate::remark::Remark;
use metric_base::Items;
use metric_combinations::Combinations;
use metric_contents::{Instrument, Key};
use std::alloc::{AllocError, Global};

/// Puts a remark last for each value of an instrument that none of its combinations has, where it lists any.
pub(crate) fn add_unused(
    alloc: Global,
    remarks: &mut Items<Remark>,
    instrument: &Instrument,
    number: u32,
) -> Result<(), AllocError>
    ensures { OnOk result (remarks.new ≡ remarks.old ++ unused_remarks instrument.now number) }
{
    match &instrument.allowed {
        Some(allowed) => add_of(alloc, remarks, allowed, instrument.keys.as_slice(), number),
        None => Ok(()),
    }
}

// Puts the remarks on the values of keys last, where there are combinations.
fn add_of(
    alloc: Global,
    remarks: &mut Items<Remark>,
    allowed: &Combinations,
    keys: &[Key],
    instrument: u32,
) -> Result<(), AllocError>
    requires { length keys.now ≤ 8 }
    ensures { OnOk result (remarks.new ≡ remarks.old
        ++ rows_unused allowed.now keys.now instrument) }
{
    let rows = allowed.rows();
    if rows.is_empty() {
        return Ok(());
    }
    add_keys(alloc, remarks, rows, keys, instrument)
}

// Puts the remarks on the values of keys last.
fn add_keys(
    alloc: Global,
    remarks: &mut Items<Remark>,
    rows: &[[u16; 8]],
    keys: &[Key],
    instrument: u32,
) -> Result<(), AllocError>
    requires { length keys.now ≤ 8 }
    ensures { OnOk result (remarks.new ≡ remarks.old ++ unused_of rows.now keys.now instrument) }
{
    for (place, key) in keys.iter().enumerate() {
        let of = KeyOf {
            instrument,
            key: place as u32,
        };
        add_values_of(alloc, remarks, rows, of, key.values.len())?;
    }
    Ok(())
}

// A key of an instrument.
#[derive(Clone, Copy)]
struct KeyOf {
    instrument: u32,
    key: u32,
}

// Puts a remark last for each of so many values of a key that no row has.
fn add_values_of(
    alloc: Global,
    remarks: &mut Items<Remark>,
    rows: &[[u16; 8]],
    of: KeyOf,
    count: usize,
) -> Result<(), AllocError>
    requires few { count ≤ 1000 }
    requires key { of.key < 8 }
    ensures { OnOk result (remarks.new ≡ remarks.old
        ++ key_unused rows.now of.instrument of.key count) }
{
    let used = used_values(alloc, rows, of.key as usize, count)?;
    for value in 0..count as u32 {
        let remark = Remark::UnusedValue {
            instrument: of.instrument,
            key: of.key,
            value,
        };
        add_when(remarks, !used.as_slice()[value as usize], remark)?;
    }
    Ok(())
}

// Of each of so many values of a key, in order, whether some row has it, by one walk over the rows.
fn used_values(
    alloc: Global,
    rows: &[[u16; 8]],
    key: usize,
    count: usize,
) -> Result<Items<bool>, AllocError>
    requires { key < 8 }
    ensures { IfOk result (λ flags. flags
        ≡ map (is_used rows.now key) (range_with_len 0 count)) }
{
    let mut flags = vec![in alloc; false; count]?;
    for row in rows {
        note_used(flags.as_mut_slice(), row[key]);
    }
    Ok(Items::from_vec(flags))
}

// Notes that a row has the value of this entry, where the entry is one of a value.
fn note_used(flags: &mut [bool], entry: u16)
    ensures length { length flags.new ≡ length flags.old }
    ensures noted { (i : ℕ) → i < length flags.old → get_or flags.new i false
        ≡ (get_or flags.old i false || entry == i + 1) }
{
    let place = entry as usize;
    if 0 < place && place <= flags.len() {
        flags[place - 1] = true;
    }
}
