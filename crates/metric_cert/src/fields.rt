//! The entries of a certificate that are tables.
ghost use Rattle.std.specs.Prelude.{◌≡◌, ◌+◌, [], Ok, OnOk, map};
ghost use Rattle.toml.specs.Data.{no_members, table as table_data};
ghost use Rattle.toml.specs.View.{table_view, view};
ghost use Rattle.metric_base.specs.Steps.{Gives, each, with_fault};
ghost use Rattle.metric_cert.specs.Places.{at, list_name};
ghost use Rattle.metric_cert.specs.Reading.{entries_as, entry_as, needed, table_as};
ghost use Rattle.metric_cert.specs.Writing.{IsPrintable};

use crate::entry::EntryKind;
use crate::fault::{CertFault, CertList, CertPlace, shape_faults};
use crate::lists::values_of;
use metric_base::Items;
use metric_table::{empty_table, required, table_of, tabled};
use std::alloc::{AllocError, Global};
use std::marker::PhantomData;
use toml::{Table, Value};

/// The fields of a kind of table. What is put into a table is read as itself.
pub(crate) trait Fields {
    ghost use Rattle.std.specs.Prelude.{ℕ, Result};
    ghost use Rattle.toml.specs.Data.{Members};
    ghost use Rattle.metric_cert.specs.declared.fault.CertFault.{CertFault as Fault};

    /// What such a table stands for.
    type Read: Drop;

    // What a table is read as.
    ghost step: { Members → Result Self.Read Fault };

    // How deep lists and tables nest in what is put.
    ghost levels: { ℕ };

    /// What the table stands for, or `Shape`.
    fn read(alloc: Global, table: &Table) -> Result<Self::Read, CertFault>
        ensures { Gives CertFault.Memory result (step (table_view table.now)) };

    /// Puts the fields that stand for it into an empty table. Fails only when out of memory.
    fn put(alloc: Global, table: &mut Table, entry: &Self::Read) -> Result<(), AllocError>
        requires { table_view table.old ≡ no_members }
        ensures reads { OnOk result (step (table_view table.new) ≡ Ok entry.now) }
        ensures printable { OnOk result
            (IsPrintable (levels + 1) (table_data (table_view table.new))) };
}

/// An entry that is a table with such fields.
pub(crate) struct TableEntry<F>(PhantomData<F>);

impl<F: Fields> EntryKind for TableEntry<F> {
    ghost use Rattle.std.specs.Prelude.{◌+◌};
    ghost use Rattle.metric_cert.specs.Reading.{table_as};

    type Read = F::Read;

    ghost step = { table_as F.step };

    ghost levels = { F.levels + 1 };

    #[tactic(auto, unfolding(crate::specs::Reading::table_as))]
    fn read(alloc: Global, value: &Value) -> Result<F::Read, CertFault> {
        let table = table_of(value, &shape_faults())?;
        F::read(alloc, table)
    }

    fn write(alloc: Global, entry: &F::Read) -> Result<Value, AllocError> {
        let mut table = empty_table(alloc);
        F::put(alloc, &mut table, entry)?;
        Ok(tabled(table))
    }
}

/// The tables of a list that is needed. A fault of one of them is told with its number.
#[tactic(auto, unfolding(crate::specs::Reading::needed, crate::specs::Reading::entries_as))]
pub(crate) fn entries<F: Fields>(
    alloc: Global,
    table: &Table,
    list: CertList,
) -> Result<Items<F::Read>, CertFault>
    ensures { Gives CertFault.Memory result
        (needed (entries_as list F.step) (list_name list) (table_view table.now)) }
{
    let value = required(table, list.name(), &shape_faults())?;
    let values = values_of(value)?;
    read_entries::<F>(alloc, list, values)
}

fn read_entries<F: Fields>(
    alloc: Global,
    list: CertList,
    values: &[Value],
) -> Result<Items<F::Read>, CertFault>
    ensures { Gives CertFault.Memory result
        (each (entry_as list F.step) [] (map view values.now)) }
{
    let mut entries = Items::new(alloc);
    for value in values {
        let place = CertPlace::Entry {
            list,
            number: entries.len(),
        };
        let entry = read_entry::<F>(alloc, place, value)?;
        entries.push(entry)?;
    }
    Ok(entries)
}

// The table that an entry is, or the fault of its place.
fn read_entry<F: Fields>(
    alloc: Global,
    place: CertPlace,
    value: &Value,
) -> Result<F::Read, CertFault>
    ensures { Gives CertFault.Memory result
        (with_fault (at place) (table_as F.step (view value.now))) }
{
    match TableEntry::<F>::read(alloc, value) {
        Ok(entry) => Ok(entry),
        Err(fault) => Err(fault.at(place)),
    }
}
