//! The fields of a table, read and written.
ghost use Rattle.std.specs.Prelude.{OnOk};
ghost use Rattle.toml.specs.View.{table_view};
ghost use Rattle.metric_base.specs.Steps.{Gives};
ghost use Rattle.metric_cert.specs.Reading.{needed, optional};
ghost use Rattle.metric_cert.specs.Writing.{Puts, PutsGiven};

use crate::entry::EntryKind;
use crate::fault::{CertFault, shape_faults};
use metric_table::{insert, member, required};
use std::alloc::{AllocError, Global};
use toml::Table;

/// What a needed field stands for.
#[tactic(auto, unfolding(crate::specs::Reading::needed))]
pub(crate) fn needed<E: EntryKind>(
    alloc: Global,
    table: &Table,
    name: &str,
) -> Result<E::Read, CertFault>
    ensures { Gives CertFault.Memory result (needed E.step name.now (table_view table.now)) }
{
    let value = required(table, name, &shape_faults())?;
    E::read(alloc, value)
}

/// What a field stands for, where the table has it.
#[tactic(auto, unfolding(crate::specs::Reading::optional))]
pub(crate) fn optional<E: EntryKind>(
    alloc: Global,
    table: &Table,
    name: &str,
) -> Result<Option<E::Read>, CertFault>
    ensures { Gives CertFault.Memory result (optional E.step name.now (table_view table.now)) }
{
    match member(table, name) {
        Some(value) => {
            let entry = E::read(alloc, value)?;
            Ok(Some(entry))
        }
        None => Ok(None),
    }
}

/// Puts a field that the table does not have.
pub(crate) fn put<E: EntryKind>(
    alloc: Global,
    table: &mut Table,
    name: &str,
    entry: &E::Read,
) -> Result<(), AllocError>
    ensures { OnOk result
        (Puts E.step E.levels name.now entry.now (table_view table.old) (table_view table.new)) }
{
    let key = String::from_str(alloc, name)?;
    let value = E::write(alloc, entry)?;
    insert(table, key, value)
}

/// Puts a field that may be left out.
pub(crate) fn put_given<E: EntryKind>(
    alloc: Global,
    table: &mut Table,
    name: &str,
    entry: &Option<E::Read>,
) -> Result<(), AllocError>
    ensures { OnOk result (PutsGiven E.step E.levels name.now entry.now
        (table_view table.old) (table_view table.new)) }
{
    match entry {
        Some(entry) => put::<E>(alloc, table, name, entry),
        None => Ok(()),
    }
}
