//! The text of a certificate, made piece by piece: beside it, the table of one entry is held.
ghost use Rattle.std.specs.Prelude.{◌≡◌, ◌+◌, OnOk, IfOk, string_bytes};
ghost use Rattle.toml.specs.View.{view};
ghost use Rattle.metric_cert.specs.Printing.{AppendsEntries, AppendsEntry, AppendsLines, IsFieldText, IsPair, pair, pair_of};
ghost use Rattle.metric_cert.specs.Reading.{table_as};

use crate::entry::EntryKind;
use crate::fields::{Fields, TableEntry};
use crate::lists::listed;
use metric_base::Items;
use metric_table::{empty_table, insert};
use std::alloc::{AllocError, Global};
use toml::Value;

/// Writes a field that has a line of its own.
pub(crate) fn push_pair(
    alloc: Global,
    text: &mut String,
    name: &str,
    value: Value,
) -> Result<(), AllocError>
    requires { IsPair name.now (view value) }
    ensures { OnOk result (AppendsLines (pair name.now (view value))
        (string_bytes text.old) (string_bytes text.new)) }
{
    let piece = field_text(alloc, name, value)?;
    text.push_str(piece.as_str())
}

/// Writes a list where it is empty, since it has no header then.
pub(crate) fn push_if_empty<T>(
    alloc: Global,
    text: &mut String,
    name: &str,
    entries: &Items<T>,
) -> Result<(), AllocError>
    ensures { OnOk result (AppendsLines (pair_of entries.now name.now)
        (string_bytes text.old) (string_bytes text.new)) }
{
    if entries.is_empty() {
        push_pair(alloc, text, name, listed(Vec::new(alloc)))
    } else {
        Ok(())
    }
}

/// Writes the tables of a list, each under its header.
pub(crate) fn push_list<F: Fields>(
    alloc: Global,
    text: &mut String,
    name: &str,
    entries: &Items<F::Read>,
) -> Result<(), AllocError>
    ensures { OnOk result (AppendsEntries (table_as F.step) (F.levels + 1) name.now entries.now
        (string_bytes text.old) (string_bytes text.new)) }
{
    push_entries::<F>(alloc, text, name, entries.as_slice())
}

fn push_entries<F: Fields>(
    alloc: Global,
    text: &mut String,
    name: &str,
    entries: &[F::Read],
) -> Result<(), AllocError>
    ensures { OnOk result (AppendsEntries (table_as F.step) (F.levels + 1) name.now entries.now
        (string_bytes text.old) (string_bytes text.new)) }
{
    for entry in entries {
        push_entry::<F>(alloc, text, name, entry)?;
    }
    Ok(())
}

// An empty line stands before each header.
fn push_entry<F: Fields>(
    alloc: Global,
    text: &mut String,
    name: &str,
    entry: &F::Read,
) -> Result<(), AllocError>
    ensures { OnOk result (AppendsEntry (table_as F.step) (F.levels + 1) name.now entry.now
        (string_bytes text.old) (string_bytes text.new)) }
{
    let value = TableEntry::<F>::write(alloc, entry)?;
    let values = vec![in alloc; value]?;
    let piece = field_text(alloc, name, listed(values))?;
    text.push_str("\n")?;
    text.push_str(piece.as_str())
}

fn field_text(alloc: Global, name: &str, value: Value) -> Result<String, AllocError>
    ensures { IfOk result (λ text. IsFieldText name.now (view value) (string_bytes text)) }
{
    let key = String::from_str(alloc, name)?;
    let mut table = empty_table(alloc);
    insert(&mut table, key, value)?;
    match toml::table_to_string(alloc, &table) {
        Ok(text) => Ok(text),
        Err(_) => Err(AllocError),
    }
}
