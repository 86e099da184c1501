//! Tables that are made.
ghost use Rattle.std.specs.Prelude.{◌≡◌, string_bytes, OnErr, OnOk};
ghost use Rattle.toml.specs.Data.{no_members, table as table_data};
ghost use Rattle.toml.specs.View.{table_view, view};
ghost use Rattle.metric_table.specs.Members.{with_member};

use std::alloc::{AllocError, Global};
use toml::{Table, Value};

/// A table with no field.
pub fn empty_table(alloc: Global) -> Table
    ensures { table_view result ≡ no_members }
{
    Table::new(alloc)
}

/// Puts a value under a name, in place of one that is there. Fails only when out of memory, and the table stays as it
/// was.
pub fn insert(table: &mut Table, key: String, value: Value) -> Result<(), AllocError>
    ensures put { OnOk result (table_view table.new
        ≡ with_member (string_bytes key) (view value) (table_view table.old)) }
    ensures kept { OnErr result (table_view table.new ≡ table_view table.old) }
{
    table.insert(key, value)?;
    Ok(())
}

/// The value that is a table.
pub fn tabled(table: Table) -> Value
    ensures { view result ≡ table_data (table_view table) }
{
    Value::Table(table)
}
