//! The table that a field of an instrument is in: its own, or that of its group.
ghost use Rattle.std.specs.Prelude.{◌≡◌};
ghost use Rattle.toml.specs.View.{table_view};
ghost use Rattle.metric_catalogue.specs.Holding.{holder};

use crate::named::has_field;
use toml::Table;

// The table that the field of this name is read from.
pub(crate) fn holder<'t>(name: &str, group: &'t Table, own: &'t Table) -> &'t Table
    ensures { table_view result.now
        ≡ holder name.now (table_view group.now) (table_view own.now) }
{
    if has_field(own, name) { own } else { group }
}
