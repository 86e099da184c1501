//! The budget of an instrument that nobody says, in format 3.
ghost use Rattle.std.specs.Prelude.{◌≡◌, ◌<◌, ◌^◌, map, IfOk};
ghost use Rattle.std.specs.List.{list_any};
ghost use Rattle.std.specs.Option.{option_map};
ghost use Rattle.toml.specs.View.{table_view, view};
ghost use Rattle.metric_catalogue.specs.Unsaid.{says, says_within, unless_said, unsaid};

use crate::named::{has_field, path_of};
use metric_contents::{Kind, safe_total};
use metric_names::Name;
use metric_table::member;
use std::alloc::{AllocError, Global};
use toml::{Table, Value};

// The spare budget of an instrument whose table says none, beside these tables of recorders.
pub(crate) fn unsaid(
    alloc: Global,
    format: u8,
    recorders: &[&Table],
    meter: &str,
    name: &Name,
    kind: Kind,
    range: (i64, i64),
) -> Result<u64, AllocError>
    ensures exact { IfOk result (λ spare. spare ≡ unsaid format
        (map (λ t. table_view t.now) recorders.now) meter.now name.now kind range) }
    ensures few { IfOk result (λ spare. spare < 2 ^ 63) }
{
    if format == 3 {
        let name = name.as_str();
        let path = path_of(alloc, meter, name)?;
        Ok(unless_said(is_said(recorders, name, path.as_str()), kind, range))
    } else {
        Ok(0)
    }
}

fn unless_said(said: bool, kind: Kind, range: (i64, i64)) -> u64
    ensures exact { result ≡ unless_said said kind range }
    ensures few { result < 2 ^ 63 }
{
    let (lo, hi) = range;
    if said { 0 } else { safe_total(kind, lo, hi) }
}

// Whether a table of recorders has a budget for the instrument of a name, and of this one after its meter's.
fn is_said(recorders: &[&Table], name: &str, path: &str) -> bool
    ensures { result ≡ list_any (says name.now path.now)
        (map (λ t. table_view t.now) recorders.now) }
{
    is_any_said(recorders, name, path)
}

fn is_any_said(recorders: &[&Table], name: &str, path: &str) -> bool
    ensures { result
        ≡ list_any (λ t. says name.now path.now (table_view t.now)) recorders.now }
{
    recorders.iter().any(|table| says(table, name, path))
}

fn says(table: &Table, name: &str, path: &str) -> bool
    ensures { result ≡ says name.now path.now (table_view table.now) }
{
    says_within(member(table, "budget"), name, path)
}

fn says_within(value: Option<&Value>, name: &str, path: &str) -> bool
    ensures { result ≡ says_within name.now path.now (option_map (λ v. view v.now) value.entry) }
{
    match value {
        Some(Value::Table(budget)) => {
            has_field(budget, name) || has_field(budget, path) || has_field(budget, "*")
        }
        _ => false,
    }
}
