//! The recorders of a catalogue.
ghost use Rattle.std.specs.Prelude.{◌≡◌, ◌≤◌, ◌<◌, [], length, map, IfOk};
ghost use Rattle.std.specs.List.{list_any};
ghost use Rattle.toml.specs.View.{table_view};
ghost use Rattle.metric_base.specs.Steps.{Gives, each};
ghost use Rattle.metric_table.specs.Fields.{only};
ghost use Rattle.metric_catalogue.specs.Faults.{faults_at, field_at};
ghost use Rattle.metric_catalogue.specs.Recorders.{amount_field, amount_from, budget_of, budgeted, budgets_field, is_recorder, number_below, number_field, recorder_fields, recorder_name, recorder_of};
ghost use Rattle.metric_contents.specs.Budgets.{is_budget};

use crate::fault::{
    CatalogueDefect, CatalogueFault, CatalogueField, CataloguePlace, CatalogueSpot,
};
use crate::texts::{faults_at, label_field, unknown_at};
use metric_base::{Few, Items, Text};
use metric_contents::{Budget, Recorder};
use metric_table::{integer_of, only, required, tables_field};
use std::alloc::Global;
use toml::Table;

// The fields of a recorder's table.
pub(crate) const RECORDER_FIELDS: [&str; 2] = ["name", "budget"];

// The fields of a budget's table.
pub(crate) const BUDGET_FIELDS: [&str; 2] = ["instrument", "amount"];

// The recorders of a catalogue with so many instruments.
pub(crate) fn recorders_of(
    alloc: Global,
    tables: &[&Table],
    count: u32,
) -> Result<Items<Recorder>, CatalogueFault>
    requires { length tables.now ≤ 64 }
    ensures exact { Gives CatalogueFault.Memory result
        (each (recorder_of count) [] (map (λ t. table_view t.now) tables.now)) }
    ensures few { IfOk result (λ recorders. length recorders ≤ length tables.now) }
{
    let mut recorders = Items::new(alloc);
    for table in tables {
        let recorder = recorder_of(alloc, table, count, recorders.as_slice())?;
        recorders.push(recorder)?;
    }
    Ok(recorders)
}

#[tactic(auto, unfolding(crate::specs::Recorders::recorder_of))]
fn recorder_of(
    alloc: Global,
    table: &Table,
    count: u32,
    before: &[Recorder],
) -> Result<Recorder, CatalogueFault>
    requires { length before.now < 64 }
    ensures { Gives CatalogueFault.Memory result
        (recorder_of count before.now (table_view table.now)) }
{
    let at = CataloguePlace::Recorder(before.len() as u32);
    let name = recorder_name(alloc, table, at)?;
    let is_taken = has_recorder(before, &name);
    let budgets = budgets_field(alloc, table, count, before.len() as u32, is_taken)?;
    Ok(Recorder { name, budgets })
}

#[tactic(auto, unfolding(crate::specs::Recorders::recorder_name))]
fn recorder_name(alloc: Global, table: &Table, at: CataloguePlace) -> Result<Text, CatalogueFault>
    ensures { Gives CatalogueFault.Memory result (recorder_name at (table_view table.now)) }
{
    only_recorder_fields(table, at)?;
    label_field(alloc, table, "name", at.field(CatalogueField::Name))
}

// The budgets of a recorder, unless its name is taken, which is told before a fault of a budget.
#[tactic(auto, unfolding(crate::specs::Recorders::budgets_field))]
fn budgets_field(
    alloc: Global,
    table: &Table,
    count: u32,
    number: u32,
    is_taken: bool,
) -> Result<Few<Budget, 512>, CatalogueFault>
    ensures { Gives CatalogueFault.Memory result
        (budgets_field number count is_taken (table_view table.now)) }
{
    let at = CataloguePlace::Recorder(number);
    let faults = faults_at(at.field(CatalogueField::Budget));
    let tables = tables_field(alloc, table, "budget", 512, &faults)?;
    if is_taken {
        let name = at.field(CatalogueField::Name);
        return Err(CatalogueFault::At(CatalogueDefect::DuplicateRecorder, name));
    }
    let budgets = budgets_of(alloc, tables.as_slice(), count, number)?;
    Ok(Few::from_items(budgets))
}

#[tactic(auto, using(crate::proofs::FieldNames::field_names))]
fn only_recorder_fields(table: &Table, at: CataloguePlace) -> Result<(), CatalogueFault>
    ensures { result
        ≡ only (faults_at (field_at at CatalogueField.Unknown)) recorder_fields
        (table_view table.now) }
{
    only(table, &RECORDER_FIELDS, &unknown_at(at))
}

pub(crate) fn has_recorder(recorders: &[Recorder], name: &Text) -> bool
    ensures { result ≡ list_any (is_recorder name.now) recorders.now }
{
    recorders.iter().any(|recorder| recorder.name == *name)
}

fn budgets_of(
    alloc: Global,
    tables: &[&Table],
    count: u32,
    recorder: u32,
) -> Result<Items<Budget>, CatalogueFault>
    requires { length tables.now ≤ 512 }
    ensures exact { Gives CatalogueFault.Memory result
        (each (budget_of recorder count) [] (map (λ t. table_view t.now) tables.now)) }
    ensures few { IfOk result (λ budgets. length budgets ≤ length tables.now) }
{
    let mut budgets = Items::new(alloc);
    for table in tables {
        let budget = budget_of(table, count, recorder, budgets.as_slice())?;
        budgets.push(budget)?;
    }
    Ok(budgets)
}

#[tactic(auto, unfolding(crate::specs::Recorders::budget_of), using(crate::proofs::FieldNames::field_names))]
fn budget_of(
    table: &Table,
    count: u32,
    recorder: u32,
    before: &[Budget],
) -> Result<Budget, CatalogueFault>
    requires { length before.now < 512 }
    ensures { result ≡ budget_of recorder count before.now (table_view table.now) }
{
    let at = CataloguePlace::Budget(recorder, before.len() as u32);
    only(table, &BUDGET_FIELDS, &unknown_at(at))?;
    let instrument = budgeted(table, count, at.field(CatalogueField::Instrument))?;
    let amount = amount_field(table, at.field(CatalogueField::Amount))?;
    if has_budget(before, instrument) {
        let instrument = at.field(CatalogueField::Instrument);
        return Err(CatalogueFault::At(CatalogueDefect::DuplicateBudget, instrument));
    }
    Ok(Budget { instrument, amount })
}

fn has_budget(budgets: &[Budget], instrument: u32) -> bool
    ensures { result ≡ list_any (is_budget instrument) budgets.now }
{
    budgets.iter().any(|budget| budget.instrument == instrument)
}

#[tactic(auto, unfolding(crate::specs::Recorders::budgeted))]
fn budgeted(table: &Table, count: u32, at: CatalogueSpot) -> Result<u32, CatalogueFault>
    ensures { result ≡ budgeted at count (table_view table.now) }
{
    let number = number_field(table, "instrument", at)?;
    number_below(count, number).ok_or(CatalogueFault::At(CatalogueDefect::UnknownInstrument, at))
}

// A whole number that a budget or a range needs.
#[tactic(auto, unfolding(crate::specs::Recorders::number_field))]
pub(crate) fn number_field(
    table: &Table,
    name: &str,
    at: CatalogueSpot,
) -> Result<i64, CatalogueFault>
    ensures { result ≡ number_field at name.now (table_view table.now) }
{
    let faults = faults_at(at);
    let value = required(table, name, &faults)?;
    integer_of(value, &faults)
}

fn number_below(count: u32, number: i64) -> Option<u32>
    ensures { result ≡ number_below count number }
{
    if 0 <= number && number < count as i64 {
        Some(number as u32)
    } else {
        None
    }
}

#[tactic(auto, unfolding(crate::specs::Recorders::amount_field))]
fn amount_field(table: &Table, at: CatalogueSpot) -> Result<u64, CatalogueFault>
    ensures { result ≡ amount_field at (table_view table.now) }
{
    let number = number_field(table, "amount", at)?;
    amount_from(number).ok_or(CatalogueFault::At(CatalogueDefect::BadRange, at))
}

pub(crate) fn amount_from(number: i64) -> Option<u64>
    ensures { result ≡ amount_from number }
{
    if 0 <= number {
        Some(number as u64)
    } else {
        None
    }
}
