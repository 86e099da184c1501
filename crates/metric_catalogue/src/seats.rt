//! Recorders of which one table may stand for several.
ghost use Rattle.std.specs.Prelude.{◌≡◌, ◌≤◌, ◌<◌, ◌+◌, length, map, unwrap_or, Some, IfOk, OnOk};
ghost use Rattle.std.specs.Option.{option_map};
ghost use Rattle.toml.specs.View.{table_view, view};
ghost use Rattle.metric_base.specs.Steps.{Advances, Gives, each, in_turn, with_next};
ghost use Rattle.metric_table.specs.Fields.{only};
ghost use Rattle.metric_catalogue.specs.Faults.{faults_at, field_at};
ghost use Rattle.metric_catalogue.specs.Seats.{count_within, numbered, seat_fields, seat_name, seat_names, seat_of, seats_declared, with_seats};

use crate::fault::{
    CatalogueDefect, CatalogueFault, CatalogueField, CataloguePlace, CatalogueSpot,
};
use crate::named::{Named, budgets_within};
use crate::recorders::has_recorder;
use crate::texts::{faults_at, label_field, label_of, unknown_at};
use metric_base::{Copied, Few, Items, Text};
use metric_contents::{Budget, Recorder};
use metric_table::{integer_of, member, only};
use std::alloc::{AllocError, Global};
use toml::{Table, Value};

// The fields of a table of recorders.
pub(crate) const SEAT_FIELDS: [&str; 3] = ["name", "count", "budget"];

// How many tables of recorders were read, and the recorders that they stand for.
#[derive(Drop)]
pub(crate) struct Seated {
    pub(crate) tables: u32,
    pub(crate) recorders: Items<Recorder>,
}

// The recorders that these tables stand for.
#[tactic(auto, unfolding(crate::specs::Seats::seats_declared))]
pub(crate) fn seats_declared(
    alloc: Global,
    tables: &[&Table],
    named: &[Named],
) -> Result<Items<Recorder>, CatalogueFault>
    requires tables { length tables.now ≤ 64 }
    requires named { length named.now ≤ 512 }
    ensures exact { Gives CatalogueFault.Memory result
        (seats_declared named.now (map (λ t. table_view t.now) tables.now)) }
    ensures few { IfOk result (λ recorders. length recorders ≤ 64) }
{
    let mut seated = Seated {
        tables: 0,
        recorders: Items::new(alloc),
    };
    add_tables(alloc, &mut seated, tables, named)?;
    Ok(seated.recorders)
}

// Puts the recorders of these tables after those before. Where there is a fault, some may have been put.
fn add_tables(
    alloc: Global,
    seated: &mut Seated,
    tables: &[&Table],
    named: &[Named],
) -> Result<(), CatalogueFault>
    requires tables { seated.old.tables + length tables.now ≤ 64 }
    requires recorders { length seated.old.recorders ≤ 64 }
    requires named { length named.now ≤ 512 }
    ensures exact { Advances CatalogueFault.Memory result seated.new
        (in_turn (with_seats named.now) seated.old (map (λ t. table_view t.now) tables.now)) }
    ensures few { OnOk result (length seated.new.recorders ≤ 64) }
{
    for table in tables {
        add_table(alloc, seated, table, named)?;
    }
    Ok(())
}

#[tactic(auto, unfolding(crate::specs::Seats::with_seats))]
fn add_table(
    alloc: Global,
    seated: &mut Seated,
    table: &Table,
    named: &[Named],
) -> Result<(), CatalogueFault>
    requires tables { seated.old.tables < 64 }
    requires recorders { length seated.old.recorders ≤ 64 }
    requires named { length named.now ≤ 512 }
    ensures exact { Advances CatalogueFault.Memory result seated.new
        (with_seats named.now seated.old (table_view table.now)) }
    ensures tables { OnOk result (seated.new.tables ≡ seated.old.tables + 1) }
    ensures few { OnOk result (length seated.new.recorders ≤ 64) }
{
    let at = CataloguePlace::Recorder(seated.tables);
    let name = seat_name(alloc, table, at)?;
    let count = count_within(member(table, "count"), at.field(CatalogueField::Count))?;
    let budget_at = at.field(CatalogueField::Budget);
    let budgets = budgets_within(alloc, member(table, "budget"), named, budget_at)?;
    if seated.recorders.len() + count.unwrap_or(1) as usize > 64 {
        let all = CataloguePlace::Top.field(CatalogueField::Recorder);
        return Err(CatalogueFault::At(CatalogueDefect::TooMany, all));
    }
    let name_at = at.field(CatalogueField::Name);
    let recorders = &mut seated.recorders;
    add_seats(alloc, recorders, name.as_str(), count, &budgets, name_at)?;
    seated.tables += 1;
    Ok(())
}

#[tactic(auto, using(crate::proofs::FieldNames::field_names))]
fn only_seat_fields(table: &Table, at: CataloguePlace) -> Result<(), CatalogueFault>
    ensures { result ≡ only (faults_at (field_at at CatalogueField.Unknown)) seat_fields
        (table_view table.now) }
{
    only(table, &SEAT_FIELDS, &unknown_at(at))
}

#[tactic(auto, unfolding(crate::specs::Seats::seat_name))]
fn seat_name(alloc: Global, table: &Table, at: CataloguePlace) -> Result<Text, CatalogueFault>
    ensures { Gives CatalogueFault.Memory result (seat_name at (table_view table.now)) }
{
    only_seat_fields(table, at)?;
    label_field(alloc, table, "name", at.field(CatalogueField::Name))
}

fn count_within(value: Option<&Value>, at: CatalogueSpot) -> Result<Option<u8>, CatalogueFault>
    ensures exact { result ≡ count_within at (option_map (λ v. view v.now) value.entry) }
    ensures few { IfOk result (λ count. unwrap_or count 1 ≤ 64) }
{
    match value {
        Some(value) => {
            let number = integer_of(value, &faults_at(at))?;
            if 1 <= number && number <= 64 {
                Ok(Some(number as u8))
            } else {
                Err(CatalogueFault::At(CatalogueDefect::BadRange, at))
            }
        }
        None => Ok(None),
    }
}

// Puts the recorders that a table of this name and count stands for last, each with the budgets. Where there is a fault,
// some may have been put.
fn add_seats(
    alloc: Global,
    recorders: &mut Items<Recorder>,
    name: &str,
    count: Option<u8>,
    budgets: &Few<Budget, 512>,
    at: CatalogueSpot,
) -> Result<(), CatalogueFault>
    requires { length recorders.old + unwrap_or count 1 ≤ 64 }
    ensures exact { Advances CatalogueFault.Memory result recorders.new
        (each (seat_of at budgets.now) recorders.old (seat_names name.now count)) }
    ensures few { OnOk result
        (length recorders.new ≡ length recorders.old + unwrap_or count 1) }
{
    match count {
        Some(count) => add_numbered(alloc, recorders, name, count, budgets, at),
        None => add_seat(alloc, recorders, name, budgets, at),
    }
}

// Puts so many recorders, whose names end with numbers from 0 on.
fn add_numbered(
    alloc: Global,
    recorders: &mut Items<Recorder>,
    name: &str,
    count: u8,
    budgets: &Few<Budget, 512>,
    at: CatalogueSpot,
) -> Result<(), CatalogueFault>
    requires { length recorders.old + count ≤ 64 }
    ensures exact { Advances CatalogueFault.Memory result recorders.new
        (each (seat_of at budgets.now) recorders.old (seat_names name.now (Some count))) }
    ensures few { OnOk result (length recorders.new ≡ length recorders.old + count) }
{
    for number in 0..count {
        let next = numbered(alloc, name, number)?;
        add_seat(alloc, recorders, next.as_str(), budgets, at)?;
    }
    Ok(())
}

// A name that ends with a number.
fn numbered(alloc: Global, name: &str, number: u8) -> Result<Text, AllocError>
    ensures { IfOk result (λ text. text ≡ numbered name.now number) }
{
    let string = format!(in alloc; "{name} {number}")?;
    Ok(Text::from_string(string))
}

// Puts a recorder last, unless its name is taken.
#[tactic(auto, unfolding(crate::specs::Seats::seat_of))]
fn add_seat(
    alloc: Global,
    recorders: &mut Items<Recorder>,
    name: &str,
    budgets: &Few<Budget, 512>,
    at: CatalogueSpot,
) -> Result<(), CatalogueFault>
    ensures exact { Advances CatalogueFault.Memory result recorders.new
        (with_next (seat_of at budgets.now) recorders.old name.now) }
    ensures few { OnOk result (length recorders.new ≡ length recorders.old + 1) }
{
    let name = label_of(alloc, name, at)?;
    if has_recorder(recorders.as_slice(), &name) {
        return Err(CatalogueFault::At(CatalogueDefect::DuplicateRecorder, at));
    }
    let budgets = budgets.copy(alloc)?;
    Ok(recorders.push(Recorder { name, budgets })?)
}
