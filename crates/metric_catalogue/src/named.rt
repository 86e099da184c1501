//! Budgets by the names of instruments.
ghost use Rattle.std.specs.Prelude.{◌≡◌, ◌≤◌, ◌<◌, ◌+◌, ◌++◌, codes, is_some, length, map, nat_le, slice_get, true, IfOk, IfSome, OnOk};
ghost use Rattle.std.specs.BTreeMap.{btree_map_len, keys, values};
ghost use Rattle.std.specs.List.{enumerate_from, flat_map, list_any, position_from};
ghost use Rattle.std.specs.Option.{option_map};
ghost use Rattle.std.specs.String.{string_bytes};
ghost use Rattle.toml.specs.Data.{get_member};
ghost use Rattle.toml.specs.View.{table_view, view};
ghost use Rattle.metric_base.specs.Steps.{Gives};
ghost use Rattle.metric_table.specs.Fields.{names_of};
ghost use Rattle.metric_catalogue.specs.Faults.{entry_at};
ghost use Rattle.metric_catalogue.specs.Seats.{amount_for, amount_in, amount_or, amounts_tried, budget_at, budget_meant, budgets_of, budgets_within, is_named, is_no_amount, is_repeated, is_stranger, meter_name, named_in, named_twice, names_tried, values_in};

use crate::fault::{CatalogueDefect, CatalogueFault, CatalogueSpot};
use crate::recorders::amount_from;
use crate::texts::faults_at;
use metric_base::{Few, Items, Text};
use metric_contents::{Budget, Instrument, Meter};
use metric_table::{member, table_of};
use std::alloc::{AllocError, Global};
use toml::{Table, Value};

// As many as a catalogue has instruments, and the default.
const MOST_BUDGETS: usize = 513;

// An instrument as budgets name it: by its name, or after that of its meter and a slash.
#[derive(Drop)]
pub(crate) struct Named {
    pub(crate) name: Text,
    pub(crate) path: Text,
}

// The names of instruments.
pub(crate) fn named_of(
    alloc: Global,
    meters: &[Meter],
    instruments: &[Instrument],
) -> Result<Items<Named>, AllocError>
    ensures exact { IfOk result (λ named. named ≡ map (named_in meters.now) instruments.now) }
    ensures few { IfOk result (λ named. length named ≡ length instruments.now) }
{
    let mut named = Items::new(alloc);
    for instrument in instruments {
        let one = named_in(alloc, meters, instrument)?;
        named.push(one)?;
    }
    Ok(named)
}

fn named_in(alloc: Global, meters: &[Meter], instrument: &Instrument) -> Result<Named, AllocError>
    ensures { IfOk result (λ one. one ≡ named_in meters.now instrument.now) }
{
    let name = instrument.name.get().as_str();
    let path = path_of(alloc, meter_name(meters, instrument.meter), name)?;
    let name = Text::new(alloc, name)?;
    Ok(Named { name, path })
}

// The name of an instrument after that of its meter.
pub(crate) fn path_of(alloc: Global, meter: &str, name: &str) -> Result<Text, AllocError>
    ensures { IfOk result (λ path. path ≡ meter.now ++ (codes "/" ++ name.now)) }
{
    let mut path = String::from_str(alloc, meter)?;
    path.push_str("/")?;
    path.push_str(name)?;
    Ok(Text::from_string(path))
}

// The name of the meter of a number, which every instrument has.
fn meter_name(meters: &[Meter], number: u32) -> &str
    ensures { result.now ≡ meter_name (slice_get meters.now number) }
{
    match meters.get(number as usize) {
        Some(meter) => meter.name.as_str(),
        None => "",
    }
}

// The budgets of recorders, where there is a table of them.
pub(crate) fn budgets_within(
    alloc: Global,
    value: Option<&Value>,
    named: &[Named],
    at: CatalogueSpot,
) -> Result<Few<Budget, 512>, CatalogueFault>
    requires { length named.now ≤ 512 }
    ensures { Gives CatalogueFault.Memory result
        (budgets_within at named.now (option_map (λ v. view v.now) value.entry)) }
{
    match value {
        Some(value) => {
            let budget = table_of(value, &faults_at(at))?;
            budgets_of(alloc, budget, named, at)
        }
        None => Ok(Few::from_items(Items::new(alloc))),
    }
}

#[tactic(auto, unfolding(crate::specs::Seats::budgets_of))]
fn budgets_of(
    alloc: Global,
    budget: &Table,
    named: &[Named],
    at: CatalogueSpot,
) -> Result<Few<Budget, 512>, CatalogueFault>
    requires { length named.now ≤ 512 }
    ensures { Gives CatalogueFault.Memory result
        (budgets_of at named.now (table_view budget.now)) }
{
    names_tried(budget, named, at)?;
    amounts_tried(budget, named, at)?;
    Ok(Few::from_items(budgets_meant(alloc, budget, named)?))
}

// Tries that each name is that of one instrument, or the default.
#[tactic(auto, unfolding(crate::specs::Seats::names_tried))]
fn names_tried(budget: &Table, named: &[Named], at: CatalogueSpot) -> Result<(), CatalogueFault>
    ensures exact { result ≡ names_tried at named.now (table_view budget.now) }
    ensures few { OnOk result (btree_map_len budget.now ≤ 513) }
{
    if !has_few(budget) {
        return Err(CatalogueFault::At(CatalogueDefect::TooMany, at));
    }
    if let Some(place) = stranger(budget, named) {
        let at = entry_of(at, place);
        return Err(CatalogueFault::At(CatalogueDefect::UnknownInstrument, at));
    }
    if let Some(place) = ambiguous(budget, named) {
        let at = entry_of(at, place);
        return Err(CatalogueFault::At(CatalogueDefect::AmbiguousInstrument, at));
    }
    Ok(())
}

// Tries that each value is a number of recordings, and that no instrument has two.
#[tactic(auto, unfolding(crate::specs::Seats::amounts_tried))]
fn amounts_tried(budget: &Table, named: &[Named], at: CatalogueSpot) -> Result<(), CatalogueFault>
    requires { btree_map_len budget.now ≤ 513 }
    ensures { result ≡ amounts_tried at named.now (table_view budget.now) }
{
    if let Some(place) = no_amount(budget) {
        let at = entry_of(at, place);
        return Err(CatalogueFault::At(CatalogueDefect::BadRange, at));
    }
    if has_repeated(budget, named) {
        Err(CatalogueFault::At(CatalogueDefect::DuplicateBudget, at))
    } else {
        Ok(())
    }
}

fn entry_of(at: CatalogueSpot, place: usize) -> CatalogueSpot
    requires { place < 513 }
    ensures { result ≡ entry_at at place }
{
    at.entry(place as u32)
}

fn has_few(budget: &Table) -> bool
    ensures exact { result ≡ nat_le (length (names_of (table_view budget.now))) 513 }
    ensures few { result ≡ true → btree_map_len budget.now ≤ 513 }
{
    budget.len() <= MOST_BUDGETS
}

// The place of the first name that no instrument has.
fn stranger(budget: &Table, named: &[Named]) -> Option<usize>
    ensures exact { result
        ≡ position_from (is_stranger named.now) 0 (names_of (table_view budget.now)) }
    ensures within { IfSome result (λ place. place < btree_map_len budget.now) }
{
    place_of_stranger(budget, named)
}

fn place_of_stranger(budget: &Table, named: &[Named]) -> Option<usize>
    ensures exact { result ≡ position_from (λ key. is_stranger named.now (string_bytes key)) 0
        (keys budget.now) }
    ensures within { IfSome result (λ place. place < btree_map_len budget.now) }
{
    budget
        .keys()
        .position(|name| is_stranger(named, name.as_str()))
}

fn is_stranger(named: &[Named], name: &str) -> bool
    ensures { result ≡ is_stranger named.now name.now }
{
    name != "*" && !has_named(named, name)
}

fn has_named(named: &[Named], name: &str) -> bool
    ensures { result ≡ list_any (is_named name.now) named.now }
{
    named.iter().any(|one| is_named(one, name))
}

fn is_named(one: &Named, name: &str) -> bool
    ensures { result ≡ is_named name.now one.now }
{
    one.name.as_str() == name || one.path.as_str() == name
}

// The place of the first name that more than one instrument has.
fn ambiguous(budget: &Table, named: &[Named]) -> Option<usize>
    ensures exact { result ≡ position_from (λ name. named_twice name named.now) 0
        (names_of (table_view budget.now)) }
    ensures within { IfSome result (λ place. place < btree_map_len budget.now) }
{
    place_of_ambiguous(budget, named)
}

fn place_of_ambiguous(budget: &Table, named: &[Named]) -> Option<usize>
    ensures exact { result
        ≡ position_from (λ key. named_twice (string_bytes key) named.now) 0 (keys budget.now) }
    ensures within { IfSome result (λ place. place < btree_map_len budget.now) }
{
    budget
        .keys()
        .position(|name| named_twice(named, name.as_str()))
}

fn named_twice(named: &[Named], name: &str) -> bool
    ensures { result ≡ named_twice name.now named.now }
{
    let mut found = false;
    for one in named {
        if is_named(one, name) {
            if found {
                return true;
            }
            found = true;
        }
    }
    false
}

// The place of the first value that is no number of recordings.
fn no_amount(budget: &Table) -> Option<usize>
    ensures exact { result ≡ position_from is_no_amount 0 (values_in (table_view budget.now)) }
    ensures within { IfSome result (λ place. place < btree_map_len budget.now) }
{
    place_of_no_amount(budget)
}

fn place_of_no_amount(budget: &Table) -> Option<usize>
    ensures exact { result ≡ position_from (λ v. is_no_amount (view v)) 0 (values budget.now) }
    ensures within { IfSome result (λ place. place < btree_map_len budget.now) }
{
    budget.values().position(|value| amount_in(value).is_none())
}

// The number of recordings that a value is.
fn amount_in(value: &Value) -> Option<u64>
    ensures { result ≡ amount_in (view value.now) }
{
    match value {
        Value::Integer(number) => amount_from(*number),
        _ => None,
    }
}

// Whether an instrument has a budget by its name alone, and one by its name after that of its meter.
fn has_repeated(budget: &Table, named: &[Named]) -> bool
    ensures { result ≡ list_any (is_repeated (table_view budget.now)) named.now }
{
    named.iter().any(|one| is_repeated(budget, one))
}

fn is_repeated(budget: &Table, one: &Named) -> bool
    ensures { result ≡ is_repeated (table_view budget.now) one.now }
{
    has_field(budget, one.name.as_str()) && has_field(budget, one.path.as_str())
}

pub(crate) fn has_field(table: &Table, name: &str) -> bool
    ensures { result ≡ is_some (get_member name.now (table_view table.now)) }
{
    member(table, name).is_some()
}

// A budget for each instrument that has one.
fn budgets_meant(
    alloc: Global,
    budget: &Table,
    named: &[Named],
) -> Result<Items<Budget>, AllocError>
    requires { length named.now ≤ 512 }
    ensures exact { IfOk result (λ budgets. budgets
        ≡ flat_map (budget_at (table_view budget.now)) (enumerate_from 0 named.now)) }
    ensures few { IfOk result (λ budgets. length budgets ≤ 512) }
{
    let mut budgets = Items::new(alloc);
    let mut number = 0u32;
    for one in named {
        push_budget(&mut budgets, number, amount_for(budget, one))?;
        number += 1;
    }
    Ok(budgets)
}

// Puts the budget of an instrument last, unless it is 0.
fn push_budget(budgets: &mut Items<Budget>, number: u32, amount: u64) -> Result<(), AllocError>
    ensures put { OnOk result (budgets.new ≡ budgets.old ++ budget_meant number amount) }
    ensures few { OnOk result (length budgets.new ≤ length budgets.old + 1) }
{
    if amount == 0 {
        return Ok(());
    }
    budgets.push(Budget {
        instrument: number,
        amount,
    })
}

// How many recordings an instrument has: those by its name, else the default, else none.
fn amount_for(budget: &Table, one: &Named) -> u64
    ensures { result ≡ amount_for (table_view budget.now) one.now }
{
    let default = amount_or(member(budget, "*"), 0);
    let otherwise = amount_or(member(budget, one.path.as_str()), default);
    amount_or(member(budget, one.name.as_str()), otherwise)
}

fn amount_or(value: Option<&Value>, otherwise: u64) -> u64
    ensures { result ≡ amount_or (option_map (λ v. view v.now) value.entry) otherwise }
{
    match value {
        Some(value) => amount_in(value).unwrap_or(0),
        None => otherwise,
    }
}
