//! The fields of a table that are lists.
ghost use Rattle.std.specs.Prelude.{◌≡◌, ◌≤◌, Ok, Err, MatchResult, IfOk, is_some, map, length, vec_len};
ghost use Rattle.std.specs.List.{list_all};
ghost use Rattle.toml.specs.Data.{as_integer};
ghost use Rattle.toml.specs.View.{table_view, view};
ghost use Rattle.metric_base.specs.Steps.{Gives, GivesBy};
ghost use Rattle.std.specs.Option.{option_map};
ghost use Rattle.metric_table.specs.Fields.{Reads, all_integers_of, as_list, at_most, each_alone, integer_of, integers_of, list_of, now_of, short_text_of, table_of, tables_field, tables_of, texts_of, whole_in};

use crate::faults::FieldFaults;
use crate::fields::{integer_of, member, short_text, text_of};
use metric_base::{Items, Text};
use std::alloc::Global;
use toml::{Table, Value};

/// The list of at most so many values that a value is.
#[tactic(auto, unfolding(crate::specs::Fields::list_of))]
pub fn list_of<'a, F: Copy>(
    value: &'a Value,
    most: usize,
    faults: &FieldFaults<F>,
) -> Result<&'a [Value], F>
    ensures exact { Reads (λ values. map view values.now) result
        (list_of faults.now most (view value.now)) }
    ensures few { IfOk result (λ vs. length vs.now ≤ most) }
{
    match as_list(value) {
        Some(values) => at_most(values, most, faults.too_many),
        None => Err(faults.wrong_kind),
    }
}

#[tactic(auto, using(crate::proofs::Tables::list_laws))]
fn as_list(value: &Value) -> Option<&[Value]>
    ensures { option_map (λ vs. map view vs.now) result ≡ as_list (view value.now) }
{
    match value.as_array() {
        Some(values) => Some(values.as_slice()),
        None => None,
    }
}

fn at_most<'a, F: Copy>(values: &'a [Value], most: usize, too_many: F) -> Result<&'a [Value], F>
    ensures exact { Reads (λ values. map view values.now) result
        (at_most most too_many (map view values.now)) }
    ensures few { IfOk result (λ vs. length vs.now ≤ most) }
{
    if values.len() <= most {
        Ok(values)
    } else {
        Err(too_many)
    }
}

/// The table that a value is.
#[tactic(auto, unfolding(crate::specs::Fields::table_of))]
pub fn table_of<'a, F: Copy>(value: &'a Value, faults: &FieldFaults<F>) -> Result<&'a Table, F>
    ensures { Reads (λ table. table_view table.now) result (table_of faults.now (view value.now)) }
{
    match value.as_table() {
        Some(table) => Ok(table),
        None => Err(faults.wrong_kind),
    }
}

// The tables that the values of a list are.
#[tactic(auto, unfolding(crate::specs::Fields::tables_of))]
fn tables_of<'a, F: Copy + Drop>(
    alloc: Global,
    values: &'a [Value],
    faults: &FieldFaults<F>,
) -> Result<Items<&'a Table>, F>
    ensures exact { GivesBy (map (λ table. table_view table.now)) faults.now.memory result
        (tables_of faults.now (map view values.now)) }
    ensures few { IfOk result (λ ts. length ts ≤ length values.now) }
{
    let mut tables = Items::new(alloc);
    for value in values {
        let table = table_of(value, faults)?;
        if tables.push(table).is_err() {
            return Err(faults.memory);
        }
    }
    Ok(tables)
}

/// The tables of a field that is a list of at most so many tables, or none where the table does not
/// have it.
#[tactic(auto, unfolding(crate::specs::Fields::tables_field))]
pub fn tables_field<'a, F: Copy + Drop>(
    alloc: Global,
    table: &'a Table,
    name: &str,
    most: usize,
    faults: &FieldFaults<F>,
) -> Result<Items<&'a Table>, F>
    ensures exact { GivesBy (map (λ table. table_view table.now)) faults.now.memory result
        (tables_field faults.now most name.now (table_view table.now)) }
    ensures few { IfOk result (λ ts. length ts ≤ most) }
{
    match member(table, name) {
        Some(value) => {
            let values = list_of(value, most, faults)?;
            tables_of(alloc, values, faults)
        }
        None => Ok(Items::new(alloc)),
    }
}

// The whole numbers that the values of a list are.
#[tactic(auto, unfolding(crate::specs::Fields::integers_of))]
fn integers<F: Copy + Drop>(
    alloc: Global,
    values: &[Value],
    faults: &FieldFaults<F>,
) -> Result<Items<i64>, F>
    ensures exact { Gives faults.now.memory result
        (each_alone (integer_of faults.now) (map view values.now)) }
    ensures few { IfOk result (λ ns. length ns ≤ length values.now) }
{
    let mut numbers = Items::new(alloc);
    for value in values {
        let number = integer_of(value, faults)?;
        if numbers.push(number).is_err() {
            return Err(faults.memory);
        }
    }
    Ok(numbers)
}

/// The list of at most so many whole numbers that a value is.
#[tactic(auto, unfolding(crate::specs::Fields::integers_of))]
pub fn integers_of<F: Copy + Drop>(
    alloc: Global,
    value: &Value,
    most: usize,
    faults: &FieldFaults<F>,
) -> Result<Items<i64>, F>
    ensures exact { Gives faults.now.memory result (integers_of faults.now most (view value.now)) }
    ensures few { IfOk result (λ ns. length ns ≤ most) }
{
    let values = list_of(value, most, faults)?;
    integers(alloc, values, faults)
}

/// The values of a list of any length, of which each is a whole number. They stay where they are, since there may be
/// far more of them than the caller takes.
#[tactic(auto, unfolding(crate::specs::Fields::all_integers_of))]
pub fn all_integers_of<'a, F: Copy>(
    value: &'a Value,
    faults: &FieldFaults<F>,
) -> Result<&'a [Value], F>
    ensures { Reads (λ values. map (λ v. whole_in (view v)) values.now) result
        (all_integers_of faults.now (view value.now)) }
{
    match as_list(value) {
        Some(values) => integers_only(values, faults),
        None => Err(faults.wrong_kind),
    }
}

#[tactic(auto, using(crate::proofs::Integers::whole_laws))]
fn integers_only<'a, F: Copy>(
    values: &'a [Value],
    faults: &FieldFaults<F>,
) -> Result<&'a [Value], F>
    ensures { Reads (λ values. map (λ v. whole_in (view v)) values.now) result
        (each_alone (integer_of faults.now) (map view values.now)) }
{
    if are_integers(values) {
        Ok(values)
    } else {
        Err(faults.wrong_kind)
    }
}

fn are_integers(values: &[Value]) -> bool
    ensures { result ≡ list_all (λ v. is_some (as_integer (view v))) values.now }
{
    values.iter().all(|value| value.is_integer())
}

// The text of at most 1,023 characters that a value is.
#[tactic(auto, unfolding(crate::specs::Fields::short_text_of))]
fn short_text_of<'a, F: Copy>(value: &'a Value, faults: &FieldFaults<F>) -> Result<&'a str, F>
    ensures { Reads now_of result (short_text_of faults.now (view value.now)) }
{
    let text = text_of(value, faults)?;
    short_text(text, faults)
}

// A copy of a text.
fn copied<F: Copy>(alloc: Global, text: &str, memory: F) -> Result<Text, F>
    ensures { MatchResult result (λ t. t ≡ text.now) (λ e. e ≡ memory) }
{
    match Text::new(alloc, text) {
        Ok(text) => Ok(text),
        Err(_) => Err(memory),
    }
}

fn texts<F: Copy + Drop>(
    alloc: Global,
    values: &[Value],
    faults: &FieldFaults<F>,
) -> Result<Items<Text>, F>
    ensures exact { Gives faults.now.memory result
        (each_alone (short_text_of faults.now) (map view values.now)) }
    ensures few { IfOk result (λ ts. length ts ≤ length values.now) }
{
    let mut texts = Items::new(alloc);
    for value in values {
        let text = short_text_of(value, faults)?;
        let text = copied(alloc, text, faults.memory)?;
        if texts.push(text).is_err() {
            return Err(faults.memory);
        }
    }
    Ok(texts)
}

/// The list of at most so many texts, each of at most 1,023 characters, that a value is.
#[tactic(auto, unfolding(crate::specs::Fields::texts_of))]
pub fn texts_of<F: Copy + Drop>(
    alloc: Global,
    value: &Value,
    most: usize,
    faults: &FieldFaults<F>,
) -> Result<Items<Text>, F>
    ensures exact { Gives faults.now.memory result (texts_of faults.now most (view value.now)) }
    ensures few { IfOk result (λ ts. length ts ≤ most) }
{
    let values = list_of(value, most, faults)?;
    texts(alloc, values, faults)
}
