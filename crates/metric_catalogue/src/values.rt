//! The values of a key.
ghost use Rattle.std.specs.Prelude.{◌≡◌, ◌≤◌, ◌<◌, ◌+◌, ◌++◌, length, map, IfOk, OnOk};
ghost use Rattle.std.specs.List.{range_with_len};
ghost use Rattle.toml.specs.View.{table_view, view};
ghost use Rattle.metric_base.specs.Steps.{Advances, Gives, in_turn};
ghost use Rattle.metric_catalogue.specs.KeyValues.{nth_from, some_values, span_length, span_of, value_at, values_field, values_listed, with_entry, with_span, with_table, with_value, with_values};

use crate::fault::{CatalogueDefect, CatalogueFault, CatalogueSpot};
use crate::recorders::number_field;
use crate::texts::{copy_short, faults_at};
use metric_base::Items;
use metric_contents::Values;
use metric_names::AttrValue;
use metric_table::{list_of, only, required};
use std::alloc::{AllocError, Global};
use toml::{Table, Value};

// The fields of a range among the values.
pub(crate) const SPAN_FIELDS: [&str; 2] = ["from", "to"];

// How many entries of a list of values were read, and the values that they stand for.
#[derive(Drop)]
pub(crate) struct Listing {
    pub(crate) entries: u32,
    pub(crate) values: Items<AttrValue>,
}

// The values of a key, of which none stands twice.
#[tactic(auto, unfolding(crate::specs::KeyValues::values_field))]
pub(crate) fn values_field(
    alloc: Global,
    table: &Table,
    format: u8,
    at: CatalogueSpot,
) -> Result<Values, CatalogueFault>
    ensures { Gives CatalogueFault.Memory result (values_field format at (table_view table.now)) }
{
    let values = some_values(alloc, table, format, at)?;
    let distinct = Values::from_items(alloc, values)?;
    distinct.ok_or(CatalogueFault::At(CatalogueDefect::DuplicateValue, at))
}

#[tactic(auto, unfolding(crate::specs::KeyValues::some_values))]
fn some_values(
    alloc: Global,
    table: &Table,
    format: u8,
    at: CatalogueSpot,
) -> Result<Items<AttrValue>, CatalogueFault>
    ensures exact { Gives CatalogueFault.Memory result
        (some_values format at (table_view table.now)) }
    ensures few { IfOk result (λ values. length values ≤ 1000) }
{
    let faults = faults_at(at);
    let value = required(table, "values", &faults)?;
    let values = list_of(value, 1000, &faults)?;
    if values.is_empty() {
        return Err(CatalogueFault::At(CatalogueDefect::MissingField, at));
    }
    values_listed(alloc, values, format, at)
}

// The values that the entries of a list stand for.
#[tactic(auto, unfolding(crate::specs::KeyValues::values_listed))]
fn values_listed(
    alloc: Global,
    entries: &[Value],
    format: u8,
    at: CatalogueSpot,
) -> Result<Items<AttrValue>, CatalogueFault>
    requires { length entries.now ≤ 1000 }
    ensures exact { Gives CatalogueFault.Memory result
        (values_listed format at (map view entries.now)) }
    ensures few { IfOk result (λ values. length values ≤ 1000) }
{
    let mut listing = Listing {
        entries: 0,
        values: Items::new(alloc),
    };
    add_entries(alloc, &mut listing, entries, format, at)?;
    Ok(listing.values)
}

// Puts the values of these entries after those before. Where there is a fault, some may have been put.
fn add_entries(
    alloc: Global,
    listing: &mut Listing,
    entries: &[Value],
    format: u8,
    at: CatalogueSpot,
) -> Result<(), CatalogueFault>
    requires entries { listing.old.entries + length entries.now ≤ 1000 }
    requires few { length listing.old.values ≤ 1000 }
    ensures exact { Advances CatalogueFault.Memory result listing.new
        (in_turn (with_entry format at) listing.old (map view entries.now)) }
    ensures few { OnOk result (length listing.new.values ≤ 1000) }
{
    for entry in entries {
        add_entry(alloc, listing, entry, format, at)?;
    }
    Ok(())
}

#[tactic(auto, unfolding(crate::specs::KeyValues::with_entry))]
fn add_entry(
    alloc: Global,
    listing: &mut Listing,
    entry: &Value,
    format: u8,
    at: CatalogueSpot,
) -> Result<(), CatalogueFault>
    requires entries { listing.old.entries < 1000 }
    requires few { length listing.old.values ≤ 1000 }
    ensures exact { Advances CatalogueFault.Memory result listing.new
        (with_entry format at listing.old (view entry.now)) }
    ensures entries { OnOk result (listing.new.entries ≡ listing.old.entries + 1) }
    ensures few { OnOk result (length listing.new.values ≤ 1000) }
{
    let entry_at = at.entry(listing.entries);
    let values = &mut listing.values;
    add_values(alloc, values, entry, format, at, entry_at)?;
    listing.entries += 1;
    Ok(())
}

// Puts the values that an entry of a list stands for last.
fn add_values(
    alloc: Global,
    values: &mut Items<AttrValue>,
    entry: &Value,
    format: u8,
    list: CatalogueSpot,
    at: CatalogueSpot,
) -> Result<(), CatalogueFault>
    requires { length values.old ≤ 1000 }
    ensures exact { Advances CatalogueFault.Memory result values.new
        (with_values format list at values.old (view entry.now)) }
    ensures few { OnOk result (length values.new ≤ 1000) }
{
    match entry {
        Value::Table(table) => add_table(values, table, format, list, at),
        _ => add_value(alloc, values, entry, list, at),
    }
}

// Puts a value last.
#[tactic(auto, unfolding(crate::specs::KeyValues::with_value))]
fn add_value(
    alloc: Global,
    values: &mut Items<AttrValue>,
    entry: &Value,
    list: CatalogueSpot,
    at: CatalogueSpot,
) -> Result<(), CatalogueFault>
    requires { length values.old ≤ 1000 }
    ensures exact { Advances CatalogueFault.Memory result values.new
        (with_value list at values.old (view entry.now)) }
    ensures few { OnOk result (length values.new ≤ 1000) }
{
    let value = value_at(alloc, entry, at)?;
    if values.len() >= 1000 {
        return Err(CatalogueFault::At(CatalogueDefect::TooMany, list));
    }
    Ok(values.push(value)?)
}

// Puts the whole numbers of a range last, in the format that has ranges.
fn add_table(
    values: &mut Items<AttrValue>,
    table: &Table,
    format: u8,
    list: CatalogueSpot,
    at: CatalogueSpot,
) -> Result<(), CatalogueFault>
    requires { length values.old ≤ 1000 }
    ensures exact { Advances CatalogueFault.Memory result values.new
        (with_table format list at values.old (table_view table.now)) }
    ensures few { OnOk result (length values.new ≤ 1000) }
{
    if format == 3 {
        add_span(values, table, list, at)
    } else {
        Err(CatalogueFault::At(CatalogueDefect::WrongKind, at))
    }
}

#[tactic(auto, unfolding(crate::specs::KeyValues::with_span))]
fn add_span(
    values: &mut Items<AttrValue>,
    table: &Table,
    list: CatalogueSpot,
    at: CatalogueSpot,
) -> Result<(), CatalogueFault>
    requires { length values.old ≤ 1000 }
    ensures exact { Advances CatalogueFault.Memory result values.new
        (with_span list at values.old (table_view table.now)) }
    ensures few { OnOk result (length values.new ≤ 1000) }
{
    let (first, last) = span_of(table, at)?;
    let count = span_length(first, last);
    if values.len() as u128 + count > 1000 {
        return Err(CatalogueFault::At(CatalogueDefect::TooMany, list));
    }
    Ok(push_span(values, first, count as u16)?)
}

// The first and the last number of a range.
#[tactic(auto, unfolding(crate::specs::KeyValues::span_of), using(crate::proofs::FieldNames::field_names))]
fn span_of(table: &Table, at: CatalogueSpot) -> Result<(i64, i64), CatalogueFault>
    ensures { result ≡ span_of at (table_view table.now) }
{
    only(table, &SPAN_FIELDS, &faults_at(at))?;
    let first = number_field(table, "from", at)?;
    let last = number_field(table, "to", at)?;
    if first <= last {
        Ok((first, last))
    } else {
        Err(CatalogueFault::At(CatalogueDefect::BadRange, at))
    }
}

// How many whole numbers there are from the first to the last.
fn span_length(first: i64, last: i64) -> u128
    ensures exact { result ≡ span_length (first, last) }
    ensures few { result ≤ 18446744073709551616 }
{
    u128::from(last.abs_diff(first)) + 1
}

// Puts so many whole numbers from the first on last.
fn push_span(values: &mut Items<AttrValue>, first: i64, count: u16) -> Result<(), AllocError>
    ensures put { OnOk result
        (values.new ≡ values.old ++ map (nth_from first) (range_with_len 0 count)) }
    ensures more { OnOk result (length values.new ≡ length values.old + count) }
{
    for place in 0..count {
        let value = nth_from(first, place)?;
        values.push(value)?;
    }
    Ok(())
}

// The whole number so many places after the first, which is none above the last of a range.
fn nth_from(first: i64, place: u16) -> Result<AttrValue, AllocError>
    ensures { IfOk result (λ value. value ≡ nth_from first place) }
{
    match first.checked_add(i64::from(place)) {
        Some(number) => Ok(AttrValue::Whole(number)),
        None => Err(AllocError),
    }
}

// The attribute value that a value is.
fn value_at(alloc: Global, value: &Value, at: CatalogueSpot) -> Result<AttrValue, CatalogueFault>
    ensures { Gives CatalogueFault.Memory result (value_at at (view value.now)) }
{
    match value {
        Value::String(text) => {
            let text = copy_short(alloc, text.as_str(), at)?;
            Ok(AttrValue::Text(text))
        }
        Value::Integer(number) => Ok(AttrValue::Whole(*number)),
        Value::Boolean(flag) => Ok(AttrValue::Flag(*flag)),
        _ => Err(CatalogueFault::At(CatalogueDefect::WrongKind, at)),
    }
}
