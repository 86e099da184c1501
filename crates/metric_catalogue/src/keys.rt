//! The keys of an instrument.
ghost use Rattle.std.specs.Prelude.{◌≡◌, ◌<◌, ◌∷◌, ◌++◌, length, IfOk, OnOk};
ghost use Rattle.std.specs.List.{list_any};
ghost use Rattle.std.specs.Option.{option_map};
ghost use Rattle.toml.specs.View.{table_view};
ghost use Rattle.metric_base.specs.Steps.{Gives};
ghost use Rattle.metric_table.specs.Fields.{now_of};
ghost use Rattle.metric_catalogue.specs.Keys.{key_name, key_named, key_of, only_key_fields, optional_field, values_with};
ghost use Rattle.metric_contents.specs.KeyNames.{is_key};

use crate::fault::{
    CatalogueDefect, CatalogueFault, CatalogueField, CataloguePlace, CatalogueSpot,
};
use crate::texts::{copy_short, faults_at, label_of, unknown_at};
use crate::values::values_field;
use metric_base::{Copied, Items, Text};
use metric_contents::{Key, Values};
use metric_names::AttrValue;
use metric_table::{flag_or, only, optional_text, text_field};
use std::alloc::{AllocError, Global};
use toml::Table;

// The fields of a key's table.
pub(crate) const KEY_FIELDS: [&str; 3] = ["name", "values", "optional"];

#[tactic(auto, unfolding(crate::specs::Keys::key_of))]
pub(crate) fn key_of(
    alloc: Global,
    table: &Table,
    format: u8,
    instrument: u32,
    before: &[Key],
) -> Result<Key, CatalogueFault>
    requires { length before.now < 8 }
    ensures { Gives CatalogueFault.Memory result
        (key_of format instrument before.now (table_view table.now)) }
{
    let at = CataloguePlace::Key(instrument, before.len() as u32);
    only_key_fields(table, at)?;
    let name_at = at.field(CatalogueField::Name);
    let text = text_field(table, "name", &faults_at(name_at))?;
    let key = key_named(alloc, table, format, text, at)?;
    if has_key(before, &key.name) {
        return Err(CatalogueFault::At(CatalogueDefect::DuplicateKey, name_at));
    }
    Ok(key)
}

// What a key of this name declares.
#[tactic(auto, unfolding(crate::specs::Keys::key_named))]
pub(crate) fn key_named(
    alloc: Global,
    table: &Table,
    format: u8,
    text: &str,
    at: CataloguePlace,
) -> Result<Key, CatalogueFault>
    ensures { Gives CatalogueFault.Memory result
        (key_named format at text.now (table_view table.now)) }
{
    let name = key_name(alloc, text, at)?;
    let values = values_field(alloc, table, format, at.field(CatalogueField::Values))?;
    let other_at = at.field(CatalogueField::Other);
    let other = optional_text(table, "other", &faults_at(other_at))?;
    let values = values_with(alloc, values, other, other_at)?;
    let optional = optional_field(table, at.field(CatalogueField::Optional))?;
    Ok(Key {
        name,
        values,
        optional,
    })
}

pub(crate) fn has_key(keys: &[Key], name: &Text) -> bool
    ensures { result ≡ list_any (is_key name.now) keys.now }
{
    keys.iter().any(|key| key.name == *name)
}

#[tactic(auto, unfolding(crate::specs::Keys::only_key_fields), using(crate::proofs::FieldNames::field_names))]
fn only_key_fields(table: &Table, at: CataloguePlace) -> Result<(), CatalogueFault>
    ensures { result ≡ only_key_fields at (table_view table.now) }
{
    only(table, &KEY_FIELDS, &unknown_at(at))
}

#[tactic(auto, unfolding(crate::specs::Keys::optional_field))]
fn optional_field(table: &Table, at: CatalogueSpot) -> Result<bool, CatalogueFault>
    ensures { result ≡ optional_field at (table_view table.now) }
{
    flag_or(table, "optional", false, &faults_at(at))
}

// The name of a key.
#[tactic(auto, unfolding(crate::specs::Keys::key_name))]
fn key_name(alloc: Global, text: &str, at: CataloguePlace) -> Result<Text, CatalogueFault>
    ensures { Gives CatalogueFault.Memory result (key_name at text.now) }
{
    let at = at.field(CatalogueField::Name);
    let name = label_of(alloc, text, at)?;
    if name.as_str() == "otel.metric.overflow" {
        return Err(CatalogueFault::At(CatalogueDefect::ReservedKey, at));
    }
    Ok(name)
}

// The values, and first the text that stands for all others, unless it is among them.
fn values_with(
    alloc: Global,
    values: Values,
    other: Option<&str>,
    at: CatalogueSpot,
) -> Result<Values, CatalogueFault>
    ensures { Gives CatalogueFault.Memory result
        (values_with at values (option_map now_of other.entry)) }
{
    let Some(other) = other else {
        return Ok(values);
    };
    let other = AttrValue::Text(copy_short(alloc, other, at)?);
    if values.number_of(other.as_ref()).is_some() {
        return Ok(values);
    }
    if values.len() == 1000 {
        return Err(CatalogueFault::At(CatalogueDefect::TooMany, at));
    }
    Ok(after(alloc, other, &values)?)
}

// The values after one that is none of them. Fails only when out of memory.
fn after(alloc: Global, first: AttrValue, values: &Values) -> Result<Values, AllocError>
    requires { length values.now < 1000 }
    ensures { IfOk result (λ all. all ≡ first ∷ values.now) }
{
    let mut all = Items::new(alloc);
    all.push(first)?;
    push_copies(alloc, &mut all, values.as_slice())?;
    let made = Values::from_items(alloc, all)?;
    // No value stands twice.
    made.ok_or(AllocError)
}

fn push_copies(
    alloc: Global,
    all: &mut Items<AttrValue>,
    values: &[AttrValue],
) -> Result<(), AllocError>
    ensures { OnOk result (all.new ≡ all.old ++ values.now) }
{
    for value in values {
        all.push(value.copy(alloc)?)?;
    }
    Ok(())
}
