//! The keys that a file declares once, each under an id, and the keys of an instrument, which may name them.
ghost use Rattle.std.specs.Prelude.{◌≡◌, ◌≤◌, ◌<◌, [], length, map, IfOk};
ghost use Rattle.std.specs.List.{find, list_all, list_any};
ghost use Rattle.std.specs.Option.{option_copied, option_map};
ghost use Rattle.toml.specs.View.{table_view, view};
ghost use Rattle.metric_base.specs.Steps.{Gives, each};
ghost use Rattle.metric_table.specs.Fields.{Reads, only};
ghost use Rattle.metric_catalogue.specs.Faults.{faults_at, field_at};
ghost use Rattle.metric_catalogue.specs.SharedKeys.{entries_field, entries_within, entry_place, has_id, is_table, key_by_id, key_entry, key_id, shared_fields, shared_key};

use crate::fault::{
    CatalogueDefect, CatalogueFault, CatalogueField, CataloguePlace, CatalogueSpot,
};
use crate::keys::{has_key, key_named, key_of};
use crate::texts::{faults_at, label_field, unknown_at};
use metric_base::{Copied, Items, Text};
use metric_contents::Key;
use metric_table::{list_of, member, only, optional_text};
use std::alloc::Global;
use toml::{Table, Value};

// The fields of a key that is declared once.
pub(crate) const SHARED_FIELDS: [&str; 5] = ["id", "name", "values", "other", "optional"];

// A key that is declared once, for each instrument that names its id.
#[derive(Drop)]
pub(crate) struct SharedKey {
    pub(crate) id: Text,
    pub(crate) key: Key,
}

// The keys that these tables declare.
pub(crate) fn shared_keys(
    alloc: Global,
    tables: &[&Table],
) -> Result<Items<SharedKey>, CatalogueFault>
    requires { length tables.now ≤ 512 }
    ensures { Gives CatalogueFault.Memory result
        (each shared_key [] (map (λ t. table_view t.now) tables.now)) }
{
    let mut keys = Items::new(alloc);
    for table in tables {
        let key = shared_key(alloc, table, keys.as_slice())?;
        keys.push(key)?;
    }
    Ok(keys)
}

#[tactic(auto, unfolding(crate::specs::SharedKeys::shared_key))]
fn shared_key(
    alloc: Global,
    table: &Table,
    before: &[SharedKey],
) -> Result<SharedKey, CatalogueFault>
    requires { length before.now < 512 }
    ensures { Gives CatalogueFault.Memory result (shared_key before.now (table_view table.now)) }
{
    let at = CataloguePlace::SharedKey(before.len() as u32);
    let id = key_id(alloc, table, at)?;
    if is_taken(before, &id) {
        let id = at.field(CatalogueField::Id);
        return Err(CatalogueFault::At(CatalogueDefect::DuplicateKey, id));
    }
    let name_at = at.field(CatalogueField::Name);
    let text = optional_text(table, "name", &faults_at(name_at))?;
    let key = key_named(alloc, table, 3, text.unwrap_or(id.as_str()), at)?;
    Ok(SharedKey { id, key })
}

fn is_taken(keys: &[SharedKey], id: &Text) -> bool
    ensures { result ≡ list_any (has_id id.now) keys.now }
{
    keys.iter().any(|shared| shared.id == *id)
}

#[tactic(auto, using(crate::proofs::FieldNames::field_names))]
fn only_shared_fields(table: &Table, at: CataloguePlace) -> Result<(), CatalogueFault>
    ensures { result ≡ only (faults_at (field_at at CatalogueField.Unknown)) shared_fields
        (table_view table.now) }
{
    only(table, &SHARED_FIELDS, &unknown_at(at))
}

#[tactic(auto, unfolding(crate::specs::SharedKeys::key_id))]
fn key_id(alloc: Global, table: &Table, at: CataloguePlace) -> Result<Text, CatalogueFault>
    ensures { Gives CatalogueFault.Memory result (key_id at (table_view table.now)) }
{
    only_shared_fields(table, at)?;
    label_field(alloc, table, "id", at.field(CatalogueField::Id))
}

// The entries of the keys of an instrument.
#[tactic(auto, unfolding(crate::specs::SharedKeys::entries_field))]
pub(crate) fn entries_field<'t>(
    table: &'t Table,
    format: u8,
    at: CatalogueSpot,
) -> Result<&'t [Value], CatalogueFault>
    ensures exact { Reads (λ entries. map view entries.now) result
        (entries_field format at (table_view table.now)) }
    ensures few { IfOk result (λ entries. length entries.now ≤ 8) }
{
    let entries = entries_within(member(table, "key"), at)?;
    if format == 3 || are_tables(entries) {
        Ok(entries)
    } else {
        Err(CatalogueFault::At(CatalogueDefect::WrongKind, at))
    }
}

fn entries_within<'t>(
    value: Option<&'t Value>,
    at: CatalogueSpot,
) -> Result<&'t [Value], CatalogueFault>
    ensures exact { Reads (λ entries. map view entries.now) result
        (entries_within at (option_map (λ v. view v.now) value.entry)) }
    ensures few { IfOk result (λ entries. length entries.now ≤ 8) }
{
    match value {
        Some(value) => list_of(value, 8, &faults_at(at)),
        None => Ok(&[]),
    }
}

fn are_tables(values: &[Value]) -> bool
    ensures { result ≡ list_all is_table (map view values.now) }
{
    is_each_table(values)
}

fn is_each_table(values: &[Value]) -> bool
    ensures { result ≡ list_all (λ v. is_table (view v)) values.now }
{
    values.iter().all(|value| is_table(value))
}

fn is_table(value: &Value) -> bool
    ensures { result ≡ is_table (view value.now) }
{
    matches!(value, Value::Table(_))
}

// The keys of an instrument.
pub(crate) fn keys_of(
    alloc: Global,
    entries: &[Value],
    format: u8,
    shared: &[SharedKey],
    instrument: u32,
) -> Result<Items<Key>, CatalogueFault>
    requires { length entries.now ≤ 8 }
    ensures exact { Gives CatalogueFault.Memory result
        (each (key_entry format shared.now instrument) [] (map view entries.now)) }
    ensures few { IfOk result (λ keys. length keys ≤ length entries.now) }
{
    let mut keys = Items::new(alloc);
    for entry in entries {
        let key = key_entry(alloc, entry, format, shared, instrument, keys.as_slice())?;
        keys.push(key)?;
    }
    Ok(keys)
}

// One more key, after those before it.
fn key_entry(
    alloc: Global,
    entry: &Value,
    format: u8,
    shared: &[SharedKey],
    instrument: u32,
    before: &[Key],
) -> Result<Key, CatalogueFault>
    requires { length before.now < 8 }
    ensures { Gives CatalogueFault.Memory result
        (key_entry format shared.now instrument before.now (view entry.now)) }
{
    let at = entry_place(instrument, before);
    match entry {
        Value::Table(table) => key_of(alloc, table, format, instrument, before),
        Value::String(id) => key_by_id(alloc, id.as_str(), shared, before, at),
        _ => Err(CatalogueFault::At(CatalogueDefect::WrongKind, at)),
    }
}

fn entry_place(instrument: u32, before: &[Key]) -> CatalogueSpot
    requires { length before.now < 8 }
    ensures { result ≡ entry_place instrument before.now }
{
    let keys = CataloguePlace::Instrument(instrument).field(CatalogueField::Key);
    keys.entry(before.len() as u32)
}

// The key of an id, unless an earlier key has its name.
#[tactic(auto, unfolding(crate::specs::SharedKeys::key_by_id))]
fn key_by_id(
    alloc: Global,
    id: &str,
    shared: &[SharedKey],
    before: &[Key],
    at: CatalogueSpot,
) -> Result<Key, CatalogueFault>
    ensures { Gives CatalogueFault.Memory result (key_by_id at shared.now before.now id.now) }
{
    let Some(found) = key_with(shared, id) else {
        return Err(CatalogueFault::At(CatalogueDefect::UnknownKey, at));
    };
    if has_key(before, &found.key.name) {
        return Err(CatalogueFault::At(CatalogueDefect::DuplicateKey, at));
    }
    Ok(found.key.copy(alloc)?)
}

fn key_with<'k>(shared: &'k [SharedKey], id: &str) -> Option<&'k SharedKey>
    ensures { option_copied result ≡ find (has_id id.now) shared.now }
{
    shared.iter().find(|key| key.id.as_str() == id)
}
