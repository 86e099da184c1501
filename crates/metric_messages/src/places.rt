//! Where the tables of a catalogue and a config that were read stand.
ghost use Rattle.std.specs.Prelude.{◌≡◌, ◌≤◌, IfOk, Some, map};
ghost use Rattle.std.specs.List.{list_any};
ghost use Rattle.std.specs.Option.{option_map};
ghost use Rattle.toml.specs.Parse.{parse_document};
ghost use Rattle.toml.specs.View.{table_view, view};
ghost use Rattle.metric_table.specs.Fields.{as_list};
ghost use Rattle.metric_messages.specs.Places.{file_of, has_group, has_groups, is_untold, seats_in, seats_of, standing, standing_table, table_of, table_within, tables_in, written};

use crate::sources::{NamedText, Pair};
use metric_catalogue::{CataloguePlace, is_three};
use metric_lint::{Position, locate_in_catalogue, locate_in_config};
use metric_table::member;
use metric_views::ConfigPlace;
use std::alloc::{AllocError, Global};
use toml::{Table, Value};

// A table of a catalogue or a config.
#[derive(Clone, Copy)]
pub(crate) enum Place {
    Catalogue(CataloguePlace),
    Config(ConfigPlace),
}

// Words, where they could be made, with the place that they are about.
pub(crate) fn placed(
    place: Place,
    words: Result<String, AllocError>,
) -> Result<(Place, String), AllocError>
    ensures { IfOk result (λ told. told.0 ≡ place) }
{
    Ok((place, words?))
}

// The text that a place is in.
pub(crate) fn source_of(pair: Pair<'_>, place: Place) -> NamedText<'_>
    ensures { result.name.now ≡ file_of pair.entry place }
{
    match place {
        Place::Catalogue(_) => pair.catalogue_source,
        Place::Config(_) => pair.config_source,
    }
}

// Where the table of a place stands.
pub(crate) fn position_of(
    alloc: Global,
    pair: Pair<'_>,
    place: Place,
) -> Result<Option<Position>, AllocError>
    ensures { IfOk result (λ found. found ≡ standing pair.entry.catalogue_source.text.now
        pair.entry.config_source.text.now place) }
{
    match place {
        Place::Catalogue(place) => { position_of_table(alloc, pair.catalogue_source.text, place) }
        Place::Config(place) => locate_in_config(alloc, pair.config_source.text, place),
    }
}

// Where the table of a place stands in the text of a catalogue, if its headers tell.
fn position_of_table(
    alloc: Global,
    text: &str,
    place: CataloguePlace,
) -> Result<Option<Position>, AllocError>
    ensures { IfOk result (λ found. found ≡ standing_table text.now place) }
{
    if is_untold(alloc, text, place)? {
        return Ok(None);
    }
    let place = written(alloc, text, place)?;
    locate_in_catalogue(alloc, text, place)
}

fn is_untold(alloc: Global, text: &str, place: CataloguePlace) -> Result<bool, AllocError>
    ensures { IfOk result (λ untold. untold ≡ is_untold text.now place) }
{
    match place {
        CataloguePlace::Instrument(_) => has_groups(alloc, text),
        _ => Ok(false),
    }
}

fn has_groups(alloc: Global, text: &str) -> Result<bool, AllocError>
    ensures { IfOk result (λ grouped. grouped ≡ has_groups (parse_document text.now)) }
{
    match toml::table_from_str(alloc, text) {
        Ok(top) => Ok(has_groups_in(&top)),
        Err(error) if error.is_memory() => Err(AllocError),
        Err(_) => Ok(false),
    }
}

fn has_groups_in(top: &Table) -> bool
    ensures { result ≡ has_groups (Some (table_view top.now)) }
{
    are_grouped(tables_in(member(top, "meter")))
}

fn are_grouped(meters: &[Value]) -> bool
    ensures { result ≡ list_any has_group (map view meters.now) }
{
    is_any_grouped(meters)
}

fn is_any_grouped(meters: &[Value]) -> bool
    ensures { result ≡ list_any (λ v. has_group (view v)) meters.now }
{
    meters.iter().any(|meter| has_group(meter))
}

// Whether a meter has groups.
fn has_group(meter: &Value) -> bool
    ensures { result ≡ has_group (view meter.now) }
{
    match meter {
        Value::Table(fields) => member(fields, "group").is_some(),
        _ => false,
    }
}

// The place as a text has it: the table that stands for a recorder.
fn written(alloc: Global, text: &str, place: CataloguePlace) -> Result<CataloguePlace, AllocError>
    ensures { IfOk result (λ found. found ≡ written text.now place) }
{
    match place {
        CataloguePlace::Recorder(number) => {
            let table = table_within(alloc, text, number)?;
            Ok(CataloguePlace::Recorder(table))
        }
        place => Ok(place),
    }
}

fn table_within(alloc: Global, text: &str, number: u32) -> Result<u32, AllocError>
    ensures { IfOk result (λ table. table ≡ table_within number (parse_document text.now)) }
{
    match toml::table_from_str(alloc, text) {
        Ok(top) => Ok(table_in(&top, number)),
        Err(error) if error.is_memory() => Err(AllocError),
        Err(_) => Ok(number),
    }
}

fn table_in(top: &Table, number: u32) -> u32
    ensures { result ≡ table_within number (Some (table_view top.now)) }
{
    if is_three(member(top, "format")) {
        table_of(tables_in(member(top, "recorder")), number)
    } else {
        number
    }
}

fn tables_in(value: Option<&Value>) -> &[Value]
    ensures { map view result.now ≡ tables_in (option_map (λ v. view v.now) value.entry) }
{
    match value {
        Some(value) => as_list(value).unwrap_or(&[]),
        None => &[],
    }
}

#[tactic(auto, using(metric_table::proofs::Tables::list_laws))]
fn as_list(value: &Value) -> Option<&[Value]>
    ensures { option_map (λ vs. map view vs.now) result ≡ as_list (view value.now) }
{
    match value.as_array() {
        Some(values) => Some(values.as_slice()),
        None => None,
    }
}

// The table that stands for the recorder of a number.
fn table_of(tables: &[Value], number: u32) -> u32
    ensures { result ≡ table_of number (map view tables.now) }
{
    let mut left = number;
    let mut passed = 0u32;
    for table in tables {
        let seats = seats_of(table);
        if left < seats {
            return passed;
        }
        left -= seats;
        passed += 1;
    }
    passed + left
}

// For how many recorders a table stands.
fn seats_of(table: &Value) -> u32
    ensures exact { result ≡ seats_of (view table.now) }
    ensures some { 1 ≤ result }
{
    match table {
        Value::Table(fields) => seats_in(member(fields, "count")),
        _ => 1,
    }
}

fn seats_in(count: Option<&Value>) -> u32
    ensures exact { result ≡ seats_in (option_map (λ v. view v.now) count.entry) }
    ensures some { 1 ≤ result }
{
    match count {
        Some(Value::Integer(count)) if 1 <= *count && *count <= 64 => *count as u32,
        _ => 1,
    }
}
