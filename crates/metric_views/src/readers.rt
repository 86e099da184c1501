//! Reading the readers of a config.
ghost use Rattle.std.specs.Prelude.{◌≡◌, ◌≤◌, ◌<◌, codes, IfOk, length, map, Ok, Err, MatchResult};
ghost use Rattle.toml.specs.View.{table_view};
ghost use Rattle.metric_base.specs.Steps.{Gives};
ghost use Rattle.metric_table.specs.Fields.{only};
ghost use Rattle.metric_views.specs.declared.fault.ViewFault.{ViewFault};
ghost use Rattle.metric_views.specs.Faults.{faults_at};
ghost use Rattle.metric_views.specs.Readers.{has_reader, reader_choices, reader_name, reader_of, readers_of};

use crate::by_kind::{AggregationChoice, LimitChoice, TemporalityChoice, choices_field};
use crate::choices::{Aggregation, ByKind, Temporality};
use crate::config::Reader;
use crate::fault::{
    ConfigField, ConfigPlace, ConfigSpot, ViewDefect, ViewFault, faults_at, unknown_at,
};
use metric_base::{Items, Text};
use metric_table::{only, short_text, text_field};
use std::alloc::Global;
use toml::Table;

// The readers of all tables, in order.
#[tactic(auto)]
pub(crate) fn readers_of(alloc: Global, tables: &[&Table]) -> Result<Items<Reader>, ViewFault>
    requires { length tables.now ≤ 16 }
    ensures exact { Gives ViewFault.Memory result
        (readers_of (map (λ t. table_view t.now) tables.now)) }
    ensures few { IfOk result (λ readers. length readers ≤ length tables.now) }
{
    let mut readers = Items::new(alloc);
    for table in tables {
        let reader = reader_of(alloc, readers.as_slice(), table)?;
        readers.push(reader)?;
    }
    Ok(readers)
}

// One more reader, after all those before it.
#[tactic(auto, unfolding(crate::specs::Readers::reader_of), using(crate::proofs::FieldNames::field_names))]
fn reader_of(alloc: Global, before: &[Reader], table: &Table) -> Result<Reader, ViewFault>
    requires { length before.now < 16 }
    ensures { Gives ViewFault.Memory result (reader_of before.now (table_view table.now)) }
{
    let at = ConfigPlace::Reader(before.len() as u32);
    only(table, &READER_FIELDS, &unknown_at(at))?;
    let name = reader_name(before, table, at.field(ConfigField::Name))?;
    let (temporality, aggregation, limit) = reader_choices(table, at)?;
    let name = Text::new(alloc, name)?;
    Ok(Reader {
        name,
        temporality,
        aggregation,
        limit,
    })
}

type Choices = (ByKind<Temporality>, ByKind<Aggregation>, ByKind<u32>);

// What a reader chooses for the kinds.
#[tactic(auto, unfolding(crate::specs::Readers::reader_choices))]
fn reader_choices(table: &Table, at: ConfigPlace) -> Result<Choices, ViewFault>
    ensures { result ≡ reader_choices at (table_view table.now) }
{
    let temporality = choices_field::<TemporalityChoice>(
        table,
        "temporality",
        at,
        ConfigField::Temporality,
    )?;
    let aggregation = choices_field::<AggregationChoice>(
        table,
        "aggregation",
        at,
        ConfigField::Aggregation,
    )?;
    let limit = choices_field::<LimitChoice>(table, "limit", at, ConfigField::Limit)?;
    Ok((temporality, aggregation, limit))
}

// The fields of a reader.
pub(crate) const READER_FIELDS: [&str; 4] = ["name", "temporality", "aggregation", "limit"];

// The name of one more reader.
#[tactic(auto, unfolding(crate::specs::Readers::reader_name))]
fn reader_name<'a>(
    before: &[Reader],
    table: &'a Table,
    at: ConfigSpot,
) -> Result<&'a str, ViewFault>
    ensures { MatchResult result (λ s. reader_name before.now at (table_view table.now) ≡ Ok s.now)
        (λ e. reader_name before.now at (table_view table.now) ≡ Err e) }
{
    let faults = faults_at(at);
    let name = text_field(table, "name", &faults)?;
    if name.is_empty() {
        return Err(ViewFault::At(ViewDefect::BadName, at));
    }
    let name = short_text(name, &faults)?;
    if has_reader(before, name) {
        return Err(ViewFault::At(ViewDefect::DuplicateReader, at));
    }
    Ok(name)
}

fn has_reader(readers: &[Reader], name: &str) -> bool
    ensures { result ≡ has_reader readers.now name.now }
{
    readers.iter().any(|reader| reader.name.as_str() == name)
}
