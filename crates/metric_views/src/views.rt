//! Reading the views of a config.
ghost use Rattle.std.specs.Prelude.{◌≡◌, ◌≤◌, ◌<◌, IfOk, length, map};
ghost use Rattle.toml.specs.View.{table_view};
ghost use Rattle.metric_base.specs.Steps.{Gives};
ghost use Rattle.metric_views.specs.Faults.{field_at};
ghost use Rattle.metric_views.specs.Readers.{aggregation_of};
ghost use Rattle.metric_views.specs.Views.{criteria_of, instrument_criteria, kind_at, list_settings, meter_criteria, name_at, optional_field, pattern_at, settings_of, stream_settings, text_at, view_of, views_of};

use crate::choices::Aggregation;
use crate::config::{Criteria, Settings, View};
use crate::fault::{ConfigField, ConfigPlace, ViewFault, unknown_at};
use crate::optional::{
    AggregationField, BoundariesField, KeysField, KindField, LimitField, NameField, PatternField,
    TextField, optional_field, shared_field,
};
use metric_base::{Boundaries, Few, Items, Shared, Text};
use metric_contents::Kind;
use metric_glob::Pattern;
use metric_names::Name;
use metric_table::only;
use std::alloc::Global;
use toml::Table;

// The views of all tables, in order.
pub(crate) fn views_of(alloc: Global, tables: &[&Table]) -> Result<Items<View>, ViewFault>
    requires { length tables.now ≤ 256 }
    ensures exact { Gives ViewFault.Memory result
        (views_of (map (λ t. table_view t.now) tables.now)) }
    ensures few { IfOk result (λ views. length views ≤ length tables.now) }
{
    let mut views = Items::new(alloc);
    for table in tables {
        let view = view_of(alloc, views.len() as u32, table)?;
        views.push(view)?;
    }
    Ok(views)
}

// The view of this number.
#[tactic(auto, unfolding(crate::specs::Views::view_of), using(crate::proofs::FieldNames::field_names))]
fn view_of(alloc: Global, number: u32, table: &Table) -> Result<View, ViewFault>
    ensures { Gives ViewFault.Memory result (view_of number (table_view table.now)) }
{
    let at = ConfigPlace::View(number);
    only(table, &VIEW_FIELDS, &unknown_at(at))?;
    let criteria = criteria_of(alloc, table, at)?;
    let settings = settings_of(alloc, table, at)?;
    Ok(View { criteria, settings })
}

// The fields of a view.
pub(crate) const VIEW_FIELDS: [&str; 13] = [
    "instrument_name",
    "instrument_type",
    "instrument_unit",
    "meter_name",
    "meter_version",
    "meter_schema_url",
    "stream_name",
    "description",
    "aggregation",
    "boundaries",
    "keep",
    "exclude",
    "limit",
];

#[tactic(auto, unfolding(crate::specs::Views::criteria_of))]
fn criteria_of(alloc: Global, table: &Table, at: ConfigPlace) -> Result<Criteria, ViewFault>
    ensures { Gives ViewFault.Memory result (criteria_of at (table_view table.now)) }
{
    let (instrument_name, instrument_type, instrument_unit) = instrument_criteria(
        alloc, table, at,
    )?;
    let (meter_name, meter_version, meter_schema_url) = meter_criteria(alloc, table, at)?;
    Ok(Criteria {
        instrument_name,
        instrument_type,
        instrument_unit,
        meter_name,
        meter_version,
        meter_schema_url,
    })
}

type InstrumentCriteria = (Option<Pattern>, Option<Kind>, Option<Text>);

#[tactic(auto, unfolding(crate::specs::Views::instrument_criteria))]
fn instrument_criteria(
    alloc: Global,
    table: &Table,
    at: ConfigPlace,
) -> Result<InstrumentCriteria, ViewFault>
    ensures { Gives ViewFault.Memory result (instrument_criteria at (table_view table.now)) }
{
    let name = pattern_field(
        alloc,
        table,
        "instrument_name",
        at,
        ConfigField::InstrumentName,
    )?;
    let kind = kind_field(
        alloc,
        table,
        "instrument_type",
        at,
        ConfigField::InstrumentType,
    )?;
    let unit = free_text_field(
        alloc,
        table,
        "instrument_unit",
        at,
        ConfigField::InstrumentUnit,
    )?;
    Ok((name, kind, unit))
}

type MeterCriteria = (Option<Text>, Option<Text>, Option<Text>);

#[tactic(auto, unfolding(crate::specs::Views::meter_criteria))]
fn meter_criteria(alloc: Global, table: &Table, at: ConfigPlace) -> Result<MeterCriteria, ViewFault>
    ensures { Gives ViewFault.Memory result (meter_criteria at (table_view table.now)) }
{
    let name = free_text_field(alloc, table, "meter_name", at, ConfigField::MeterName)?;
    let version = free_text_field(alloc, table, "meter_version", at, ConfigField::MeterVersion)?;
    let schema_url = free_text_field(
        alloc,
        table,
        "meter_schema_url",
        at,
        ConfigField::MeterSchemaUrl,
    )?;
    Ok((name, version, schema_url))
}

#[tactic(auto, unfolding(crate::specs::Views::settings_of))]
fn settings_of(alloc: Global, table: &Table, at: ConfigPlace) -> Result<Settings, ViewFault>
    ensures { Gives ViewFault.Memory result (settings_of at (table_view table.now)) }
{
    let (stream_name, description, aggregation) = stream_settings(alloc, table, at)?;
    let (boundaries, keep, exclude) = list_settings(alloc, table, at)?;
    let limit = optional_field::<LimitField>(alloc, table, "limit", at.field(ConfigField::Limit))?;
    Ok(Settings {
        stream_name,
        description,
        aggregation,
        boundaries,
        keep,
        exclude,
        limit,
    })
}

type StreamSettings = (
    Option<Shared<Name>>,
    Option<Shared<Text>>,
    Option<Aggregation>,
);

#[tactic(auto, unfolding(crate::specs::Views::stream_settings))]
fn stream_settings(
    alloc: Global,
    table: &Table,
    at: ConfigPlace,
) -> Result<StreamSettings, ViewFault>
    ensures { Gives ViewFault.Memory result (stream_settings at (table_view table.now)) }
{
    let name = name_field(alloc, table, "stream_name", at, ConfigField::StreamName)?;
    let description = description_field(alloc, table, "description", at, ConfigField::Description)?;
    let aggregation = aggregation_field(alloc, table, "aggregation", at, ConfigField::Aggregation)?;
    Ok((name, description, aggregation))
}

type ListSettings = (
    Option<Shared<Boundaries>>,
    Option<Few<Text, 64>>,
    Option<Few<Text, 64>>,
);

#[tactic(auto, unfolding(crate::specs::Views::list_settings))]
fn list_settings(alloc: Global, table: &Table, at: ConfigPlace) -> Result<ListSettings, ViewFault>
    ensures { Gives ViewFault.Memory result (list_settings at (table_view table.now)) }
{
    let boundaries = shared_field::<BoundariesField>(
        alloc,
        table,
        "boundaries",
        at.field(ConfigField::Boundaries),
    )?;
    let keep = optional_field::<KeysField>(alloc, table, "keep", at.field(ConfigField::Keep))?;
    let exclude = optional_field::<KeysField>(
        alloc,
        table,
        "exclude",
        at.field(ConfigField::Exclude),
    )?;
    Ok((boundaries, keep, exclude))
}

// A pattern, where the table has it.
fn pattern_field(
    alloc: Global,
    table: &Table,
    name: &str,
    at: ConfigPlace,
    field: ConfigField,
) -> Result<Option<Pattern>, ViewFault>
    ensures { Gives ViewFault.Memory result
        (optional_field (pattern_at (field_at at field)) name.now (table_view table.now)) }
{
    optional_field::<PatternField>(alloc, table, name, at.field(field))
}

// A kind, where the table has it.
fn kind_field(
    alloc: Global,
    table: &Table,
    name: &str,
    at: ConfigPlace,
    field: ConfigField,
) -> Result<Option<Kind>, ViewFault>
    ensures { Gives ViewFault.Memory result
        (optional_field (kind_at (field_at at field)) name.now (table_view table.now)) }
{
    optional_field::<KindField>(alloc, table, name, at.field(field))
}

// A free text, where the table has it.
fn free_text_field(
    alloc: Global,
    table: &Table,
    name: &str,
    at: ConfigPlace,
    field: ConfigField,
) -> Result<Option<Text>, ViewFault>
    ensures { Gives ViewFault.Memory result
        (optional_field (text_at (field_at at field)) name.now (table_view table.now)) }
{
    optional_field::<TextField>(alloc, table, name, at.field(field))
}

// A free text that streams share, where the table has it.
fn description_field(
    alloc: Global,
    table: &Table,
    name: &str,
    at: ConfigPlace,
    field: ConfigField,
) -> Result<Option<Shared<Text>>, ViewFault>
    ensures { Gives ViewFault.Memory result
        (optional_field (text_at (field_at at field)) name.now (table_view table.now)) }
{
    shared_field::<TextField>(alloc, table, name, at.field(field))
}

// A stream name, where the table has it.
fn name_field(
    alloc: Global,
    table: &Table,
    name: &str,
    at: ConfigPlace,
    field: ConfigField,
) -> Result<Option<Shared<Name>>, ViewFault>
    ensures { Gives ViewFault.Memory result
        (optional_field (name_at (field_at at field)) name.now (table_view table.now)) }
{
    shared_field::<NameField>(alloc, table, name, at.field(field))
}

// An aggregation, where the table has it.
fn aggregation_field(
    alloc: Global,
    table: &Table,
    name: &str,
    at: ConfigPlace,
    field: ConfigField,
) -> Result<Option<Aggregation>, ViewFault>
    ensures { Gives ViewFault.Memory result
        (optional_field (aggregation_of (field_at at field)) name.now (table_view table.now)) }
{
    optional_field::<AggregationField>(alloc, table, name, at.field(field))
}
