//! The meters of a catalogue.
ghost use Rattle.std.specs.Prelude.{◌≡◌, ◌≤◌, ◌<◌, ◌+◌, ◌-◌, [], ◌∷◌, ◌++◌, length, map, not, OnOk};
ghost use Rattle.std.specs.List.{list_any};
ghost use Rattle.toml.specs.View.{table_view};
ghost use Rattle.metric_base.specs.Steps.{Gives, Advances, in_turn, require};
ghost use Rattle.metric_catalogue.specs.Meters.{is_meter, meter_of, only_meter_fields, with_meter};

use crate::fault::{
    CatalogueDefect, CatalogueFault, CatalogueField, CataloguePlace, CatalogueSpot,
};
use crate::groups::{add_all, groups_field};
use crate::known::meter_names;
use crate::shared_keys::SharedKey;
use crate::texts::{faults_at, free_text, needed_text, unknown_at};
use metric_base::{Copied, Items};
use metric_contents::{Instrument, Meter};
use metric_table::{only, tables_field};
use std::alloc::Global;
use toml::Table;

// The fields of a meter's table, and those of format 3.
pub(crate) const METER_FIELDS: [&str; 4] = ["name", "version", "schema_url", "instrument"];

pub(crate) const SHARED_METER_FIELDS: [&str; 5] = [
    "name",
    "version",
    "schema_url",
    "instrument",
    "group",
];

// The meters so far, with all their instruments.
#[derive(Drop)]
pub(crate) struct Metered {
    pub(crate) meters: Items<Meter>,
    pub(crate) instruments: Items<Instrument>,
}

// Puts the meters of these tables after those before. Where there is a fault, some may have been put.
pub(crate) fn add_meters(
    alloc: Global,
    metered: &mut Metered,
    tables: &[&Table],
    format: u8,
    shared: &[SharedKey],
    recorders: &[&Table],
) -> Result<(), CatalogueFault>
    requires meters { length metered.old.meters + length tables.now ≤ 64 }
    requires instruments { length metered.old.instruments ≤ 512 }
    ensures exact { Advances CatalogueFault.Memory result metered.new
        (in_turn (with_meter format shared.now (map (λ t. table_view t.now) recorders.now))
        metered.old (map (λ t. table_view t.now) tables.now)) }
    ensures meters { OnOk result
        (length metered.new.meters ≡ length metered.old.meters + length tables.now) }
    ensures instruments { OnOk result (length metered.new.instruments ≤ 512) }
{
    for table in tables {
        add_meter(alloc, metered, table, format, shared, recorders)?;
    }
    Ok(())
}

#[tactic(auto, unfolding(crate::specs::Meters::with_meter))]
fn add_meter(
    alloc: Global,
    metered: &mut Metered,
    table: &Table,
    format: u8,
    shared: &[SharedKey],
    recorders: &[&Table],
) -> Result<(), CatalogueFault>
    requires meters { length metered.old.meters < 64 }
    requires instruments { length metered.old.instruments ≤ 512 }
    ensures exact { Advances CatalogueFault.Memory result metered.new
        (with_meter format shared.now (map (λ t. table_view t.now) recorders.now)
        metered.old (table_view table.now)) }
    ensures meters { OnOk result (length metered.new.meters ≡ length metered.old.meters + 1) }
    ensures instruments { OnOk result (length metered.new.instruments ≤ 512) }
{
    let number = metered.meters.len() as u32;
    let at = CataloguePlace::Meter(number);
    let meter = meter_of(alloc, table, format == 3, at)?;
    let most = 512 - metered.instruments.len();
    let tables = tables_field(
        alloc,
        table,
        "instrument",
        most,
        &faults_at(at.field(CatalogueField::Instrument)),
    )?;
    let groups = groups_field(alloc, table, format, at.field(CatalogueField::Group))?;
    let name = meter.name.copy(alloc)?;
    put_meter(&mut metered.meters, meter, at.field(CatalogueField::Name))?;
    let instruments = &mut metered.instruments;
    add_all(
        alloc,
        tables.as_slice(),
        groups.as_slice(),
        format,
        shared,
        recorders,
        number,
        name.as_str(),
        instruments,
    )
}

// Puts a meter last, unless it is there already.
fn put_meter(
    meters: &mut Items<Meter>,
    meter: Meter,
    at: CatalogueSpot,
) -> Result<(), CatalogueFault>
    ensures exact { Gives CatalogueFault.Memory result
        (require (not (list_any (is_meter meter) meters.old))
        (CatalogueFault.At CatalogueDefect.DuplicateMeter at)) }
    ensures put { OnOk result (meters.new ≡ meters.old ++ meter ∷ []) }
{
    if has_meter(meters.as_slice(), &meter) {
        return Err(CatalogueFault::At(CatalogueDefect::DuplicateMeter, at));
    }
    Ok(meters.push(meter)?)
}

fn has_meter(meters: &[Meter], meter: &Meter) -> bool
    ensures { result ≡ list_any (is_meter meter.now) meters.now }
{
    meters.iter().any(|other| is_meter(other, meter))
}

fn is_meter(other: &Meter, meter: &Meter) -> bool
    ensures { result ≡ is_meter meter.now other.now }
{
    other.name == meter.name
        && other.version == meter.version
        && other.schema_url == meter.schema_url
}

#[tactic(auto, unfolding(crate::specs::Meters::only_meter_fields))]
fn only_meter_fields(
    table: &Table,
    is_shared: bool,
    at: CataloguePlace,
) -> Result<(), CatalogueFault>
    ensures { result ≡ only_meter_fields is_shared at (table_view table.now) }
{
    only(table, meter_names(is_shared), &unknown_at(at))
}

#[tactic(auto, unfolding(crate::specs::Meters::meter_of))]
fn meter_of(
    alloc: Global,
    table: &Table,
    is_shared: bool,
    at: CataloguePlace,
) -> Result<Meter, CatalogueFault>
    ensures { Gives CatalogueFault.Memory result (meter_of is_shared at (table_view table.now)) }
{
    only_meter_fields(table, is_shared, at)?;
    let name = needed_text(alloc, table, "name", at.field(CatalogueField::Name))?;
    let version = free_text(alloc, table, "version", at.field(CatalogueField::Version))?;
    let schema_url = free_text(
        alloc,
        table,
        "schema_url",
        at.field(CatalogueField::SchemaUrl),
    )?;
    Ok(Meter {
        name,
        version,
        schema_url,
    })
}
