//! The instruments of a meter.
ghost use Rattle.std.specs.Prelude.{◌≡◌, ◌≤◌, ◌<◌, ◌+◌, length, map, IfOk};
ghost use Rattle.std.specs.List.{list_any};
ghost use Rattle.toml.specs.View.{table_view, view};
ghost use Rattle.metric_base.specs.Steps.{Gives, Advances, each};
ghost use Rattle.metric_catalogue.specs.Instruments.{advice_field, boundaries_of, description_field, head_of, instrument_name, instrument_of, is_instrument, is_range, keys_for, kind_field, only_instrument_fields, pair_field, pair_of, range_field, limits_field, spare_field, spare_name, spare_spot, unit_field};

use crate::allowed::{allowed_field, allowed_of};
use crate::fault::{
    CatalogueDefect, CatalogueFault, CatalogueField, CataloguePlace, CatalogueSpot,
};
use crate::holding::holder;
use crate::known::instrument_names;
use crate::named::has_field;
use crate::recorders::amount_from;
use crate::shared_keys::{SharedKey, entries_field, keys_of};
use crate::texts::{faults_at, free_text, pair_faults_at, unknown_at};
use crate::unsaid::unsaid;
use metric_base::{Boundaries, Few, Items, Shared, Text, copy_all, is_rising};
use metric_combinations::Combinations;
use metric_contents::{Instrument, Key, Kind};
use metric_names::{Name, NameFault, Unit, UnitFault};
use metric_table::{
    integer_of, integers_of, list_of, member, only, optional_text, required, text_field,
};
use std::alloc::Global;
use toml::{Table, Value};

// The fields of an instrument's table in formats 1 and 2, of which format 1 has all but the last two.
pub(crate) const INSTRUMENT_FIELDS: [&str; 9] = [
    "name",
    "kind",
    "unit",
    "description",
    "range",
    "boundaries",
    "key",
    "allowed",
    "spare",
];

// Those of format 3.
pub(crate) const SHARED_INSTRUMENT_FIELDS: [&str; 9] = [
    "name",
    "kind",
    "unit",
    "description",
    "range",
    "boundaries",
    "key",
    "allowed",
    "budget",
];

// What names and describes an instrument.
pub(crate) struct Head {
    name: Shared<Name>,
    kind: Kind,
    unit: Shared<Unit>,
    description: Shared<Text>,
}

impl Drop for Head {
    // A call of its own, so that what owns a head does not carry the steps of dropping each part.
    fn drop(self) {
        let Head {
            name: _name,
            kind: _,
            unit: _unit,
            description: _description,
        } = self;
    }
}

// What limits the recordings of an instrument.
pub(crate) struct Limits {
    keys: Few<Key, 8>,
    allowed: Option<Combinations>,
    spare: u64,
}

impl Head {
    // The instrument of this head.
    fn instrument(
        self,
        meter: u32,
        range: (i64, i64),
        advice: Option<Shared<Boundaries>>,
        limits: Limits,
    ) -> Instrument
        ensures { result ≡ record {
          meter = meter;
          name = self.name;
          kind = self.kind;
          unit = self.unit;
          description = self.description;
          lo = range.0;
          hi = range.1;
          advice = advice;
          keys = limits.keys;
          allowed = limits.allowed;
          spare = limits.spare;
        } }
    {
        let Head {
            name,
            kind,
            unit,
            description,
        } = self;
        let (lo, hi) = range;
        let Limits {
            keys,
            allowed,
            spare,
        } = limits;
        Instrument {
            meter,
            name,
            kind,
            unit,
            description,
            lo,
            hi,
            advice,
            keys,
            allowed,
            spare,
        }
    }
}

// Puts instruments of the meter of a number and a name after those before, with the fields and the keys of their group
// where they have none themselves. Where there is a fault, some of them may have been put.
pub(crate) fn add_instruments(
    alloc: Global,
    tables: &[&Table],
    group: &Table,
    common: &[Key],
    format: u8,
    shared: &[SharedKey],
    recorders: &[&Table],
    meter: u32,
    name: &str,
    instruments: &mut Items<Instrument>,
) -> Result<(), CatalogueFault>
    requires instruments { length instruments.old + length tables.now ≤ 512 }
    requires common { length common.now ≤ 8 }
    ensures exact { Advances CatalogueFault.Memory result instruments.new
        (each (instrument_of format shared.now (map (λ t. table_view t.now) recorders.now)
        meter name.now (table_view group.now) common.now)
        instruments.old (map (λ t. table_view t.now) tables.now)) }
    ensures few { length instruments.new ≤ length instruments.old + length tables.now }
{
    for table in tables {
        let instrument = instrument_of(
            alloc,
            table,
            group,
            common,
            format,
            shared,
            recorders,
            meter,
            name,
            instruments.as_slice(),
        )?;
        instruments.push(instrument)?;
    }
    Ok(())
}

fn instrument_of(
    alloc: Global,
    table: &Table,
    group: &Table,
    common: &[Key],
    format: u8,
    shared: &[SharedKey],
    recorders: &[&Table],
    meter: u32,
    meter_name: &str,
    before: &[Instrument],
) -> Result<Instrument, CatalogueFault>
    requires before { length before.now < 512 }
    requires common { length common.now ≤ 8 }
    ensures { Gives CatalogueFault.Memory result
        (instrument_of format shared.now (map (λ t. table_view t.now) recorders.now)
        meter meter_name.now (table_view group.now) common.now
        before.now (table_view table.now)) }
{
    let at = CataloguePlace::Instrument(before.len() as u32);
    let head = head_of(alloc, table, group, format, at)?;
    let range = range_field(table, group, head.kind, at)?;
    let advice = advice_field(alloc, table, group, at)?;
    let name = head.name.get();
    let is_taken = has_instrument(before, meter, name);
    let otherwise = unsaid(alloc, format, recorders, meter_name, name, head.kind, range)?;
    let number = before.len() as u32;
    let limits = limits_field(
        alloc, table, group, common, format, shared, number, is_taken, otherwise,
    )?;
    Ok(head.instrument(meter, range, advice, limits))
}

// The keys of an instrument, the combinations that it allows where it lists them, and its spare budget. That its name
// is taken is told before a fault of a key or a row.
#[tactic(auto, unfolding(crate::specs::Instruments::limits_field))]
fn limits_field(
    alloc: Global,
    table: &Table,
    group: &Table,
    common: &[Key],
    format: u8,
    shared: &[SharedKey],
    number: u32,
    is_taken: bool,
    otherwise: u64,
) -> Result<Limits, CatalogueFault>
    requires { length common.now ≤ 8 }
    ensures { Gives CatalogueFault.Memory result (limits_field format shared.now number is_taken
        otherwise (table_view group.now) common.now (table_view table.now)) }
{
    let at = CataloguePlace::Instrument(number);
    let entries = entries_field(table, format, at.field(CatalogueField::Key))?;
    let rows = allowed_field(table, group, at.field(CatalogueField::Allowed))?;
    let spare = spare_field(table, group, format, otherwise, at)?;
    if is_taken {
        let name = at.field(CatalogueField::Name);
        return Err(CatalogueFault::At(CatalogueDefect::DuplicateInstrument, name));
    }
    let keys = keys_for(alloc, table, entries, common, format, shared, number)?;
    let allowed = allowed_of(
        alloc,
        rows,
        keys.as_slice(),
        at.field(CatalogueField::Allowed),
    )?;
    Ok(Limits {
        keys: Few::from_items(keys),
        allowed,
        spare,
    })
}

// The keys of an instrument: those of its table's entries, or where it has none, those that it takes from its group.
fn keys_for(
    alloc: Global,
    table: &Table,
    entries: &[Value],
    common: &[Key],
    format: u8,
    shared: &[SharedKey],
    number: u32,
) -> Result<Items<Key>, CatalogueFault>
    requires entries { length entries.now ≤ 8 }
    requires common { length common.now ≤ 8 }
    ensures exact { Gives CatalogueFault.Memory result (keys_for format shared.now number common.now
        (table_view table.now) (map view entries.now)) }
    ensures few { IfOk result (λ keys. length keys ≤ 8) }
{
    if has_field(table, "key") {
        keys_of(alloc, entries, format, shared, number)
    } else {
        Ok(copy_all(alloc, common)?)
    }
}

// The spare budget of an instrument, another number where the table leaves it out.
#[tactic(auto, unfolding(crate::specs::Instruments::spare_field))]
fn spare_field(
    table: &Table,
    group: &Table,
    format: u8,
    otherwise: u64,
    at: CataloguePlace,
) -> Result<u64, CatalogueFault>
    ensures { result ≡ spare_field format otherwise at
        (table_view group.now) (table_view table.now) }
{
    let at = spare_spot(format, at);
    let name = spare_name(format);
    match member(holder(name, group, table), name) {
        Some(value) => {
            let number = integer_of(value, &faults_at(at))?;
            amount_from(number).ok_or(CatalogueFault::At(CatalogueDefect::BadRange, at))
        }
        None => Ok(otherwise),
    }
}

// The name of the field of a spare budget.
fn spare_name(format: u8) -> &'static str
    ensures { result.now ≡ spare_name format }
{
    if format == 3 { "budget" } else { "spare" }
}

fn spare_spot(format: u8, at: CataloguePlace) -> CatalogueSpot
    ensures { result ≡ spare_spot format at }
{
    if format == 3 {
        at.field(CatalogueField::Budget)
    } else {
        at.field(CatalogueField::Spare)
    }
}

fn has_instrument(instruments: &[Instrument], meter: u32, name: &Name) -> bool
    ensures { result ≡ list_any (is_instrument meter name.now) instruments.now }
{
    instruments
        .iter()
        .any(|instrument| is_instrument(instrument, meter, name))
}

fn is_instrument(instrument: &Instrument, meter: u32, name: &Name) -> bool
    ensures { result ≡ is_instrument meter name.now instrument.now }
{
    instrument.meter == meter && instrument.name.get().same(name)
}

#[tactic(auto, unfolding(crate::specs::Instruments::head_of))]
fn head_of(
    alloc: Global,
    table: &Table,
    group: &Table,
    format: u8,
    at: CataloguePlace,
) -> Result<Head, CatalogueFault>
    ensures { Gives CatalogueFault.Memory result
        (head_of format at (table_view group.now) (table_view table.now)) }
{
    let name = instrument_name(alloc, table, format, at)?;
    let kind = kind_field(table, group, at)?;
    let unit = unit_field(alloc, table, group, at)?;
    let description = description_field(alloc, table, group, at)?;
    Ok(Head {
        name,
        kind,
        unit,
        description,
    })
}

#[tactic(auto, unfolding(crate::specs::Instruments::only_instrument_fields))]
fn only_instrument_fields(
    table: &Table,
    format: u8,
    at: CataloguePlace,
) -> Result<(), CatalogueFault>
    ensures { result ≡ only_instrument_fields format at (table_view table.now) }
{
    only(table, instrument_names(format), &unknown_at(at))
}

#[tactic(auto, unfolding(crate::specs::Instruments::instrument_name))]
fn instrument_name(
    alloc: Global,
    table: &Table,
    format: u8,
    at: CataloguePlace,
) -> Result<Shared<Name>, CatalogueFault>
    ensures { Gives CatalogueFault.Memory result
        (instrument_name format at (table_view table.now)) }
{
    only_instrument_fields(table, format, at)?;
    let at = at.field(CatalogueField::Name);
    let text = text_field(table, "name", &faults_at(at))?;
    match Name::parse(alloc, text) {
        Ok(name) => Ok(Shared::new(alloc, name)?),
        Err(NameFault::Memory) => Err(CatalogueFault::Memory),
        Err(_) => Err(CatalogueFault::At(CatalogueDefect::BadName, at)),
    }
}

#[tactic(auto, unfolding(crate::specs::Instruments::kind_field))]
fn kind_field(table: &Table, group: &Table, at: CataloguePlace) -> Result<Kind, CatalogueFault>
    ensures { result
        ≡ kind_field at (table_view group.now) (table_view table.now) }
{
    let at = at.field(CatalogueField::Kind);
    let text = text_field(holder("kind", group, table), "kind", &faults_at(at))?;
    Kind::named(text).ok_or(CatalogueFault::At(CatalogueDefect::WrongKind, at))
}

#[tactic(auto, unfolding(crate::specs::Instruments::unit_field))]
fn unit_field(
    alloc: Global,
    table: &Table,
    group: &Table,
    at: CataloguePlace,
) -> Result<Shared<Unit>, CatalogueFault>
    ensures { Gives CatalogueFault.Memory result
        (unit_field at (table_view group.now) (table_view table.now)) }
{
    let at = at.field(CatalogueField::Unit);
    let text = optional_text(holder("unit", group, table), "unit", &faults_at(at))?;
    match Unit::parse(alloc, text.unwrap_or("")) {
        Ok(unit) => Ok(Shared::new(alloc, unit)?),
        Err(UnitFault::Memory) => Err(CatalogueFault::Memory),
        Err(_) => Err(CatalogueFault::At(CatalogueDefect::BadUnit, at)),
    }
}

fn description_field(
    alloc: Global,
    table: &Table,
    group: &Table,
    at: CataloguePlace,
) -> Result<Shared<Text>, CatalogueFault>
    ensures { Gives CatalogueFault.Memory result
        (description_field at (table_view group.now) (table_view table.now)) }
{
    let description = free_text(
        alloc,
        holder("description", group, table),
        "description",
        at.field(CatalogueField::Description),
    )?;
    Ok(Shared::new(alloc, description)?)
}

#[tactic(auto, unfolding(crate::specs::Instruments::range_field))]
fn range_field(
    table: &Table,
    group: &Table,
    kind: Kind,
    at: CataloguePlace,
) -> Result<(i64, i64), CatalogueFault>
    ensures { result
        ≡ range_field at kind (table_view group.now) (table_view table.now) }
{
    let at = at.field(CatalogueField::Range);
    let (lo, hi) = pair_field(holder("range", group, table), at)?;
    if !is_range(kind, lo, hi) {
        return Err(CatalogueFault::At(CatalogueDefect::BadRange, at));
    }
    Ok((lo, hi))
}

#[tactic(auto, unfolding(crate::specs::Instruments::pair_field))]
fn pair_field(table: &Table, at: CatalogueSpot) -> Result<(i64, i64), CatalogueFault>
    ensures { result ≡ pair_field at (table_view table.now) }
{
    let value = required(table, "range", &faults_at(at))?;
    let values = list_of(value, 2, &pair_faults_at(at))?;
    pair_of(values, at)
}

fn pair_of(values: &[Value], at: CatalogueSpot) -> Result<(i64, i64), CatalogueFault>
    ensures { result ≡ pair_of at (map view values.now) }
{
    let faults = faults_at(at);
    match values {
        [lo, hi] => {
            let lo = integer_of(lo, &faults)?;
            let hi = integer_of(hi, &faults)?;
            Ok((lo, hi))
        }
        _ => Err(CatalogueFault::At(CatalogueDefect::WrongKind, at)),
    }
}

fn is_range(kind: Kind, lo: i64, hi: i64) -> bool
    ensures { result ≡ is_range kind (lo, hi) }
{
    lo <= hi && (!kind.is_monotonic() || 0 <= lo)
}

#[tactic(auto, unfolding(crate::specs::Instruments::advice_field))]
fn advice_field(
    alloc: Global,
    table: &Table,
    group: &Table,
    at: CataloguePlace,
) -> Result<Option<Shared<Boundaries>>, CatalogueFault>
    ensures { Gives CatalogueFault.Memory result
        (advice_field at (table_view group.now) (table_view table.now)) }
{
    match member(holder("boundaries", group, table), "boundaries") {
        Some(value) => {
            let boundaries = boundaries_of(alloc, value, at.field(CatalogueField::Boundaries))?;
            Ok(Some(boundaries))
        }
        None => Ok(None),
    }
}

#[tactic(auto, unfolding(crate::specs::Instruments::boundaries_of))]
fn boundaries_of(
    alloc: Global,
    value: &Value,
    at: CatalogueSpot,
) -> Result<Shared<Boundaries>, CatalogueFault>
    ensures { Gives CatalogueFault.Memory result (boundaries_of at (view value.now)) }
{
    let boundaries = integers_of(alloc, value, 128, &faults_at(at))?;
    if !is_rising(boundaries.as_slice()) {
        return Err(CatalogueFault::At(CatalogueDefect::BadBoundaries, at));
    }
    let boundaries = Boundaries::from_few(Few::from_items(boundaries));
    Ok(Shared::new(alloc, boundaries)?)
}
