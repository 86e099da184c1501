//! The groups of a meter: instruments that share fields.
ghost use Rattle.std.specs.Prelude.{◌≡◌, ◌≤◌, ◌+◌, length, map, IfOk, OnOk};
ghost use Rattle.std.specs.List.{enumerate_from, position_from};
ghost use Rattle.toml.specs.View.{table_view};
ghost use Rattle.metric_base.specs.Steps.{Advances, Gives, GivesBy, in_turn};
ghost use Rattle.metric_table.specs.Fields.{only};
ghost use Rattle.metric_catalogue.specs.Faults.{faults_at};
ghost use Rattle.metric_catalogue.specs.Groups.{common_keys, group_fields, group_keys, groups_field, instruments_added, lacks_keys, with_group};

use crate::fault::{CatalogueFault, CatalogueField, CataloguePlace, CatalogueSpot};
use crate::instruments::add_instruments;
use crate::named::has_field;
use crate::shared_keys::{SharedKey, entries_field, keys_of};
use crate::texts::faults_at;
use metric_base::Items;
use metric_contents::{Instrument, Key};
use metric_table::{empty_table, only, tables_field};
use std::alloc::Global;
use toml::Table;

// The fields of a group's table: its instruments, and each field of an instrument but its name.
pub(crate) const GROUP_FIELDS: [&str; 9] = [
    "instrument",
    "kind",
    "unit",
    "description",
    "range",
    "boundaries",
    "key",
    "allowed",
    "budget",
];

// The groups of a meter, in format 3.
pub(crate) fn groups_field<'t>(
    alloc: Global,
    table: &'t Table,
    format: u8,
    at: CatalogueSpot,
) -> Result<Items<&'t Table>, CatalogueFault>
    ensures exact { GivesBy (map (λ group. table_view group.now)) CatalogueFault.Memory result
        (groups_field format at (table_view table.now)) }
    ensures few { IfOk result (λ groups. length groups ≤ 64) }
{
    if format == 3 {
        tables_field(alloc, table, "group", 64, &faults_at(at))
    } else {
        Ok(Items::new(alloc))
    }
}

// Puts the instruments of a meter after those of the meters before it: its own, then those of its groups. Where there
// is a fault, some of them may have been put.
#[tactic(auto, unfolding(crate::specs::Groups::instruments_added))]
pub(crate) fn add_all(
    alloc: Global,
    tables: &[&Table],
    groups: &[&Table],
    format: u8,
    shared: &[SharedKey],
    recorders: &[&Table],
    meter: u32,
    name: &str,
    instruments: &mut Items<Instrument>,
) -> Result<(), CatalogueFault>
    requires instruments { length instruments.old + length tables.now ≤ 512 }
    requires groups { length groups.now ≤ 64 }
    ensures exact { Advances CatalogueFault.Memory result instruments.new
        (instruments_added format shared.now (map (λ t. table_view t.now) recorders.now)
        meter name.now (map (λ t. table_view t.now) tables.now)
        (map (λ t. table_view t.now) groups.now) instruments.old) }
    ensures few { OnOk result (length instruments.new ≤ 512) }
{
    let none = empty_table(alloc);
    add_instruments(
        alloc,
        tables,
        &none,
        &[],
        format,
        shared,
        recorders,
        meter,
        name,
        instruments,
    )?;
    add_groups(alloc, groups, shared, recorders, meter, name, instruments)
}

// Puts the instruments of these groups of a meter last. Where there is a fault, some of them may have been put.
fn add_groups(
    alloc: Global,
    groups: &[&Table],
    shared: &[SharedKey],
    recorders: &[&Table],
    meter: u32,
    name: &str,
    instruments: &mut Items<Instrument>,
) -> Result<(), CatalogueFault>
    requires groups { length groups.now ≤ 64 }
    requires instruments { length instruments.old ≤ 512 }
    ensures exact { Advances CatalogueFault.Memory result instruments.new
        (in_turn (with_group shared.now (map (λ t. table_view t.now) recorders.now) meter name.now)
        instruments.old (enumerate_from 0 (map (λ t. table_view t.now) groups.now))) }
    ensures few { OnOk result (length instruments.new ≤ 512) }
{
    let mut number = 0u32;
    for group in groups {
        add_group(
            alloc,
            group,
            number,
            shared,
            recorders,
            meter,
            name,
            instruments,
        )?;
        number += 1;
    }
    Ok(())
}

// Puts the instruments of the group of a number last.
#[tactic(auto, unfolding(crate::specs::Groups::with_group))]
fn add_group(
    alloc: Global,
    group: &Table,
    number: u32,
    shared: &[SharedKey],
    recorders: &[&Table],
    meter: u32,
    name: &str,
    instruments: &mut Items<Instrument>,
) -> Result<(), CatalogueFault>
    requires { length instruments.old ≤ 512 }
    ensures exact { Advances CatalogueFault.Memory result instruments.new
        (with_group shared.now (map (λ t. table_view t.now) recorders.now) meter name.now
        instruments.old (number, table_view group.now)) }
    ensures few { OnOk result (length instruments.new ≤ 512) }
{
    let field = CataloguePlace::Meter(meter).field(CatalogueField::Group);
    let at = field.entry(number);
    only_group_fields(group, at)?;
    let most = 512 - instruments.len();
    let tables = tables_field(alloc, group, "instrument", most, &faults_at(at))?;
    let first = first_without_keys(tables.as_slice(), instruments.len() as u32);
    let common = common_keys(alloc, group, shared, first)?;
    add_instruments(
        alloc,
        tables.as_slice(),
        group,
        common.as_slice(),
        3,
        shared,
        recorders,
        meter,
        name,
        instruments,
    )
}

#[tactic(auto, using(crate::proofs::FieldNames::field_names))]
fn only_group_fields(group: &Table, at: CatalogueSpot) -> Result<(), CatalogueFault>
    ensures { result ≡ only (faults_at at) group_fields (table_view group.now) }
{
    only(group, &GROUP_FIELDS, &faults_at(at))
}

// The number of the first instrument that has no keys of its own, of these that are numbered from one on.
fn first_without_keys(tables: &[&Table], first: u32) -> Option<u32>
    requires { first + length tables.now ≤ 512 }
    ensures { result ≡ position_from lacks_keys first (map (λ t. table_view t.now) tables.now) }
{
    let mut number = first;
    for table in tables {
        if lacks_keys(table) {
            return Some(number);
        }
        number += 1;
    }
    None
}

fn lacks_keys(table: &Table) -> bool
    ensures { result ≡ lacks_keys (table_view table.now) }
{
    !has_field(table, "key")
}

// The keys that instruments take from their group, of which the first has this number.
fn common_keys(
    alloc: Global,
    group: &Table,
    shared: &[SharedKey],
    first: Option<u32>,
) -> Result<Items<Key>, CatalogueFault>
    ensures exact { Gives CatalogueFault.Memory result
        (common_keys shared.now (table_view group.now) first) }
    ensures few { IfOk result (λ keys. length keys ≤ 8) }
{
    match first {
        Some(number) => group_keys(alloc, group, shared, number),
        None => Ok(Items::new(alloc)),
    }
}

#[tactic(auto, unfolding(crate::specs::Groups::group_keys))]
fn group_keys(
    alloc: Global,
    group: &Table,
    shared: &[SharedKey],
    number: u32,
) -> Result<Items<Key>, CatalogueFault>
    ensures exact { Gives CatalogueFault.Memory result
        (group_keys shared.now number (table_view group.now)) }
    ensures few { IfOk result (λ keys. length keys ≤ 8) }
{
    let at = CataloguePlace::Instrument(number).field(CatalogueField::Key);
    let entries = entries_field(group, 3, at)?;
    keys_of(alloc, entries, 3, shared, number)
}
