//! Reading a config from TOML.
ghost use Rattle.std.specs.Prelude.{◌≡◌, ◌≤◌, IfOk, length, map};
ghost use Rattle.toml.specs.View.{table_view};
ghost use Rattle.metric_base.specs.Steps.{Gives, GivesBy};
ghost use Rattle.metric_table.specs.Fields.{only};
ghost use Rattle.metric_views.specs.declared.fault.ConfigPlace.TheVariants.{Top};
ghost use Rattle.metric_views.specs.Configs.{config_of, lists_of_top, setup_of_table, setup_of_tables, tables_of_top};
ghost use Rattle.metric_views.specs.Faults.{faults_at};

use crate::config::Setup;
use crate::fault::{ConfigField, ConfigPlace, ViewFault, faults_at, unknown_at};
use crate::readers::readers_of;
use crate::views::views_of;
use metric_base::{Few, Items};
use metric_table::{format_up_to, only, tables_field};
use std::alloc::Global;
use toml::Table;

// What a text says.
pub(crate) fn setup_of(alloc: Global, text: &str) -> Result<Setup, ViewFault>
    ensures { Gives ViewFault.Memory result (config_of text.now) }
{
    match toml::table_from_str(alloc, text) {
        Ok(table) => setup_of_table(alloc, &table),
        Err(error) if error.is_memory() => Err(ViewFault::Memory),
        Err(_) => Err(ViewFault::NotToml),
    }
}

#[tactic(auto, unfolding(crate::specs::Configs::setup_of_table))]
fn setup_of_table(alloc: Global, table: &Table) -> Result<Setup, ViewFault>
    ensures { Gives ViewFault.Memory result (setup_of_table (table_view table.now)) }
{
    let (readers, views) = tables_of_top(alloc, table)?;
    setup_of_tables(alloc, readers.as_slice(), views.as_slice())
}

// What the tables of the readers and those of the views say.
#[tactic(auto, unfolding(crate::specs::Configs::setup_of_tables))]
fn setup_of_tables(alloc: Global, readers: &[&Table], views: &[&Table]) -> Result<Setup, ViewFault>
    requires readers { length readers.now ≤ 16 }
    requires views { length views.now ≤ 256 }
    ensures { Gives ViewFault.Memory result (setup_of_tables
        (map (λ r. table_view r.now) readers.now) (map (λ v. table_view v.now) views.now)) }
{
    let readers = readers_of(alloc, readers)?;
    let views = views_of(alloc, views)?;
    Ok(Setup {
        readers: Few::from_items(readers),
        views: Few::from_items(views),
    })
}

type Tables<'a> = (Items<&'a Table>, Items<&'a Table>);

#[tactic(auto, unfolding(crate::specs::Configs::tables_of_top), using(crate::proofs::FieldNames::field_names))]
fn tables_of_top(alloc: Global, table: &Table) -> Result<Tables<'_>, ViewFault>
    ensures exact { GivesBy
        (λ t. (map (λ r. table_view r.now) t.0, map (λ v. table_view v.now) t.1))
        ViewFault.Memory result (tables_of_top (table_view table.now)) }
    ensures readers { IfOk result (λ t. length t.0 ≤ 16) }
    ensures views { IfOk result (λ t. length t.1 ≤ 256) }
{
    only(table, &TOP_FIELDS, &unknown_at(ConfigPlace::Top))?;
    let faults = faults_at(ConfigPlace::Top.field(ConfigField::Format));
    format_up_to(table, 1, &faults)?;
    lists_of_top(alloc, table)
}

// The lists of the top table, whose other fields were tried.
#[tactic(auto, unfolding(crate::specs::Configs::lists_of_top))]
fn lists_of_top(alloc: Global, table: &Table) -> Result<Tables<'_>, ViewFault>
    ensures exact { GivesBy
        (λ t. (map (λ r. table_view r.now) t.0, map (λ v. table_view v.now) t.1))
        ViewFault.Memory result (lists_of_top (table_view table.now)) }
    ensures readers { IfOk result (λ t. length t.0 ≤ 16) }
    ensures views { IfOk result (λ t. length t.1 ≤ 256) }
{
    let of_readers = faults_at(ConfigPlace::Top.field(ConfigField::Reader));
    let readers = tables_field(alloc, table, "reader", 16, &of_readers)?;
    let of_views = faults_at(ConfigPlace::Top.field(ConfigField::View));
    let views = tables_field(alloc, table, "view", 256, &of_views)?;
    Ok((readers, views))
}

// The fields of the top table.
pub(crate) const TOP_FIELDS: [&str; 3] = ["format", "reader", "view"];
