//! The texts of a table.
ghost use Rattle.std.specs.Prelude.{◌≡◌, length};
ghost use Rattle.toml.specs.View.{table_view};
ghost use Rattle.metric_base.specs.Steps.{Gives};
ghost use Rattle.metric_table.specs.Fields.{short_text};
ghost use Rattle.metric_catalogue.specs.Faults.{faults_at, field_at, pair_faults_at};
ghost use Rattle.metric_catalogue.specs.Texts.{free_text, label_field, label_of, needed_text};

use crate::fault::{
    CatalogueDefect, CatalogueFault, CatalogueField, CataloguePlace, CatalogueSpot,
};
use metric_base::Text;
use metric_table::{FieldFaults, optional_text, short_text, text_field};
use std::alloc::Global;
use toml::Table;

// What a field that the format does not name for the table answers for its faults.
pub(crate) fn unknown_at(at: CataloguePlace) -> FieldFaults<CatalogueFault>
    ensures { result ≡ faults_at (field_at at CatalogueField.Unknown) }
{
    faults_at(at.field(CatalogueField::Unknown))
}

// What a field of a table answers for its faults.
pub(crate) fn faults_at(at: CatalogueSpot) -> FieldFaults<CatalogueFault>
    ensures { result ≡ faults_at at }
{
    FieldFaults {
        missing: CatalogueFault::At(CatalogueDefect::MissingField, at),
        wrong_kind: CatalogueFault::At(CatalogueDefect::WrongKind, at),
        unknown: CatalogueFault::At(CatalogueDefect::UnknownField, at),
        too_many: CatalogueFault::At(CatalogueDefect::TooMany, at),
        memory: CatalogueFault::Memory,
    }
}

// The same where a list of another length is of another kind.
pub(crate) fn pair_faults_at(at: CatalogueSpot) -> FieldFaults<CatalogueFault>
    ensures { result ≡ pair_faults_at at }
{
    FieldFaults {
        missing: CatalogueFault::At(CatalogueDefect::MissingField, at),
        wrong_kind: CatalogueFault::At(CatalogueDefect::WrongKind, at),
        unknown: CatalogueFault::At(CatalogueDefect::UnknownField, at),
        too_many: CatalogueFault::At(CatalogueDefect::WrongKind, at),
        memory: CatalogueFault::Memory,
    }
}

// A copy of a text that is not too long.
pub(crate) fn copy_short(
    alloc: Global,
    text: &str,
    at: CatalogueSpot,
) -> Result<Text, CatalogueFault>
    ensures { Gives CatalogueFault.Memory result (short_text (faults_at at) text.now) }
{
    let text = short_text(text, &faults_at(at))?;
    Ok(Text::new(alloc, text)?)
}

// A needed text, not too long.
#[tactic(auto, unfolding(crate::specs::Texts::needed_text))]
pub(crate) fn needed_text(
    alloc: Global,
    table: &Table,
    name: &str,
    at: CatalogueSpot,
) -> Result<Text, CatalogueFault>
    ensures { Gives CatalogueFault.Memory result (needed_text at name.now (table_view table.now)) }
{
    let text = text_field(table, name, &faults_at(at))?;
    copy_short(alloc, text, at)
}

// A text that may be left out, and is then empty.
#[tactic(auto, unfolding(crate::specs::Texts::free_text))]
pub(crate) fn free_text(
    alloc: Global,
    table: &Table,
    name: &str,
    at: CatalogueSpot,
) -> Result<Text, CatalogueFault>
    ensures { Gives CatalogueFault.Memory result (free_text at name.now (table_view table.now)) }
{
    let text = optional_text(table, name, &faults_at(at))?;
    copy_short(alloc, text.unwrap_or(""), at)
}

// The name of a key or a recorder, or the id of a key.
#[tactic(auto, unfolding(crate::specs::Texts::label_field))]
pub(crate) fn label_field(
    alloc: Global,
    table: &Table,
    name: &str,
    at: CatalogueSpot,
) -> Result<Text, CatalogueFault>
    ensures { Gives CatalogueFault.Memory result
        (label_field at name.now (table_view table.now)) }
{
    let text = text_field(table, name, &faults_at(at))?;
    label_of(alloc, text, at)
}

// A text that is not empty, and not too long.
pub(crate) fn label_of(alloc: Global, text: &str, at: CatalogueSpot) -> Result<Text, CatalogueFault>
    ensures { Gives CatalogueFault.Memory result (label_of at text.now) }
{
    if text.is_empty() {
        return Err(CatalogueFault::At(CatalogueDefect::BadName, at));
    }
    copy_short(alloc, text, at)
}
