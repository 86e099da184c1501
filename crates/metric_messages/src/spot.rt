//! A fault of one text, told with where it stands.
ghost use Rattle.std.specs.Prelude.{◌≡◌, IfOk};
ghost use Rattle.metric_messages.specs.Marks.{IsMarked};
ghost use Rattle.metric_messages.specs.declared.spot.Spot.TheVariants.{Entry, Table};

use crate::catalogue_cause::catalogue_cause;
use crate::config_cause::config_cause;
use crate::diagnosis::Diagnosis;
use crate::finder::find;
use crate::marked::marked;
use crate::sources::NamedText;
use crate::toml_fault::{error_message, toml_message};
use crate::way::Way;
use metric_catalogue::{CatalogueDefect, CatalogueSpot};
use metric_cert::CertList;
use metric_lint::Position;
use metric_views::{ConfigSpot, ViewDefect};
use std::alloc::{AllocError, Global};
use toml::Table;

// What a fault of a text is of.
#[derive(Clone, Copy)]
pub(crate) enum Spot {
    // The text as a whole, which is no TOML.
    Text,
    // A field of it.
    Table(TableFault),
    // A table of a list of a certificate, by its number.
    Entry(CertList, usize),
    // No place in it. These words tell the fault.
    Nowhere(&'static str),
}

// What is wrong with which field.
#[derive(Clone, Copy)]
pub(crate) enum TableFault {
    Catalogue(CatalogueDefect, CatalogueSpot),
    Config(ViewDefect, ConfigSpot),
}

// What a person is told of a fault of a text, which is of this spot.
pub(crate) fn diagnose<'t, F: Drop>(
    alloc: Global,
    source: NamedText<'t>,
    fault: F,
    spot: Spot,
) -> Result<Diagnosis<'t, F>, AllocError>
    ensures fault { IfOk result (λ told. told.fault ≡ fault) }
    ensures file { IfOk result (λ told. told.file.now ≡ source.entry.name.now) }
    ensures place { IfOk result (λ told. IsMarked source.entry.text.now spot told.position) }
{
    let (position, words) = spot_message(alloc, source.text, spot)?;
    Ok(Diagnosis::new(source, fault, position, words))
}

// Where a spot of a text stands, and the cause of its fault.
fn spot_message(
    alloc: Global,
    text: &str,
    spot: Spot,
) -> Result<(Option<Position>, String), AllocError>
    ensures { IfOk result (λ told. IsMarked text.now spot told.0) }
{
    match spot {
        Spot::Text => toml_message(alloc, text),
        Spot::Table(fault) => table_message(alloc, text, fault),
        Spot::Entry(list, number) => entry_message(alloc, text, list, number),
        Spot::Nowhere(words) => Ok((None, String::from_str(alloc, words)?)),
    }
}

// Where a table of a certificate stands whose shape is wrong, and what is told of it.
fn entry_message(
    alloc: Global,
    text: &str,
    list: CertList,
    number: usize,
) -> Result<(Option<Position>, String), AllocError>
    ensures { IfOk result (λ told. IsMarked text.now (Entry list number) told.0) }
{
    let name = list.name();
    let words = format!(in alloc;
        "{name} {number} is not one of a certificate: it was altered, or is of another format; make it anew"
    )?;
    let way = Way::top().then(name, Some(number));
    let position = position_of(alloc, text, way, Spot::Entry(list, number))?;
    Ok((position, words))
}

// Where the field of a fault stands, and the cause in words.
fn table_message(
    alloc: Global,
    text: &str,
    fault: TableFault,
) -> Result<(Option<Position>, String), AllocError>
    ensures { IfOk result (λ told. IsMarked text.now (Table fault) told.0) }
{
    match toml::table_from_str(alloc, text) {
        Ok(top) => message_in(alloc, text, &top, fault),
        Err(error) => Ok((None, error_message(alloc, error)?)),
    }
}

fn message_in(
    alloc: Global,
    text: &str,
    top: &Table,
    fault: TableFault,
) -> Result<(Option<Position>, String), AllocError>
    ensures { IfOk result (λ told. IsMarked text.now (Table fault) told.0) }
{
    let (way, cause) = match fault {
        TableFault::Catalogue(defect, spot) => catalogue_cause(alloc, top, defect, spot),
        TableFault::Config(defect, spot) => config_cause(alloc, top, defect, spot),
    };
    let words = format!(in alloc; "{cause}")?;
    let position = position_of(alloc, text, way, Spot::Table(fault))?;
    Ok((position, words))
}

// Where the place that a way leads to stands, if it is that of the fault.
fn position_of(
    alloc: Global,
    text: &str,
    way: Way<'_>,
    spot: Spot,
) -> Result<Option<Position>, AllocError>
    ensures { IfOk result (λ found. IsMarked text.now spot found) }
{
    match find(alloc, text, way)? {
        Some(start) => Ok(marked(text.as_bytes(), start, spot)),
        None => Ok(None),
    }
}
