//! What a way out of the points would lose of the streams of a config.
ghost use Rattle.std.specs.Prelude.{◌≡◌, ◌==◌, ◌&&◌, ◌||◌, ◌++◌, [], IfOk, OnOk, if◌then◌else◌, map, not, slice_get};
ghost use Rattle.std.specs.List.{list_any};
ghost use Rattle.metric_facts.specs.Facts.{is_delta_temporality};
ghost use Rattle.wormweekly_commands.specs.Exposures.{all_exposures, exposure_of, has_served, is_asked, is_of_reader, is_told, name_at, names_reader, outlet_exposures, outlet_word, reader_exposures, serves, told_exposures};

use crate::concerns::names;
use metric_base::Text;
use metric_catalogue::Catalogue;
use metric_command_lines::key_and_value;
use metric_exposure::{ExposureFault, Outlet, exposure_faults};
use metric_views::{Config, Stream, Temporality};
use std::alloc::{AllocError, Global};

/// What a way out would lose.
#[derive(Clone, Copy, Drop)]
pub(crate) struct Exposure {
    pub outlet: Outlet,
    pub fault: ExposureFault,
}

/// What the ways out that words name would lose: with a reader of its streams, else of those of each reader that the way
/// out can serve. One that can serve none would lose all, and each reader is told of.
pub(crate) fn exposures_of(
    alloc: Global,
    catalogue: &Catalogue,
    config: &Config,
    streams: &[Stream],
    words: &[Text],
) -> Result<Vec<Exposure>, AllocError>
    ensures { IfOk result (λ found. found.items
        ≡ all_exposures words.now catalogue.now config.now streams.now) }
{
    let mut found = Vec::new(alloc);
    let pages = Asked {
        words,
        outlet: Outlet::Prometheus,
    };
    add_outlet(alloc, &mut found, catalogue, config, streams, pages)?;
    let requests = Asked {
        words,
        outlet: Outlet::Otlp,
    };
    add_outlet(alloc, &mut found, catalogue, config, streams, requests)?;
    Ok(found)
}

// A way out, and the words that may name it.
#[derive(Clone, Copy)]
struct Asked<'a> {
    words: &'a [Text],
    outlet: Outlet,
}

// Puts what a way out would lose of the readers last.
fn add_outlet(
    alloc: Global,
    found: &mut Vec<Exposure>,
    catalogue: &Catalogue,
    config: &Config,
    streams: &[Stream],
    asked: Asked<'_>,
) -> Result<(), AllocError>
    ensures { OnOk result (found.new.items ≡ found.old.items
        ++ outlet_exposures asked.entry.words.now asked.entry.outlet
        catalogue.now config.now streams.now) }
{
    for reader in 0..config.readers().len() as u32 {
        add_told(alloc, found, catalogue, config, streams, asked, reader)?;
    }
    Ok(())
}

// Puts what a way out would lose of a reader last, where that is told.
fn add_told(
    alloc: Global,
    found: &mut Vec<Exposure>,
    catalogue: &Catalogue,
    config: &Config,
    streams: &[Stream],
    asked: Asked<'_>,
    reader: u32,
) -> Result<(), AllocError>
    ensures { OnOk result (found.new.items ≡ found.old.items
        ++ told_exposures asked.entry.words.now asked.entry.outlet
        catalogue.now config.now streams.now reader) }
{
    if is_told(config, streams, asked, reader) {
        add_reader(alloc, found, catalogue, streams, asked.outlet, reader)?;
    }
    Ok(())
}

// Whether a reader is told of: it is named, or it can be served, or none can.
fn is_told(config: &Config, streams: &[Stream], asked: Asked<'_>, reader: u32) -> bool
    ensures { result
        ≡ is_told asked.entry.words.now asked.entry.outlet config.now streams.now reader }
{
    let Asked { words, outlet } = asked;
    names_reader(words, outlet, name_at(config, reader))
        || (names(words, outlet_word(outlet)) && is_asked(streams, outlet, reader))
}

// Whether a reader is told of where none is named: it can be served, or none can.
fn is_asked(streams: &[Stream], outlet: Outlet, reader: u32) -> bool
    ensures { result ≡ is_asked outlet streams.now reader }
{
    !serves_some(streams, outlet) || serves_reader(streams, outlet, reader)
}

// The name of a reader.
fn name_at(config: &Config, reader: u32) -> &str
    ensures { result.now ≡ name_at (slice_get config.now.readers reader) }
{
    match config.readers().get(reader as usize) {
        Some(reader) => reader.name.as_str(),
        None => "",
    }
}

// Whether some word names a way out with a reader of this name.
fn names_reader(words: &[Text], outlet: Outlet, name: &str) -> bool
    ensures { result ≡ names_reader words.now outlet name.now }
{
    words
        .iter()
        .any(|word| is_of_reader(word.as_str(), outlet, name))
}

fn is_of_reader(word: &str, outlet: Outlet, name: &str) -> bool
    ensures { result ≡ is_of_reader word.now outlet name.now }
{
    let (named, reader) = key_and_value(word);
    named == outlet_word(outlet) && reader == name
}

fn outlet_word(outlet: Outlet) -> &'static str
    ensures { result.now ≡ outlet_word outlet }
{
    match outlet {
        Outlet::Prometheus => "prometheus",
        Outlet::Otlp => "otlp",
    }
}

// Whether a way out can serve some stream.
fn serves_some(streams: &[Stream], outlet: Outlet) -> bool
    ensures { result ≡ list_any (serves outlet) streams.now }
{
    streams.iter().any(|stream| serves(outlet, stream))
}

/// Whether a way out can serve some stream of a reader.
pub(crate) fn serves_reader(streams: &[Stream], outlet: Outlet, reader: u32) -> bool
    ensures { result ≡ has_served outlet streams.now reader }
{
    streams
        .iter()
        .any(|stream| stream.reader == reader && serves(outlet, stream))
}

// Whether a way out can serve a stream: pages have none that is a delta.
fn serves(outlet: Outlet, stream: &Stream) -> bool
    ensures { result ≡ serves outlet stream.now }
{
    match outlet {
        Outlet::Prometheus => !is_delta(stream.temporality),
        Outlet::Otlp => true,
    }
}

fn is_delta(temporality: Temporality) -> bool
    ensures { result ≡ is_delta_temporality temporality }
{
    match temporality {
        Temporality::Delta => true,
        Temporality::Cumulative => false,
    }
}

// Puts what a way out would lose of a reader last.
fn add_reader(
    alloc: Global,
    found: &mut Vec<Exposure>,
    catalogue: &Catalogue,
    streams: &[Stream],
    outlet: Outlet,
    reader: u32,
) -> Result<(), AllocError>
    ensures { OnOk result (found.new.items ≡ found.old.items
        ++ reader_exposures outlet catalogue.now streams.now reader) }
{
    let faults = exposure_faults(alloc, catalogue, streams, reader, outlet)?;
    add_faults(found, outlet, &faults)
}

// Puts faults of a way out last.
#[tactic(auto, using(metric_text::specs::ListLaws::steps))]
fn add_faults(
    found: &mut Vec<Exposure>,
    outlet: Outlet,
    faults: &[ExposureFault],
) -> Result<(), AllocError>
    ensures { OnOk result (found.new.items ≡ found.old.items
        ++ map (exposure_of outlet) faults.now) }
{
    for fault in faults {
        found.push(Exposure {
            outlet,
            fault: *fault,
        })?;
    }
    Ok(())
}
