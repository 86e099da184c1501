//! The cells of a stream's row.
ghost use Rattle.std.specs.Prelude.{◌≡◌, IfOk, slice_index_or};
ghost use Rattle.metric_bounds.specs.Sets.{sets_of};
ghost use Rattle.wormweekly_commands.specs.Series.{series_of};
ghost use Rattle.wormweekly_commands.specs.Tables.{IsWithin};

use metric_bounds::{listed, product};
use metric_catalogue::Catalogue;
use metric_contents::{Instrument, Key, Kind, Meter};
use metric_family::family_of;
use metric_kit_commands::Declared;
use metric_sheet::{Cell, Row};
use metric_views::{Stream, StreamAggregation, Temporality};
use std::alloc::{AllocError, Global};

// What a series takes in a table of the slower kind, as it was measured: with a sum or a last value; with a histogram,
// beside its counts.
const SUM_BYTES: u128 = 52;

const HISTOGRAM_BYTES: u128 = 121;

/// How a stream stays within its limit.
#[derive(Clone, Copy, Debug, PartialEq, Eq, Drop)]
pub(crate) enum Within {
    /// By the product of the values of its keys.
    Product,
    /// By the combinations that its instrument lists.
    List,
    /// By how often its instrument may be recorded.
    Budget,
    /// It does not.
    Not,
}

impl Within {
    fn word(self) -> &'static str {
        match self {
            Within::Product => "product",
            Within::List => "list",
            Within::Budget => "budget",
            Within::Not => "no",
        }
    }
}

/// Puts the cells of a stream last, in the order of the titles.
pub(crate) fn put_stream(
    row: &mut Row,
    declared: &Declared,
    totals: &[u128],
    number: usize,
    stream: &Stream,
) -> Result<(), AllocError> {
    row.number(number as u128);
    put_names(row, declared, stream);
    put_kinds(row, declared, stream);
    put_bounds(row, &declared.catalogue, totals, stream)
}

// The names of the reader, the meter, the instrument and the stream, and the unit.
fn put_names(row: &mut Row, declared: &Declared, stream: &Stream) {
    row.text(reader_name(declared, stream));
    row.text(meter_name(&declared.catalogue, stream.instrument));
    row.text(instrument_name(&declared.catalogue, stream.instrument));
    row.text(stream.name.get().as_str());
    row.text(stream.unit.get().as_str());
}

// The kind, the temporality and the keys that are kept.
fn put_kinds(row: &mut Row, declared: &Declared, stream: &Stream) {
    row.text(kind_word(stream));
    row.text(temporality_word(stream.temporality));
    let instruments = declared.catalogue.instruments();
    match instruments.get(stream.instrument as usize) {
        Some(instrument) => row.put(kept_cell(row.alloc(), instrument, stream)),
        None => row.nothing(),
    }
}

// How many sets the stream may have, its limit, how it stays within that, and what its table takes at most.
fn put_bounds(
    row: &mut Row,
    catalogue: &Catalogue,
    totals: &[u128],
    stream: &Stream,
) -> Result<(), AllocError> {
    let (sets, is_listed) = sets_of(row.alloc(), catalogue, stream)?;
    let total = total_at(totals, stream.instrument);
    let within = within_of(sets, is_listed, total, stream.limit);
    let series = sets.min(total).min(u128::from(stream.limit));
    row.number(sets);
    row.number(u128::from(stream.limit));
    row.text(within.word());
    row.number(table_bytes(series, stream));
    Ok(())
}

/// What Prometheus calls the metric family of a stream, where a word is left for it.
pub(crate) fn family_cell(alloc: Global, stream: &Stream) -> Result<Cell, AllocError> {
    let family = family_of(alloc, stream)?;
    if family.as_str().is_empty() {
        Ok(Cell::Nothing)
    } else {
        Cell::text(alloc, family.as_str())
    }
}

/// The name of a stream's reader.
pub(crate) fn reader_name<'a>(declared: &'a Declared, stream: &Stream) -> &'a str {
    match declared.config.readers().get(stream.reader as usize) {
        Some(reader) => reader.name.as_str(),
        None => "",
    }
}

/// The name of the instrument of a number, which is empty where there is none.
pub(crate) fn instrument_name(catalogue: &Catalogue, instrument: u32) -> &str {
    match catalogue.instruments().get(instrument as usize) {
        Some(instrument) => instrument.name.get().as_str(),
        None => "",
    }
}

/// The name of the meter of the instrument of a number.
pub(crate) fn meter_name(catalogue: &Catalogue, instrument: u32) -> &str {
    match meter_of(catalogue, instrument) {
        Some(meter) => meter.name.as_str(),
        None => "",
    }
}

fn meter_of(catalogue: &Catalogue, instrument: u32) -> Option<&Meter> {
    let instrument = catalogue.instruments().get(instrument as usize)?;
    catalogue.meters().get(instrument.meter as usize)
}

/// What the points of a stream are, in a word.
pub(crate) fn kind_word(stream: &Stream) -> &'static str {
    match stream.aggregation {
        StreamAggregation::Sum if stream.kind.is_monotonic() => "sum",
        StreamAggregation::Sum => "up-down sum",
        StreamAggregation::LastValue => "last value",
        StreamAggregation::Histogram(_) => "histogram",
    }
}

/// The kind of an instrument, as a catalogue names it.
pub(crate) fn instrument_word(kind: Kind) -> &'static str {
    match kind {
        Kind::Counter => "counter",
        Kind::UpDownCounter => "up_down_counter",
        Kind::Histogram => "histogram",
        Kind::Gauge => "gauge",
    }
}

/// What a collection reports, in a word.
pub(crate) fn temporality_word(temporality: Temporality) -> &'static str {
    match temporality {
        Temporality::Delta => "delta",
        Temporality::Cumulative => "cumulative",
    }
}

// The names of the keys that a stream keeps.
fn kept_cell(alloc: Global, instrument: &Instrument, stream: &Stream) -> Result<Cell, AllocError> {
    kept_names(
        alloc,
        instrument.keys.as_slice(),
        stream.kept.get().as_slice(),
    )
}

fn kept_names(alloc: Global, keys: &[Key], kept: &[bool]) -> Result<Cell, AllocError> {
    let mut names = Vec::new(alloc);
    for (key, kept) in keys.iter().zip(kept) {
        if *kept {
            names.push(String::from_str(alloc, key.name.as_str())?)?;
        }
    }
    Ok(Cell::Texts(names))
}

// How many distinct sets of the kept keys recordings of a stream may have, and whether its instrument lists them.
#[tactic(auto, unfolding(metric_bounds::specs::Sets::sets_of))]
fn sets_of(
    alloc: Global,
    catalogue: &Catalogue,
    stream: &Stream,
) -> Result<(u128, bool), AllocError>
    ensures { IfOk result (λ found. found.0 ≡ sets_of catalogue.now stream.now) }
{
    match listed(alloc, catalogue, stream)? {
        Some(list) => Ok((list.len() as u128, true)),
        None => Ok((product(catalogue, stream), false)),
    }
}

// How often an instrument may be recorded.
fn total_at(totals: &[u128], instrument: u32) -> u128
    ensures { result ≡ slice_index_or totals.now instrument 0 }
{
    match totals.get(instrument as usize) {
        Some(total) => *total,
        None => 0,
    }
}

// How a stream of so many sets and so many recordings stays within its limit.
fn within_of(sets: u128, is_listed: bool, total: u128, limit: u32) -> Within
    ensures { IsWithin sets total limit result }
{
    if sets <= u128::from(limit) {
        if is_listed {
            Within::List
        } else {
            Within::Product
        }
    } else if total <= u128::from(limit) {
        Within::Budget
    } else {
        Within::Not
    }
}

/// How many series a stream may have without its limit: as its keys allow, and as often as its instrument may be
/// recorded.
pub(crate) fn series_of(
    alloc: Global,
    catalogue: &Catalogue,
    totals: &[u128],
    stream: &Stream,
) -> Result<u128, AllocError>
    ensures { IfOk result (λ series. series ≡ series_of catalogue.now totals.now stream.now) }
{
    let (sets, _) = sets_of(alloc, catalogue, stream)?;
    Ok(sets.min(total_at(totals, stream.instrument)))
}

// What a table of so many series takes at most, in bytes, as far as it was measured.
fn table_bytes(series: u128, stream: &Stream) -> u128 {
    match &stream.aggregation {
        StreamAggregation::Sum | StreamAggregation::LastValue => series.saturating_mul(SUM_BYTES),
        StreamAggregation::Histogram(boundaries) => {
            let buckets = boundaries.get().as_slice().len() as u128 + 1;
            series.saturating_mul(HISTOGRAM_BYTES + buckets * 8)
        }
    }
}
