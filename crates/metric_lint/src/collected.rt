//! Remarks on what readers collect.
ghost use Rattle.std.specs.Prelude.{◌≡◌, ◌==◌, ◌&&◌, ◌≤◌, ◌++◌, OnOk, Some, length, not};
ghost use Rattle.std.specs.List.{flat_map, list_any, range_with_len};
ghost use Rattle.metric_views.specs.Selection.{is_kind};
ghost use Rattle.metric_lint.specs.Collected.{collected_remarks, has_level_delta, is_delta, is_histogram, is_level_delta, level_remarks, reader_remarks};

use crate::linting::add_when;
use crate::remark::Remark;
use metric_base::Items;
use metric_catalogue::Catalogue;
use metric_contents::Kind;
use metric_views::{Config, Stream, StreamAggregation, Temporality, is_of_kind};
use std::alloc::AllocError;

/// Puts the remarks on readers last: each that has no stream though there are instruments, and each that has delta
/// streams of what has a level; then that there is no reader.
pub(crate) fn add_collected(
    remarks: &mut Items<Remark>,
    catalogue: &Catalogue,
    config: &Config,
    streams: &[Stream],
) -> Result<(), AllocError>
    ensures { OnOk result (remarks.new ≡ remarks.old
        ++ collected_remarks catalogue.now config.now streams.now) }
{
    let has_instruments = !catalogue.instruments().is_empty();
    let readers = config.readers();
    add_readers(remarks, has_instruments, streams, readers.len())?;
    add_when(remarks, readers.is_empty(), Remark::NoReader)
}

// Puts the remarks on so many readers last.
fn add_readers(
    remarks: &mut Items<Remark>,
    has_instruments: bool,
    streams: &[Stream],
    readers: usize,
) -> Result<(), AllocError>
    requires { readers ≤ 16 }
    ensures { OnOk result (remarks.new ≡ remarks.old
        ++ flat_map (reader_remarks has_instruments streams.now) (range_with_len 0 readers)) }
{
    for reader in 0..readers as u32 {
        add_reader(remarks, has_instruments, streams, reader)?;
    }
    Ok(())
}

// Puts the remarks on a reader last.
fn add_reader(
    remarks: &mut Items<Remark>,
    has_instruments: bool,
    streams: &[Stream],
    reader: u32,
) -> Result<(), AllocError>
    ensures { OnOk result (remarks.new ≡ remarks.old
        ++ reader_remarks has_instruments streams.now reader) }
{
    let is_idle = has_instruments && !has_stream(streams, reader);
    add_when(remarks, is_idle, Remark::NoStream { reader })?;
    add_level(remarks, streams, reader, Kind::UpDownCounter)?;
    add_level(remarks, streams, reader, Kind::Gauge)
}

// Whether a reader has some stream.
fn has_stream(streams: &[Stream], reader: u32) -> bool
    ensures { result ≡ list_any (λ stream. stream.reader == reader) streams.now }
{
    streams.iter().any(|stream| stream.reader == reader)
}

// Puts it last that a reader has delta streams of a kind that has a level, where it has.
fn add_level(
    remarks: &mut Items<Remark>,
    streams: &[Stream],
    reader: u32,
    kind: Kind,
) -> Result<(), AllocError>
    ensures { OnOk result (remarks.new ≡ remarks.old ++ level_remarks streams.now reader kind) }
{
    let is_delta = has_level_delta(streams, reader, kind);
    add_when(remarks, is_delta, Remark::LevelDelta { reader, kind })
}

fn has_level_delta(streams: &[Stream], reader: u32, kind: Kind) -> bool
    ensures { result ≡ has_level_delta streams.now reader kind }
{
    streams
        .iter()
        .any(|stream| is_level_delta(stream, reader, kind))
}

// Whether a stream of a reader and a kind is a delta, and no distribution.
fn is_level_delta(stream: &Stream, reader: u32, kind: Kind) -> bool
    ensures { result ≡ is_level_delta reader kind stream.now }
{
    stream.reader == reader
        && is_of_kind(&Some(kind), stream.kind)
        && is_delta(stream.temporality)
        && !is_histogram(&stream.aggregation)
}

fn is_delta(temporality: Temporality) -> bool
    ensures { result ≡ is_delta temporality }
{
    match temporality {
        Temporality::Delta => true,
        Temporality::Cumulative => false,
    }
}

fn is_histogram(aggregation: &StreamAggregation) -> bool
    ensures { result ≡ is_histogram aggregation.now }
{
    match aggregation {
        StreamAggregation::Histogram(_) => true,
        StreamAggregation::Sum => false,
        StreamAggregation::LastValue => false,
    }
}
