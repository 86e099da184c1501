//! The lines of a batch.
ghost use Rattle.std.specs.Prelude.{◌≡◌, ◌++◌, OnOk};
ghost use Rattle.std.specs.List.{flat_map};
ghost use Rattle.metric_family.specs.Families.{type_of};
ghost use Rattle.metric_exposition.specs.Dialects.{created_at};
ghost use Rattle.metric_exposition.specs.Expositions.{boundaries_of, exposition, named_lines, point_lines, reported_lines, stream_lines};
ghost use Rattle.metric_exposition.specs.Samples.{value_lines};

use crate::dialect::Dialect;
use crate::header::push_header;
use crate::histogram::{Counted, push_histogram};
use crate::label::fill_point_labels;
use crate::sample::{Series, push_number};
use metric_aggregate::PointValue;
use metric_catalogue::Catalogue;
use metric_contents::{Key, Meter};
use metric_family::{MetricType, family_of};
use metric_history::{Batch, Point, StreamPoints};
use metric_views::{Stream, StreamAggregation};
use std::alloc::{AllocError, Global};

/// Writes the lines of a batch: for each stream that has points a metric family with its lines of help, type and, in
/// OpenMetrics, unit, and then the lines of its points. No time stands in them.
///
/// The streams are those of the plan, numbered from 0. A batch of no instrument of the catalogue is nothing, and a
/// stream whose number is not there is left out. Every number is exact. The names of families and labels are those that
/// Prometheus and the OpenTelemetry Collector make; that they differ from each other, and that a point is cumulative,
/// is for the caller to know. Fails only when out of memory, and may then have written a part.
#[tactic(auto, unfolding(crate::specs::Expositions::exposition))]
pub fn push_exposition(
    alloc: Global,
    out: &mut Vec<u8>,
    dialect: Dialect,
    catalogue: &Catalogue,
    streams: &[Stream],
    batch: &Batch,
) -> Result<(), AllocError>
    ensures { OnOk result (out.new.items
        ≡ out.old.items ++ exposition dialect catalogue.now streams.now batch.now) }
{
    let Some(instrument) = catalogue.instruments().get(batch.instrument as usize) else {
        return Ok(());
    };
    let Some(meter) = catalogue.meters().get(instrument.meter as usize) else {
        return Ok(());
    };
    let source = Source {
        dialect,
        meter,
        keys: instrument.keys.as_slice(),
        start: batch.start,
    };
    push_streams(alloc, out, &source, streams, batch.streams.as_slice())
}

/// What the streams of a batch have in common.
#[derive(Clone, Copy)]
pub(crate) struct Source<'a> {
    /// How the page is written.
    pub dialect: Dialect,
    /// The meter of the instrument.
    pub meter: &'a Meter,
    /// Its keys.
    pub keys: &'a [Key],
    /// When the points begin.
    pub start: u64,
}

#[tactic(auto, using(metric_text::specs::ListLaws::steps))]
fn push_streams(
    alloc: Global,
    out: &mut Vec<u8>,
    source: &Source<'_>,
    streams: &[Stream],
    reported: &[StreamPoints],
) -> Result<(), AllocError>
    ensures { OnOk result (out.new.items ≡ out.old.items ++ flat_map (reported_lines
        source.now.dialect source.now.meter.now source.now.keys.now streams.now source.now.start)
        reported.now) }
{
    for points in reported {
        push_reported(alloc, out, source, streams, points)?;
    }
    Ok(())
}

// Writes the lines of a stream, if it has points and is there.
fn push_reported(
    alloc: Global,
    out: &mut Vec<u8>,
    source: &Source<'_>,
    streams: &[Stream],
    points: &StreamPoints,
) -> Result<(), AllocError>
    ensures { OnOk result (out.new.items ≡ out.old.items ++ reported_lines
        source.now.dialect source.now.meter.now source.now.keys.now streams.now source.now.start
        points.now) }
{
    if points.points.is_empty() {
        return Ok(());
    }
    match streams.get(points.stream as usize) {
        Some(stream) => push_stream(alloc, out, source, stream, points.points.as_slice()),
        None => Ok(()),
    }
}

// Writes the lines of a stream. The name of its family is made once.
fn push_stream(
    alloc: Global,
    out: &mut Vec<u8>,
    source: &Source<'_>,
    stream: &Stream,
    points: &[Point],
) -> Result<(), AllocError>
    ensures { OnOk result (out.new.items ≡ out.old.items ++ stream_lines
        source.now.dialect source.now.meter.now source.now.keys.now source.now.start points.now
        stream.now) }
{
    let family = family_of(alloc, stream)?;
    push_named(alloc, out, source, family.as_str(), stream, points)
}

fn push_named(
    alloc: Global,
    out: &mut Vec<u8>,
    source: &Source<'_>,
    name: &str,
    stream: &Stream,
    points: &[Point],
) -> Result<(), AllocError>
    ensures { OnOk result (out.new.items ≡ out.old.items ++ named_lines
        source.now.dialect source.now.meter.now source.now.keys.now source.now.start points.now
        name.now stream.now) }
{
    push_header(alloc, out, source.dialect, name, stream)?;
    let mut room = Room {
        labels: Vec::new(alloc),
        head: Vec::new(alloc),
    };
    push_points(out, &mut room, source, name, stream, points)
}

/// Where what several lines of a point have is written first: its labels, and how the lines of its buckets begin.
#[derive(Drop)]
pub(crate) struct Room {
    /// The labels.
    pub labels: Vec<u8>,
    /// How the lines of buckets begin.
    pub head: Vec<u8>,
}

/// Writes the lines of points.
#[tactic(auto, using(metric_text::specs::ListLaws::steps))]
pub(crate) fn push_points(
    out: &mut Vec<u8>,
    room: &mut Room,
    source: &Source<'_>,
    name: &str,
    stream: &Stream,
    points: &[Point],
) -> Result<(), AllocError>
    ensures { OnOk result (out.new.items ≡ out.old.items ++ flat_map (point_lines
        source.now.dialect source.now.meter.now source.now.keys.now stream.now name.now
        source.now.start) points.now) }
{
    for point in points {
        push_point(out, room, source, name, stream, point)?;
    }
    Ok(())
}

fn push_point(
    out: &mut Vec<u8>,
    room: &mut Room,
    source: &Source<'_>,
    name: &str,
    stream: &Stream,
    point: &Point,
) -> Result<(), AllocError>
    ensures { OnOk result (out.new.items ≡ out.old.items ++ point_lines
        source.now.dialect source.now.meter.now source.now.keys.now stream.now name.now
        source.now.start point.now) }
{
    let kept = stream.kept.get().as_slice();
    fill_point_labels(
        &mut room.labels,
        source.meter,
        source.keys,
        kept,
        &point.set,
    )?;
    let series = Series {
        family: name,
        labels: room.labels.as_slice(),
        created: source.dialect.created_at(source.start),
    };
    push_value(
        out,
        &mut room.head,
        source.dialect,
        stream,
        &series,
        &point.value,
    )
}

fn push_value(
    out: &mut Vec<u8>,
    head: &mut Vec<u8>,
    dialect: Dialect,
    stream: &Stream,
    series: &Series<'_>,
    value: &PointValue,
) -> Result<(), AllocError>
    ensures { OnOk result (out.new.items ≡ out.old.items ++ value_lines dialect (type_of stream.now)
        series.now.family.now series.now.labels.now series.now.created
        (boundaries_of stream.now.aggregation) value.now) }
{
    match value {
        PointValue::Sum(number) | PointValue::Last(number) => {
            push_number(out, MetricType::of(stream), series, *number)
        }
        PointValue::Buckets {
            count,
            counts,
            sum,
            ..
        } => {
            let counted = Counted {
                count: *count,
                counts: counts.as_slice(),
                sum: *sum,
            };
            push_histogram(
                out,
                head,
                dialect,
                series,
                boundaries_of(&stream.aggregation),
                &counted,
            )
        }
    }
}

/// The boundaries of a histogram, none of another stream.
pub fn boundaries_of(aggregation: &StreamAggregation) -> &[i64]
    ensures { result.now ≡ boundaries_of aggregation.now }
{
    match aggregation {
        StreamAggregation::Sum | StreamAggregation::LastValue => &[],
        StreamAggregation::Histogram(boundaries) => boundaries.get().as_slice(),
    }
}
