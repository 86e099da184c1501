//! Metrics, and the scope that they are of.
ghost use Rattle.std.specs.Prelude.{◌≡◌, ◌++◌, OnOk, map};
ghost use Rattle.std.specs.List.{flat_map};
ghost use Rattle.metric_otlp.specs.Metrics.{bounds_of, covers, data_message, data_number, metric_field, metric_head};
ghost use Rattle.metric_otlp.specs.Metrics.{points_fields, rises, temporality_number};
ghost use Rattle.metric_otlp.specs.Reported.{report_by, reported_by};
ghost use Rattle.metric_otlp.specs.Scopes.{meter_message, scope_message};
ghost use Rattle.metric_otlp.specs.Series.{text_field};
ghost use Rattle.metric_wire.specs.Wire.{block};

use crate::field::{push_number, push_text};
use crate::point::{Common, push_point};
use crate::report::{Report, Reported};
use crate::series::{Form, Series};
use metric_contents::{Kind, Meter};
use metric_views::{Stream, StreamAggregation, Temporality};
use metric_wire::{begin_block, end_block, push_block_head, push_block_of_two};
use std::alloc::{AllocError, Global};

/// Writes what is reported of a meter: its names, a metric for each stream, and its schema URL.
#[tactic(auto, unfolding(crate::specs::Scopes::scope_message))]
pub(crate) fn push_scope(
    alloc: Global,
    out: &mut Vec<u8>,
    report: &Report<'_>,
) -> Result<(), AllocError>
    ensures { OnOk result (out.new.items ≡ out.old.items ++ scope_message (report_by report.now)) }
{
    push_meter(out, report.meter)?;
    push_metrics(alloc, out, report.streams.as_slice())?;
    push_text(out, 3, report.meter.schema_url.as_str())
}

#[tactic(auto, using(metric_wire::specs::ClosingLaws::closing))]
fn push_meter(out: &mut Vec<u8>, meter: &Meter) -> Result<(), AllocError>
    ensures { OnOk result (out.new.items ≡ out.old.items ++ block 1 (meter_message meter.now)) }
{
    let place = begin_block(out, 1)?;
    push_meter_names(out, meter)?;
    end_block(out, place)
}

#[tactic(auto, unfolding(crate::specs::Scopes::meter_message))]
fn push_meter_names(out: &mut Vec<u8>, meter: &Meter) -> Result<(), AllocError>
    ensures { OnOk result (out.new.items ≡ out.old.items ++ meter_message meter.now) }
{
    push_text(out, 1, meter.name.as_str())?;
    push_text(out, 2, meter.version.as_str())
}

#[tactic(auto, using(metric_text::specs::ListLaws::steps))]
fn push_metrics(
    alloc: Global,
    out: &mut Vec<u8>,
    streams: &[Reported<'_>],
) -> Result<(), AllocError>
    ensures { OnOk result (out.new.items ≡ out.old.items
        ++ flat_map metric_field (map reported_by streams.now)) }
{
    for reported in streams {
        push_metric(alloc, out, reported)?;
    }
    Ok(())
}

// Writes a message `Metric`.
#[tactic(auto, unfolding(crate::specs::Metrics::metric_message), using(crate::proofs::RowLaws::head_and_data))]
fn push_metric(alloc: Global, out: &mut Vec<u8>, reported: &Reported<'_>) -> Result<(), AllocError>
    ensures { OnOk result
        (out.new.items ≡ out.old.items ++ metric_field (reported_by reported.now)) }
{
    let mut data = Vec::new(alloc);
    push_data(alloc, &mut data, reported)?;
    let mut head = Vec::new(alloc);
    push_head(&mut head, reported.stream, data.len())?;
    push_block_of_two(out, 2, head.as_slice(), data.as_slice())
}

// Writes what a stream declares, and how the block of its points begins, which has so many bytes.
fn push_head(out: &mut Vec<u8>, stream: &Stream, count: usize) -> Result<(), AllocError>
    ensures { OnOk result (out.new.items ≡ out.old.items ++ metric_head stream.now count) }
{
    push_text(out, 1, stream.name.get().as_str())?;
    push_text(out, 2, stream.description.get().as_str())?;
    push_text(out, 3, stream.unit.get().as_str())?;
    push_block_head(out, data_number(&stream.aggregation), count)
}

// Writes the points of a stream, and what they are.
fn push_data(alloc: Global, out: &mut Vec<u8>, reported: &Reported<'_>) -> Result<(), AllocError>
    ensures { OnOk result (out.new.items ≡ out.old.items
        ++ data_message reported.now.keys.now reported.now.batch.now reported.now.stream.now
        reported.now.points.now) }
{
    let stream = reported.stream;
    push_points(alloc, out, reported)?;
    push_number(out, 2, covers(stream.temporality, &stream.aggregation))?;
    push_number(out, 3, u64::from(rises(stream.kind, &stream.aggregation)))
}

#[tactic(auto, using(metric_text::specs::ListLaws::steps))]
fn push_points(alloc: Global, out: &mut Vec<u8>, reported: &Reported<'_>) -> Result<(), AllocError>
    ensures { OnOk result (out.new.items ≡ out.old.items
        ++ points_fields reported.now.keys.now reported.now.batch.now reported.now.stream.now
        reported.now.points.now) }
{
    let Reported {
        keys,
        batch,
        stream,
        points,
    } = *reported;
    let form = Form::Bytes(attributes_number(&stream.aggregation));
    let kept = stream.kept.get().as_slice();
    let series = Series::new(alloc, form, keys, kept, points.len())?;
    let common = Common::new(alloc, series, bounds_of(&stream.aggregation), batch)?;
    for point in points {
        push_point(out, &common, point)?;
    }
    Ok(())
}

/// The boundaries of a histogram, none of another stream.
pub(crate) fn bounds_of(aggregation: &StreamAggregation) -> &[i64]
    ensures { result.now ≡ bounds_of aggregation.entry.now }
{
    match aggregation {
        StreamAggregation::Sum | StreamAggregation::LastValue => &[],
        StreamAggregation::Histogram(boundaries) => boundaries.get().as_slice(),
    }
}

/// What the points of sums and histograms cover, as the number of an aggregation temporality; 0 for last values.
pub(crate) fn covers(temporality: Temporality, aggregation: &StreamAggregation) -> u64
    ensures { result ≡ covers temporality aggregation.now }
{
    match aggregation {
        StreamAggregation::Sum | StreamAggregation::Histogram(_) => temporality_number(temporality),
        StreamAggregation::LastValue => 0,
    }
}

fn temporality_number(temporality: Temporality) -> u64
    ensures { result ≡ temporality_number temporality }
{
    match temporality {
        Temporality::Delta => 1,
        Temporality::Cumulative => 2,
    }
}

/// Whether points are sums that only rise.
pub(crate) fn rises(kind: Kind, aggregation: &StreamAggregation) -> bool
    ensures { result ≡ rises kind aggregation.now }
{
    match aggregation {
        StreamAggregation::Sum => kind.is_monotonic(),
        StreamAggregation::Histogram(_) | StreamAggregation::LastValue => false,
    }
}

// The field of a metric that has its points.
fn data_number(aggregation: &StreamAggregation) -> u32
    ensures { result ≡ data_number aggregation.now }
{
    match aggregation {
        StreamAggregation::LastValue => 5,
        StreamAggregation::Sum => 7,
        StreamAggregation::Histogram(_) => 9,
    }
}

// The field of a point that has its attributes.
fn attributes_number(aggregation: &StreamAggregation) -> u32 {
    match aggregation {
        StreamAggregation::Sum | StreamAggregation::LastValue => 7,
        StreamAggregation::Histogram(_) => 9,
    }
}
