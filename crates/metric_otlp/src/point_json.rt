//! Points in JSON.
ghost use Rattle.std.specs.Prelude.{◌≡◌, ◌++◌, ◌∷◌, OnOk};
ghost use Rattle.std.specs.List.{flat_map};
ghost use Rattle.metric_text.specs.Lists.{joined};
ghost use Rattle.metric_otlp.specs.PointsJson.{histogram_json, number_json, point_json, value_json};

use crate::attribute_json::push_series;
use crate::member::{Member, push_object};
use crate::series::Series;
use metric_aggregate::PointValue;
use metric_history::{Batch, Point};
use metric_text::push_byte;
use std::alloc::{AllocError, Global};

/// Writes the points of a stream with commas between.
pub(crate) fn push_points(
    alloc: Global,
    out: &mut Vec<u8>,
    series: &Series<'_>,
    bounds: &[i64],
    batch: &Batch,
    points: &[Point],
) -> Result<(), AllocError>
    ensures { OnOk result (out.new.items ≡ out.old.items ++ joined (point_json
        series.now.keys.now series.now.kept.now bounds.now batch.now) points.now) }
{
    let mut room = Vec::new(alloc);
    match points.split_first() {
        None => Ok(()),
        Some((first, others)) => {
            push_point(alloc, out, &mut room, series, bounds, batch, first)?;
            push_more(alloc, out, &mut room, series, bounds, batch, others)
        }
    }
}

// Writes points with a comma before each.
#[tactic(auto, using(metric_text::specs::ListLaws::steps))]
fn push_more(
    alloc: Global,
    out: &mut Vec<u8>,
    room: &mut Vec<u8>,
    series: &Series<'_>,
    bounds: &[i64],
    batch: &Batch,
    points: &[Point],
) -> Result<(), AllocError>
    ensures { OnOk result (out.new.items ≡ out.old.items ++ flat_map
        (λ point. 44 ∷ point_json series.now.keys.now series.now.kept.now
        bounds.now batch.now point) points.now) }
{
    for point in points {
        push_byte(out, b',')?;
        push_point(alloc, out, room, series, bounds, batch, point)?;
    }
    Ok(())
}

// Writes a point. The room is for its attributes.
fn push_point(
    alloc: Global,
    out: &mut Vec<u8>,
    room: &mut Vec<u8>,
    series: &Series<'_>,
    bounds: &[i64],
    batch: &Batch,
    point: &Point,
) -> Result<(), AllocError>
    ensures { OnOk result (out.new.items ≡ out.old.items ++ point_json
        series.now.keys.now series.now.kept.now bounds.now batch.now point.now) }
{
    room.clear();
    push_series(alloc, room, series, &point.set)?;
    push_value(out, room.as_slice(), bounds, batch, &point.value)
}

fn push_value(
    out: &mut Vec<u8>,
    series: &[u8],
    bounds: &[i64],
    batch: &Batch,
    value: &PointValue,
) -> Result<(), AllocError>
    ensures { OnOk result (out.new.items ≡ out.old.items
        ++ value_json series.now bounds.now batch.now value.now) }
{
    match value {
        PointValue::Sum(number) | PointValue::Last(number) => {
            push_number(out, series, batch, *number)
        }
        PointValue::Buckets {
            count,
            counts,
            sum,
            min,
            max,
        } => {
            let histogram = Histogram {
                bounds,
                count: *count,
                counts: counts.as_slice(),
                sum: *sum,
                min: Some(*min),
                max: Some(*max),
            };
            push_histogram(out, series, batch, &histogram)
        }
    }
}

#[tactic(auto, unfolding(crate::specs::PointsJson::number_json))]
fn push_number(
    out: &mut Vec<u8>,
    series: &[u8],
    batch: &Batch,
    number: i64,
) -> Result<(), AllocError>
    ensures { OnOk result (out.new.items
        ≡ out.old.items ++ number_json series.now batch.now number) }
{
    let members = [
        Member::Items("attributes", series),
        Member::Time("startTimeUnixNano", batch.start),
        Member::Time("timeUnixNano", batch.time),
        Member::Signed("asInt", number),
    ];
    push_object(out, &members)
}

// A histogram's value with its boundaries.
#[derive(Clone, Copy)]
struct Histogram<'a> {
    bounds: &'a [i64],
    count: u64,
    counts: &'a [u64],
    sum: Option<i64>,
    min: Option<i64>,
    max: Option<i64>,
}

#[tactic(auto, unfolding(crate::specs::PointsJson::histogram_json))]
fn push_histogram<'a>(
    out: &mut Vec<u8>,
    series: &'a [u8],
    batch: &Batch,
    histogram: &Histogram<'a>,
) -> Result<(), AllocError>
    ensures { OnOk result (out.new.items ≡ out.old.items ++ histogram_json
        series.now histogram.now.bounds.now batch.now histogram.now.count histogram.now.counts.now
        histogram.now.sum histogram.now.min histogram.now.max) }
{
    let members = [
        Member::Items("attributes", series),
        Member::Time("startTimeUnixNano", batch.start),
        Member::Time("timeUnixNano", batch.time),
        Member::Count("count", histogram.count),
        Member::Double("sum", histogram.sum),
        Member::Counts("bucketCounts", histogram.counts),
        Member::Doubles("explicitBounds", histogram.bounds),
        Member::Double("min", histogram.min),
        Member::Double("max", histogram.max),
    ];
    push_object(out, &members)
}
