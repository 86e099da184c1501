//! Points.
ghost use Rattle.std.specs.Prelude.{◌≡◌, ◌++◌, IfOk, OnOk};
ghost use Rattle.metric_otlp.specs.Fields.{fixed_field, packed_doubles};
ghost use Rattle.metric_otlp.specs.Points.{number_point, point_field, point_message};

use crate::attribute::push_series;
use crate::field::{push_double, push_doubles, push_fixed, push_words};
use crate::series::Series;
use metric_aggregate::PointValue;
use metric_contents::SetKey;
use metric_history::{Batch, Point};
use metric_wire::{begin_block, end_block, push_double_field, push_signed_field};
use std::alloc::{AllocError, Global};

/// What the points of a stream have in common.
#[derive(Drop)]
pub(crate) struct Common<'a> {
    /// The series of the stream.
    pub series: Series<'a>,
    /// The boundaries of a histogram.
    pub bounds: &'a [i64],
    /// The batch that the points are of.
    pub batch: &'a Batch,
    // When the recordings of the batch begin and when they were collected, as the fields 2 and 3.
    times: Vec<u8>,
    // The boundaries as field 7.
    packed: Vec<u8>,
    ghost times_written: { times.items
        ≡ fixed_field 2 batch.now.start ++ fixed_field 3 batch.now.time },
    ghost packed_written: { packed.items ≡ packed_doubles 7 bounds.now },
}

impl<'a> Common<'a> {
    /// What the points of a stream have in common.
    pub fn new(
        alloc: Global,
        series: Series<'a>,
        bounds: &'a [i64],
        batch: &'a Batch,
    ) -> Result<Common<'a>, AllocError>
        ensures series { IfOk result (λ common. common.series ≡ series.entry) }
        ensures bounds { IfOk result (λ common. common.bounds.now ≡ bounds.entry.now) }
        ensures batch { IfOk result (λ common. common.batch.now ≡ batch.entry.now) }
    {
        let mut times = Vec::new(alloc);
        push_fixed(&mut times, 2, batch.start)?;
        push_fixed(&mut times, 3, batch.time)?;
        let mut packed = Vec::new(alloc);
        push_doubles(&mut packed, 7, bounds)?;
        Ok(Common {
            series,
            bounds,
            batch,
            times,
            packed,
        })
    }
}

/// Writes a point of a stream: a message `NumberDataPoint`, or `HistogramDataPoint` with boundaries.
#[tactic(auto, using(metric_wire::specs::ClosingLaws::closing))]
pub(crate) fn push_point(
    out: &mut Vec<u8>,
    common: &Common<'_>,
    point: &Point,
) -> Result<(), AllocError>
    ensures { OnOk result (out.new.items ≡ out.old.items ++ point_field
        common.now.series.keys.now common.now.series.kept.now common.now.bounds.now
        common.now.batch.now point.now) }
{
    let place = begin_block(out, 1)?;
    push_value(out, common, point)?;
    end_block(out, place)
}

#[tactic(auto, unfolding(crate::specs::Points::histogram_point), using(crate::proofs::RowLaws::in_a_row))]
fn push_value(out: &mut Vec<u8>, common: &Common<'_>, point: &Point) -> Result<(), AllocError>
    ensures { OnOk result (out.new.items ≡ out.old.items ++ point_message
        common.now.series.keys.now common.now.series.kept.now common.now.bounds.now
        common.now.batch.now point.now.set point.now.value) }
{
    match &point.value {
        PointValue::Sum(number) | PointValue::Last(number) => {
            push_number(out, common, &point.set, *number)
        }
        PointValue::Buckets {
            count,
            counts,
            sum,
            min,
            max,
        } => {
            out.extend_from_slice(common.times.as_slice())?;
            push_fixed(out, 4, *count)?;
            push_double(out, 5, *sum)?;
            push_words(out, 6, counts.as_slice())?;
            out.extend_from_slice(common.packed.as_slice())?;
            push_series(out, 9, &common.series, &point.set)?;
            push_double_field(out, 11, *min)?;
            push_double_field(out, 12, *max)
        }
    }
}

// A point that is one number.
#[tactic(auto, unfolding(crate::specs::Points::number_point))]
fn push_number(
    out: &mut Vec<u8>,
    common: &Common<'_>,
    set: &Option<SetKey>,
    number: i64,
) -> Result<(), AllocError>
    ensures { OnOk result (out.new.items ≡ out.old.items ++ number_point
        common.now.series.keys.now common.now.series.kept.now common.now.batch.now
        set.now number) }
{
    out.extend_from_slice(common.times.as_slice())?;
    push_signed_field(out, 6, number)?;
    push_series(out, 7, &common.series, set)
}
