//! The batch that a reader keeps, point by point, for a host that writes a format of its own.
ghost use Rattle.std.specs.Prelude.{◌≡◌, ◌≢◌, option_map};
ghost use Rattle.std.specs.Option.{option_copied};
ghost use Rattle.wormweekly_c.specs.Codes.{WhereHeld, reader_in};
ghost use Rattle.wormweekly_c.specs.Walking.{IsWritten, aggregation_number, batch_out, boundaries_of, delta_number, kind_number, last_kept, point_at, point_out, points_at, stream_at, stream_out, written_stream, written_value};

use crate::codes::{DONE, NOT_OPEN, UNKNOWN};
use crate::handles::Handle;
use crate::held::Held;
use metric_aggregate::PointValue;
use metric_contents::{Kind, SetKey};
use metric_history::{Batch, Point, StreamPoints};
use metric_hosted::HostedReader;
use metric_views::{Stream, StreamAggregation, Temporality};
use std::alloc::Global;

/// The batch as a whole: the number of its instrument, how many streams it has, and from when to when it is, in
/// nanoseconds.
#[repr(C)]
#[derive(Clone, Copy, Drop)]
pub struct BatchOut {
    pub instrument: u64,
    pub streams: u64,
    pub start: u64,
    pub time: u64,
}

/// A stream of it: its number in the plan; the kind of its instrument (0 counter, 1 up-down counter, 2 histogram, 3
/// gauge); how its points are made (0 sum, 1 last value, 2 histogram); 1 where it is delta, else 0; how many boundaries
/// and points it has.
#[repr(C)]
#[derive(Clone, Copy, Drop)]
pub struct StreamOut {
    pub number: u64,
    pub kind: u64,
    pub aggregation: u64,
    pub delta: u64,
    pub boundaries: u64,
    pub points: u64,
}

/// A point of a stream: its set key, and 1 where it is of a series, 0 where it is the overflow point; the sum or the
/// last value, and 1 where there is one; of a histogram how many values, the least and the greatest, and how many
/// buckets.
#[repr(C)]
#[derive(Clone, Copy, Drop)]
pub struct PointOut {
    pub set: SetKey,
    pub is_series: u64,
    pub count: u64,
    pub has_value: u64,
    pub value: i64,
    pub least: i64,
    pub greatest: i64,
    pub buckets: u64,
}

/// Writes what the batch that a reader keeps is.
#[unsafe(no_mangle)]
pub extern "C" fn wormweekly_batch(alloc: Global, reader: &mut Handle, out: &mut BatchOut) -> u32
    ensures answer { WhereHeld (reader_in reader.old) (result ≡ 100) (λ own.
        IsWritten (option_map batch_out (last_kept own)) out.new result) }
    ensures reader { reader.new.value ≡ reader.old.value }
    ensures refused { result ≢ 0 → out.new ≡ out.old }
{
    let held = reader.take(alloc);
    let code = match held.as_deref() {
        Some(Held::Reader(own)) => write(batch_out(own), out),
        _ => NOT_OPEN,
    };
    reader.put(alloc, held);
    code
}

/// Writes what the stream at a place of the batch is.
#[unsafe(no_mangle)]
pub extern "C" fn wormweekly_stream(
    alloc: Global,
    reader: &mut Handle,
    at: usize,
    out: &mut StreamOut,
) -> u32
    ensures answer { WhereHeld (reader_in reader.old) (result ≡ 100) (λ own.
        IsWritten (stream_out own at) out.new result) }
    ensures reader { reader.new.value ≡ reader.old.value }
    ensures refused { result ≢ 0 → out.new ≡ out.old }
{
    let held = reader.take(alloc);
    let code = match held.as_deref() {
        Some(Held::Reader(own)) => write(stream_out(own, at), out),
        _ => NOT_OPEN,
    };
    reader.put(alloc, held);
    code
}

/// Writes what a point of the stream at a place of the batch is.
#[unsafe(no_mangle)]
pub extern "C" fn wormweekly_point(
    alloc: Global,
    reader: &mut Handle,
    at: usize,
    number: usize,
    out: &mut PointOut,
) -> u32
    ensures answer { WhereHeld (reader_in reader.old) (result ≡ 100) (λ own.
        IsWritten (point_out own at number) out.new result) }
    ensures reader { reader.new.value ≡ reader.old.value }
    ensures refused { result ≢ 0 → out.new ≡ out.old }
{
    let held = reader.take(alloc);
    let code = match held.as_deref() {
        Some(Held::Reader(own)) => write(point_out(own, at, number), out),
        _ => NOT_OPEN,
    };
    reader.put(alloc, held);
    code
}

// Writes what was found.
pub(crate) fn write<T: Copy + Drop>(found: Option<T>, out: &mut T) -> u32
    ensures answer { IsWritten found out.new result }
    ensures refused { result ≢ 0 → out.new ≡ out.old }
{
    match found {
        None => UNKNOWN,
        Some(found) => {
            *out = found;
            DONE
        }
    }
}

fn batch_out(own: &HostedReader) -> Option<BatchOut>
    ensures { result ≡ option_map batch_out (last_kept own.now) }
{
    let batch = last_kept(own)?;
    Some(BatchOut {
        instrument: u64::from(batch.instrument),
        streams: batch.streams.len() as u64,
        start: batch.start,
        time: batch.time,
    })
}

fn points_at(own: &HostedReader, at: usize) -> Option<&StreamPoints>
    ensures { option_copied result ≡ points_at own.now at }
{
    let batch = last_kept(own)?;
    batch.streams.as_slice().get(at)
}

// The last batch that a reader keeps.
fn last_kept(own: &HostedReader) -> Option<&Batch>
    ensures { option_copied result ≡ last_kept own.now }
{
    let kept = own.kept.as_slice();
    kept.get(kept.len().saturating_sub(1))
}

pub(crate) fn stream_at(own: &HostedReader, at: usize) -> Option<&Stream>
    ensures { option_copied result ≡ stream_at own.now at }
{
    let points = points_at(own, at)?;
    own.plan.get().streams().get(points.stream as usize)
}

fn stream_out(own: &HostedReader, at: usize) -> Option<StreamOut>
    ensures { result ≡ stream_out own.now at }
{
    let points = points_at(own, at)?;
    let stream = own.plan.get().streams().get(points.stream as usize)?;
    Some(written_stream(points, stream))
}

fn written_stream(points: &StreamPoints, stream: &Stream) -> StreamOut
    ensures { result ≡ written_stream points.now stream.now }
{
    StreamOut {
        number: u64::from(points.stream),
        kind: kind_number(stream.kind),
        aggregation: aggregation_number(&stream.aggregation),
        delta: delta_number(stream.temporality),
        boundaries: boundaries_of(&stream.aggregation).len() as u64,
        points: points.points.len() as u64,
    }
}

pub(crate) fn kind_number(kind: Kind) -> u64
    ensures { result ≡ kind_number kind }
{
    match kind {
        Kind::Counter => 0,
        Kind::UpDownCounter => 1,
        Kind::Histogram => 2,
        Kind::Gauge => 3,
    }
}

pub(crate) fn aggregation_number(aggregation: &StreamAggregation) -> u64
    ensures { result ≡ aggregation_number aggregation.now }
{
    match aggregation {
        StreamAggregation::Sum => 0,
        StreamAggregation::LastValue => 1,
        StreamAggregation::Histogram(_) => 2,
    }
}

pub(crate) fn delta_number(temporality: Temporality) -> u64
    ensures { result ≡ delta_number temporality }
{
    match temporality {
        Temporality::Delta => 1,
        Temporality::Cumulative => 0,
    }
}

pub(crate) fn boundaries_of(aggregation: &StreamAggregation) -> &[i64]
    ensures { result.now ≡ boundaries_of aggregation.now }
{
    match aggregation {
        StreamAggregation::Sum | StreamAggregation::LastValue => &[],
        StreamAggregation::Histogram(boundaries) => boundaries.get().as_slice(),
    }
}

pub(crate) fn point_at(own: &HostedReader, at: usize, number: usize) -> Option<&Point>
    ensures { option_copied result ≡ point_at own.now at number }
{
    let points = points_at(own, at)?;
    points.points.as_slice().get(number)
}

fn point_out(own: &HostedReader, at: usize, number: usize) -> Option<PointOut>
    ensures { result ≡ point_out own.now at number }
{
    let point = point_at(own, at, number)?;
    Some(written_value(&point.set, &point.value))
}

fn written_value(set: &Option<SetKey>, value: &PointValue) -> PointOut
    ensures { result ≡ written_value set.now value.now }
{
    let (is_series, set) = match set {
        None => (0, [0; 8]),
        Some(set) => (1, *set),
    };
    match value {
        PointValue::Sum(value) | PointValue::Last(value) => PointOut {
            set,
            is_series,
            count: 0,
            has_value: 1,
            value: *value,
            least: 0,
            greatest: 0,
            buckets: 0,
        },
        PointValue::Buckets {
            count,
            counts,
            sum,
            min,
            max,
        } => PointOut {
            set,
            is_series,
            count: *count,
            has_value: u64::from(sum.is_some()),
            value: sum.unwrap_or(0),
            least: *min,
            greatest: *max,
            buckets: counts.len() as u64,
        },
    }
}
