//! Copies of batches.
ghost use Rattle.std.specs.Prelude.{◌≡◌, ◌≤◌, ◌++◌, IfOk, vec_len};
ghost use Rattle.metric_export.specs.Queues.{entered};

use metric_base::{Copied, Items};
use metric_history::{Batch, Point, StreamPoints};
use std::alloc::{AllocError, Global};

/// A copy of a batch, equal to it. Fails only when out of memory.
pub fn copy_batch(alloc: Global, batch: &Batch) -> Result<Batch, AllocError>
    ensures { IfOk result (λ copied. copied ≡ batch.now) }
{
    Ok(Batch {
        plan: batch.plan,
        reader: batch.reader,
        instrument: batch.instrument,
        from: batch.from,
        mark: batch.mark,
        start: batch.start,
        time: batch.time,
        streams: copy_streams(alloc, batch.streams.as_slice())?,
    })
}

/// Puts a copy of a batch last. Whether there was memory for it.
pub(crate) fn push_copy(alloc: Global, kept: &mut Vec<Batch>, batch: &Batch) -> bool
    ensures items { kept.new.items ≡ kept.old.items ++ entered result batch.now }
    ensures grows { vec_len kept.old ≤ vec_len kept.new }
{
    match copy_batch(alloc, batch) {
        Ok(copy) => kept.push(copy).is_ok(),
        Err(_) => false,
    }
}

fn copy_streams(alloc: Global, streams: &[StreamPoints]) -> Result<Items<StreamPoints>, AllocError>
    ensures { IfOk result (λ copies. copies ≡ streams.now) }
{
    let mut copies = Items::new(alloc);
    for stream in streams {
        copies.push(copy_stream(alloc, stream)?)?;
    }
    Ok(copies)
}

fn copy_stream(alloc: Global, stream: &StreamPoints) -> Result<StreamPoints, AllocError>
    ensures { IfOk result (λ copied. copied ≡ stream.now) }
{
    Ok(StreamPoints {
        stream: stream.stream,
        points: copy_points(alloc, stream.points.as_slice())?,
    })
}

fn copy_points(alloc: Global, points: &[Point]) -> Result<Items<Point>, AllocError>
    ensures { IfOk result (λ copies. copies ≡ points.now) }
{
    let mut copies = Items::new(alloc);
    for point in points {
        copies.push(copy_point(alloc, point)?)?;
    }
    Ok(copies)
}

fn copy_point(alloc: Global, point: &Point) -> Result<Point, AllocError>
    ensures { IfOk result (λ copied. copied ≡ point.now) }
{
    Ok(Point {
        set: point.set,
        value: point.value.copy(alloc)?,
    })
}
