//! How a batch goes on where the one before it ended.
use crate::seats::START;
use metric_aggregate::PointValue;
use metric_base::Items;
use metric_history::{Batch, Point, StreamPoints};

/// What a reader asks for.
#[derive(Clone, Copy, PartialEq, Eq)]
pub(crate) enum Asked {
    /// What came since its last batch.
    Delta,
    /// All since the start.
    Cumulative,
}

/// Whether the windows of two batches of a reader and an instrument, or of the first one, follow one another.
pub(crate) fn follows(asked: Asked, before: Option<&Batch>, batch: &Batch) -> bool {
    let (mark, time) = match before {
        Some(before) => (before.mark, before.time),
        None => (0, START),
    };
    let (from, start) = match asked {
        Asked::Delta => (mark, time),
        Asked::Cumulative => (0, START),
    };
    batch.from == from && batch.start == start && batch.mark >= mark && batch.time >= time
}

/// Whether each series of a batch is in a later one, with no less.
pub(crate) fn rises(before: &Batch, batch: &Batch) -> bool {
    let (old, new) = (before.streams.as_slice(), batch.streams.as_slice());
    old.len() == new.len()
        && old
            .iter()
            .zip(new)
            .all(|(one, later)| keeps_points(one, later))
}

fn keeps_points(stream: &StreamPoints, later: &StreamPoints) -> bool {
    let later_points = later.points.as_slice();
    let points = stream.points.as_slice();
    stream.stream == later.stream && points.iter().all(|one| keeps_point(one, later_points))
}

fn keeps_point(point: &Point, later: &[Point]) -> bool {
    for other in later {
        if other.set == point.set {
            return is_at_least(&other.value, &point.value);
        }
    }
    false
}

// Whether a value is no less than an earlier one.
fn is_at_least(value: &PointValue, earlier: &PointValue) -> bool {
    match (value, earlier) {
        (PointValue::Sum(now), PointValue::Sum(then)) => *now >= *then,
        (
            PointValue::Buckets { count, counts, .. },
            PointValue::Buckets {
                count: then,
                counts: earlier,
                ..
            },
        ) => *count >= *then && are_at_least(counts, earlier),
        _ => false,
    }
}

fn are_at_least(counts: &Items<u64>, earlier: &Items<u64>) -> bool {
    let (counts, earlier) = (counts.as_slice(), earlier.as_slice());
    counts.len() == earlier.len() && counts.iter().zip(earlier).all(|(now, then)| *now >= *then)
}

/// The sum of the points of each stream of a batch, 0 for last values; nothing where two streams differ.
pub(crate) fn sum_of(batch: &Batch) -> Option<i64> {
    let mut sum = None;
    for stream in batch.streams.as_slice() {
        let own = sum_of_points(stream.points.as_slice());
        if sum.unwrap_or(own) != own {
            return None;
        }
        sum = Some(own);
    }
    Some(sum.unwrap_or(0))
}

fn sum_of_points(points: &[Point]) -> i64 {
    let mut sum: i64 = 0;
    for point in points {
        let own = match &point.value {
            PointValue::Sum(own) => *own,
            PointValue::Last(_) => 0,
            PointValue::Buckets { sum, .. } => sum.unwrap_or(0),
        };
        sum = sum.wrapping_add(own);
    }
    sum
}

/// How many points a batch has.
pub(crate) fn points_of(batch: &Batch) -> u64 {
    let mut points: u64 = 0;
    for stream in batch.streams.as_slice() {
        points = points.wrapping_add(stream.points.as_slice().len() as u64);
    }
    points
}
