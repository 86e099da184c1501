//! What two lanes report of one series, joined.
ghost use Rattle.std.specs.Prelude.{◌≡◌, ◌+◌, ◌^◌, ◌<◌, All, IfOk, IfSome, FitsSigned, slice_index};
ghost use Rattle.std.specs.Int.{w64};
ghost use Rattle.metric_safety.specs.WindowBounds.{IsValueInRange};
ghost use Rattle.metric_lanes.specs.Joined.{added as added_counts, joined, sums as joined_sums};

use metric_aggregate::PointValue;
use metric_base::{Copied, Items};
use std::alloc::{AllocError, Global};

// What two lanes report of a series together. Fails only when out of memory.
pub(crate) fn join(alloc: Global, a: &PointValue, b: &PointValue) -> Result<PointValue, AllocError>
    requires { IsValueInRange (joined a.now b.now) }
    ensures { IfOk result (λ value. value ≡ joined a.now b.now) }
{
    match (a, b) {
        (PointValue::Sum(sum), PointValue::Sum(other)) => Ok(PointValue::Sum(*sum + *other)),
        (
            PointValue::Buckets {
                count,
                counts,
                sum,
                min,
                max,
            },
            PointValue::Buckets {
                count: other_count,
                counts: other_counts,
                sum: other_sum,
                min: other_min,
                max: other_max,
            },
        ) => Ok(PointValue::Buckets {
            count: *count + *other_count,
            counts: added(alloc, counts.as_slice(), other_counts.as_slice())?,
            sum: sums(*sum, *other_sum),
            min: (*min).min(*other_min),
            max: (*max).max(*other_max),
        }),
        _ => a.copy(alloc),
    }
}

// The kept sums of two lanes, added.
fn sums(a: Option<i64>, b: Option<i64>) -> Option<i64>
    requires { IfSome (joined_sums a b) (FitsSigned w64) }
    ensures { result ≡ joined_sums a b }
{
    match (a, b) {
        (Some(sum), Some(other)) => Some(sum + other),
        (Some(sum), None) => Some(sum),
        (None, other) => other,
    }
}

// The counts of two lanes, added bucket by bucket.
fn added(alloc: Global, a: &[u64], b: &[u64]) -> Result<Items<u64>, AllocError>
    requires { All (λ n. n < 2 ^ 64) (added_counts a.now b.now) }
    ensures { IfOk result (λ counts. counts ≡ added_counts a.now b.now) }
{
    let mut counts = Items::new(alloc);
    for i in 0..a.len().max(b.len()) {
        counts.push(sum_at(a, b, i))?;
    }
    Ok(counts)
}

// The counts of one bucket, added; 0 stands for one that a lane does not have.
fn sum_at(a: &[u64], b: &[u64], i: usize) -> u64
    requires { slice_index a.now i + slice_index b.now i < 2 ^ 64 }
    ensures { result ≡ slice_index a.now i + slice_index b.now i }
{
    a.get(i).copied().unwrap_or(0) + b.get(i).copied().unwrap_or(0)
}
