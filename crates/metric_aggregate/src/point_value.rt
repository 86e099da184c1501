//! What a point reports.
use metric_base::{Copied, Exact, Items};
use std::alloc::{AllocError, Global};

/// The value of one point (Metrics SDK, aggregation).
#[derive(Debug, Drop)]
pub enum PointValue {
    /// The sum of the values.
    Sum(i64),
    /// The value that was recorded last.
    Last(i64),
    /// An explicit bucket histogram of the values.
    Buckets {
        /// How many values there are.
        count: u64,
        /// How many of them fell into each bucket, in the order of the boundaries.
        counts: Items<u64>,
        /// The sum of the values, where the instrument's kind has one.
        sum: Option<i64>,
        /// The least value.
        min: i64,
        /// The greatest value.
        max: i64,
    },
}

impl PartialEq for PointValue {
    ghost use Rattle.metric_aggregate.specs.PointValue.{point_value_eq, point_value_laws};

    ghost eq = { point_value_eq };

    ghost laws = { point_value_laws };

    fn eq(&self, other: &PointValue) -> bool {
        match (self, other) {
            (PointValue::Sum(a), PointValue::Sum(b)) => a == b,
            (PointValue::Last(a), PointValue::Last(b)) => a == b,
            (
                PointValue::Buckets {
                    count,
                    counts,
                    sum,
                    min,
                    max,
                },
                PointValue::Buckets {
                    count: other_count,
                    counts: other_counts,
                    sum: other_sum,
                    min: other_min,
                    max: other_max,
                },
            ) => count == other_count
                && counts == other_counts
                && sum == other_sum
                && min == other_min
                && max == other_max,
            _ => false,
        }
    }
}

impl Exact for PointValue {
    ghost use Rattle.metric_aggregate.specs.PointValue.{point_value_eq-Decides};

    ghost exact = { point_value_eq-Decides };
}

impl Copied for PointValue {
    fn copy(&self, alloc: Global) -> Result<PointValue, AllocError> {
        Ok(match self {
            PointValue::Sum(value) => PointValue::Sum(*value),
            PointValue::Last(value) => PointValue::Last(*value),
            PointValue::Buckets {
                count,
                counts,
                sum,
                min,
                max,
            } => PointValue::Buckets {
                count: *count,
                counts: counts.copy(alloc)?,
                sum: *sum,
                min: *min,
                max: *max,
            },
        })
    }
}
