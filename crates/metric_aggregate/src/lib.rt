//! Aggregation of one series: what the values of its recordings are reported as.
//!
//! An aggregator keeps running numbers, and stands for every list of values that these numbers come
//! from. What it reads is the value that `specs/Value.antt` defines of such a list. Code that serves
//! each aggregation alike is generic over [`Aggregate`], whose contract says all of this.
#![tactic(auto)]

mod aggregate;
mod buckets;
mod last;
mod point_value;
mod search;
mod sum;

pub use aggregate::Aggregate;
pub use buckets::{BucketAgg, HistogramParameters};
pub use last::LastAgg;
pub use point_value::PointValue;
pub use sum::SumAgg;
