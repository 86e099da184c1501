//! The histogram of the values over explicit boundaries.
ghost use Rattle.std.specs.Prelude.{◌≡◌, ◌+◌, ◌^◌, ◌<◌, pos, ◌+ℤ◌, Bool, true, false, [], IfOk, length, is_some, slice_index, slice_set, option_map};
ghost use Rattle.metric_aggregate.specs.BucketAgg.{fits_total};
ghost use Rattle.metric_aggregate.specs.Value.{kept_sum};

use crate::aggregate::Aggregate;
use crate::point_value::PointValue;
use crate::search::count_less;
use metric_base::{Boundaries, Copied, Items, Shared};
use std::alloc::{AllocError, Global};
use std::marker::Model;

/// How many values fall between the boundaries, with their least and greatest value, and with their sum
/// where it is kept (Metrics SDK, explicit bucket histogram aggregation).
#[derive(Debug, Drop)]
pub struct BucketAgg {
    // Those of the stream, which all its series share.
    boundaries: Shared<Boundaries>,
    counts: Vec<u64>,
    count: u64,
    total: Option<i64>,
    // i64::MAX and i64::MIN while there is no value
    least: i64,
    greatest: i64,
}

impl Model for BucketAgg {
    ghost use Rattle.metric_aggregate.specs.BucketAgg.{Histogram, IsHistogram};

    ghost Value = { Histogram };

    ghost view = { λ a. record {
      boundaries = a.boundaries;
      counts = a.counts.items;
      count = a.count;
      total = a.total;
      least = a.least;
      greatest = a.greatest;
    } };

    ghost invariant = { λ a. IsHistogram (record {
      boundaries = a.boundaries;
      counts = a.counts.items;
      count = a.count;
      total = a.total;
      least = a.least;
      greatest = a.greatest;
    }) };
}

impl BucketAgg {
    ghost use Rattle.metric_aggregate.specs.BucketAgg.{histogram_aggregation, StandsBuckets};
    ghost use Rattle.metric_aggregate.specs.Aggregation.{HistogramAggregation};

    /// A histogram of no values; no boundaries at all make a single bucket. All room that it will use is made here.
    /// Fails only when out of memory.
    pub fn new(
        alloc: Global,
        boundaries: &Shared<Boundaries>,
        keeps_sum: bool,
    ) -> Result<BucketAgg, AllocError>
        ensures aggregation { IfOk result (λ a.
            histogram_aggregation a ≡ HistogramAggregation boundaries.now keeps_sum) }
        ensures stands { IfOk result (λ a. StandsBuckets a []) }
    {
        Ok(BucketAgg {
            boundaries: boundaries.copy(alloc)?,
            counts: vec![in alloc; 0; boundaries.get().as_slice().len() + 1]?,
            count: 0,
            total: zero_total(keeps_sum),
            least: i64::MAX,
            greatest: i64::MIN,
        })
    }
}

/// The configuration parameters of a histogram (Metrics SDK, explicit bucket histogram aggregation).
#[derive(Drop)]
pub struct HistogramParameters {
    /// The boundaries between the buckets.
    pub boundaries: Shared<Boundaries>,
    /// Whether the sum of the values is kept.
    pub keeps_sum: bool,
}

impl Aggregate for BucketAgg {
    ghost use Rattle.std.specs.Prelude.{◌==◌};
    ghost use Rattle.metric_aggregate.specs.Aggregation.{HistogramAggregation};
    ghost use Rattle.metric_aggregate.specs.BucketAgg.{histogram_aggregation, histogram_fits, StandsBuckets, buckets_fit_in_range, buckets_are_empty_of_none};

    type Parameters = HistogramParameters;

    ghost aggregation = { histogram_aggregation };

    ghost aggregation_of = { λ p. HistogramAggregation p.boundaries p.keeps_sum };

    ghost stands = { StandsBuckets };

    ghost fits = { histogram_fits };

    ghost is_empty = { λ a. a.count == 0 };

    fn fits(&self, value: i64) -> bool {
        self.count < u64::MAX && total_fits(self.total, value)
    }

    fn add(&mut self, value: i64) {
        let bucket = count_less(self.boundaries.get().as_slice(), value);
        count_one(&mut self.counts, bucket);
        self.count += 1;
        self.total = with_value(self.total, value);
        self.least = self.least.min(value);
        self.greatest = self.greatest.max(value);
    }

    fn is_empty(&self) -> bool {
        self.count == 0
    }

    fn read(&self, alloc: Global) -> Result<PointValue, AllocError> {
        let counts = Vec::from_slice(alloc, &self.counts)?;
        Ok(PointValue::Buckets {
            count: self.count,
            counts: Items::from_vec(counts),
            sum: self.total,
            min: self.least,
            max: self.greatest,
        })
    }

    fn reset(&mut self) {
        self.counts.fill(0);
        self.count = 0;
        self.total = zero_total(self.total.is_some());
        self.least = i64::MAX;
        self.greatest = i64::MIN;
    }

    fn with_parameters(
        alloc: Global,
        parameters: &HistogramParameters,
    ) -> Result<BucketAgg, AllocError> {
        BucketAgg::new(alloc, &parameters.boundaries, parameters.keeps_sum)
    }

    ghost fits_in_range = { buckets_fit_in_range };

    ghost is_empty_of_none = { buckets_are_empty_of_none };
}

fn count_one(counts: &mut [u64], bucket: usize)
    requires bucket { bucket < length counts.old }
    requires room { slice_index counts.old bucket + 1 < 2 ^ 64 }
    ensures { counts.new ≡ slice_set counts.old bucket (slice_index counts.old bucket + 1) }
{
    counts[bucket] += 1;
}

fn total_fits(total: Option<i64>, value: i64) -> bool
    ensures { result ≡ fits_total total value }
{
    match total {
        Some(sum) => sum.checked_add(value).is_some(),
        None => true,
    }
}

fn with_value(total: Option<i64>, value: i64) -> Option<i64>
    requires { fits_total total value ≡ true }
    ensures { result ≡ option_map (λ sum. sum +ℤ value) total }
{
    match total {
        Some(sum) => Some(sum + value),
        None => None,
    }
}

// The sum of no values where it is kept.
fn zero_total(keeps_sum: bool) -> Option<i64>
    ensures { result ≡ kept_sum keeps_sum [] }
{
    if keeps_sum { Some(0) } else { None }
}
