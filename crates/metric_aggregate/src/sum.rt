//! The sum of the values.
ghost use Rattle.std.specs.Prelude.{[]};

use crate::aggregate::Aggregate;
use crate::point_value::PointValue;
use std::alloc::{AllocError, Global};

/// The sum of the values, as a counter or an up-down counter reports it (Metrics SDK, sum aggregation).
#[derive(Clone, Copy, Debug)]
pub struct SumAgg {
    sum: i64,
    is_empty: bool,
}

impl SumAgg {
    ghost use Rattle.metric_aggregate.specs.SumAgg.{StandsSum};

    /// A sum of no values.
    pub fn new() -> SumAgg
        ensures { StandsSum result [] }
    {
        SumAgg {
            sum: 0,
            is_empty: true,
        }
    }
}

impl Aggregate for SumAgg {
    ghost use Rattle.std.specs.Prelude.{◌+ℤ◌};
    ghost use Rattle.metric_aggregate.specs.Aggregation.{SumAggregation};
    ghost use Rattle.metric_aggregate.specs.Range.{fits_i64};
    ghost use Rattle.metric_aggregate.specs.SumAgg.{StandsSum, sum_fits_in_range, sum_is_empty_of_none};

    type Parameters = ();

    ghost aggregation = { λ _. SumAggregation };

    ghost aggregation_of = { λ _. SumAggregation };

    ghost stands = { StandsSum };

    ghost fits = { λ a value. fits_i64 (a.sum +ℤ value) };

    ghost is_empty = { λ a. a.is_empty };

    fn fits(&self, value: i64) -> bool {
        self.sum.checked_add(value).is_some()
    }

    fn add(&mut self, value: i64) {
        self.sum += value;
        self.is_empty = false;
    }

    fn is_empty(&self) -> bool {
        self.is_empty
    }

    fn read(&self, _alloc: Global) -> Result<PointValue, AllocError> {
        Ok(PointValue::Sum(self.sum))
    }

    fn reset(&mut self) {
        *self = SumAgg::new();
    }

    fn with_parameters(_alloc: Global, _parameters: &()) -> Result<SumAgg, AllocError> {
        Ok(SumAgg::new())
    }

    ghost fits_in_range = { sum_fits_in_range };

    ghost is_empty_of_none = { sum_is_empty_of_none };
}
