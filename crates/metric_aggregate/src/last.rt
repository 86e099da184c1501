//! The last value.
ghost use Rattle.std.specs.Prelude.{[]};

use crate::aggregate::Aggregate;
use crate::point_value::PointValue;
use std::alloc::{AllocError, Global};

/// The value added last, as a gauge reports it (Metrics SDK, last value aggregation).
#[derive(Clone, Copy, Debug)]
pub struct LastAgg {
    last: Option<i64>,
}

impl LastAgg {
    ghost use Rattle.metric_aggregate.specs.LastAgg.{StandsLast};

    /// No value yet.
    pub fn new() -> LastAgg
        ensures { StandsLast result [] }
    {
        LastAgg { last: None }
    }
}

impl Aggregate for LastAgg {
    ghost use Rattle.std.specs.Prelude.{true, is_none};
    ghost use Rattle.metric_aggregate.specs.Aggregation.{LastValueAggregation};
    ghost use Rattle.metric_aggregate.specs.LastAgg.{StandsLast, last_fits_in_range, last_is_empty_of_none};

    type Parameters = ();

    ghost aggregation = { λ _. LastValueAggregation };

    ghost aggregation_of = { λ _. LastValueAggregation };

    ghost stands = { StandsLast };

    ghost fits = { λ _ _. true };

    ghost is_empty = { λ a. is_none a.last };

    fn fits(&self, _value: i64) -> bool {
        true
    }

    fn add(&mut self, value: i64) {
        self.last = Some(value);
    }

    fn is_empty(&self) -> bool {
        self.last.is_none()
    }

    fn read(&self, _alloc: Global) -> Result<PointValue, AllocError> {
        Ok(PointValue::Last(self.last.unwrap()))
    }

    fn reset(&mut self) {
        self.last = None;
    }

    fn with_parameters(_alloc: Global, _parameters: &()) -> Result<LastAgg, AllocError> {
        Ok(LastAgg::new())
    }

    ghost fits_in_range = { last_fits_in_range };

    ghost is_empty_of_none = { last_is_empty_of_none };
}
