//! What the aggregators have in common.
ghost use Rattle.std.specs.Prelude.{◌≡◌, ℤ, Bool, true, false, List, [], ◌∷◌, ◌++◌, IfOk, length, ◌==◌};
ghost use Rattle.metric_aggregate.specs.Aggregation.{Aggregation};
ghost use Rattle.metric_aggregate.specs.Range.{in_range};
ghost use Rattle.metric_aggregate.specs.Value.{value_of};

use crate::point_value::PointValue;
use std::alloc::{AllocError, Global};

/// The running value of one series (Metrics SDK, aggregation).
///
/// A value is tested with [`fits`](Aggregate::fits) before it is added, so that an `add` neither fails
/// nor tests anything. Only `read` and `with_parameters` take memory.
pub trait Aggregate: Drop {
    /// What aggregators that are alike are made of: the configuration parameters of the aggregation.
    type Parameters: Drop;

    // How the values are aggregated.
    ghost aggregation: { Self → Aggregation };

    // How those are that are made of these parameters.
    ghost aggregation_of: { Self.Parameters → Aggregation };

    // The running numbers are those of these values, added in this order.
    ghost stands: { Self → List ℤ → Type 0 };

    // Whether one more value may be added.
    ghost fits: { Self → ℤ → Bool };

    // Whether no value was added.
    ghost is_empty: { Self → Bool };

    /// Whether a value can be added: false exactly where a kept sum would leave `i64` or a count `u64`.
    fn fits(&self, value: i64) -> bool
        ensures { result ≡ fits self.now value };

    /// Adds a value that fits.
    fn add(&mut self, value: i64)
        requires { fits self.old value ≡ true }
        ensures aggregation { aggregation self.new ≡ aggregation self.old }
        ensures some { is_empty self.new ≡ false }
        ensures stands { (added : List ℤ) → stands self.old added
            → stands self.new (added ++ value ∷ []) };

    /// Whether no value was added since the aggregator was made or reset.
    fn is_empty(&self) -> bool
        ensures { result ≡ is_empty self.now };

    /// The value of what was added, of which there is some. Fails only when out of memory.
    fn read(&self, alloc: Global) -> Result<PointValue, AllocError>
        requires { is_empty self.now ≡ false }
        ensures { IfOk result (λ value. (added : List ℤ) → stands self.now added
            → value ≡ value_of (aggregation self.now) added) };

    /// Forgets all values. Allocates no memory.
    fn reset(&mut self)
        ensures aggregation { aggregation self.new ≡ aggregation self.old }
        ensures stands { stands self.new [] };

    /// An empty aggregator of these parameters. All room that it will use is made here. Fails only when out of memory.
    fn with_parameters(alloc: Global, parameters: &Self::Parameters) -> Result<Self, AllocError>
    where
        Self: Sized,
        ensures aggregation { IfOk result (λ empty.
            aggregation empty ≡ aggregation_of parameters.now) }
        ensures stands { IfOk result (λ empty. stands empty []) };

    // A value fits where the longer list stays in range.
    ghost fits_in_range: { (a : Self) (added : List ℤ) (value : ℤ) → stands a added
        → fits a value ≡ in_range (aggregation a) (added ++ value ∷ []) };

    // An aggregator is empty where its list is.
    ghost is_empty_of_none: { (a : Self) (added : List ℤ) → stands a added
        → is_empty a ≡ (length added == 0) };
}
