//! The dense table of a stream, of the kind that serves its aggregation.
ghost use Rattle.std.specs.Prelude.{◌≡◌, ℕ, List, true, [], IfOk};
ghost use Rattle.metric_facts.specs.Facts.{is_full_set};
ghost use Rattle.metric_facts.specs.Products.{IsDense};
ghost use Rattle.metric_dense.specs.Ranks.{IsRanked};

use crate::dense_of::DenseOf;
use metric_aggregate::{BucketAgg, HistogramParameters, LastAgg, SumAgg};
use metric_base::Copied;
use metric_facts::KeyFacts;
use metric_series::{ByAggregation, Either, Table};
use metric_views::{Stream, StreamAggregation};
use std::alloc::{AllocError, Global};

/// The series of a stream, each found by its rank among all that there can be. No call but those that make it and
/// that read its points takes memory.
pub type DenseTable = ByAggregation<DenseOf<SumAgg>, DenseOf<LastAgg>, DenseOf<BucketAgg>>;

/// The dense table of a stream of these keys without recordings. Fails only when out of memory.
pub fn dense_table(
    alloc: Global,
    keys: &[KeyFacts],
    stream: &Stream,
) -> Result<DenseTable, AllocError>
    requires { IsDense keys.now stream.now }
    ensures stands { IfOk result (λ table. ⟦<DenseTable as Table>⟧.stands table stream.now []) }
    ensures takes { IfOk result (λ table. (set : List ℕ) → is_full_set keys.now set ≡ true
        → ⟦<DenseTable as Table>⟧.takes table set) }
    ensures room { IfOk result (λ table. ⟦<DenseTable as Table>⟧.has_room table) }
{
    are_ranked(keys, stream);
    let kept = stream.kept.copy(alloc)?;
    match &stream.aggregation {
        StreamAggregation::Sum => {
            let table = DenseOf::new(alloc, keys, kept, &())?;
            Ok(Either::Left(table))
        }
        StreamAggregation::LastValue => {
            let table = DenseOf::new(alloc, keys, kept, &())?;
            Ok(Either::Right(Either::Left(table)))
        }
        StreamAggregation::Histogram(boundaries) => {
            let parameters = HistogramParameters {
                boundaries: boundaries.copy(alloc)?,
                keeps_sum: stream.kind.is_monotonic(),
            };
            let table = DenseOf::new(alloc, keys, kept, &parameters)?;
            Ok(Either::Right(Either::Right(table)))
        }
    }
}

// All series that the stream can have are counted by a number of 32 bits.
fn are_ranked(keys: &[KeyFacts], stream: &Stream)
    requires { IsDense keys.now stream.now }
    ensures { IsRanked stream.now.kept keys.now }
{
    // For the proof alone: the limit is read, so it is of its type.
    let _limit = stream.limit;
}
