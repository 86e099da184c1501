//! The series of a stream, in a table of the kind that serves its aggregation.
ghost use Rattle.std.specs.Prelude.{[], ℕ, List, IfOk};

use crate::either::Either;
use crate::hashed::TableOf;
use crate::table::Table;
use metric_aggregate::{BucketAgg, HistogramParameters, LastAgg, SumAgg};
use metric_base::Copied;
use metric_views::{Stream, StreamAggregation};
use std::alloc::{AllocError, Global};

/// The table of a stream, of the kind that serves its aggregation: each series with its sum, else with its last
/// value, else with its histogram.
pub type ByAggregation<S, L, H> = Either<S, Either<L, H>>;

/// The series of a stream, each found by the hash of its set key.
pub type SeriesTable = ByAggregation<TableOf<SumAgg>, TableOf<LastAgg>, TableOf<BucketAgg>>;

impl SeriesTable {
    /// The table of a stream without recordings. Its set keys are hashed with a fixed seed, so it is for recordings
    /// that nobody chooses to slow it down. Fails only when out of memory.
    pub fn new(alloc: Global, stream: &Stream) -> Result<SeriesTable, AllocError>
        ensures stands { IfOk result (λ table.
            ⟦<SeriesTable as Table>⟧.stands table stream.now []) }
        ensures takes { IfOk result (λ table.
            (set : List ℕ) → ⟦<SeriesTable as Table>⟧.takes table set) }
    {
        SeriesTable::with_seed(alloc, stream, 0)
    }

    /// The same, where the set keys are hashed with this seed. With a seed that strangers do not know, such as
    /// the nanoseconds of a start, they can not choose set keys that collide.
    pub fn with_seed(alloc: Global, stream: &Stream, seed: u64) -> Result<SeriesTable, AllocError>
        ensures stands { IfOk result (λ table.
            ⟦<SeriesTable as Table>⟧.stands table stream.now []) }
        ensures takes { IfOk result (λ table.
            (set : List ℕ) → ⟦<SeriesTable as Table>⟧.takes table set) }
    {
        let kept = stream.kept.copy(alloc)?;
        let limit = stream.limit;
        match &stream.aggregation {
            StreamAggregation::Sum => {
                let table = TableOf::new(alloc, seed, kept, limit, ());
                Ok(Either::Left(table))
            }
            StreamAggregation::LastValue => {
                let table = TableOf::new(alloc, seed, kept, limit, ());
                Ok(Either::Right(Either::Left(table)))
            }
            StreamAggregation::Histogram(boundaries) => {
                let parameters = HistogramParameters {
                    boundaries: boundaries.copy(alloc)?,
                    keeps_sum: stream.kind.is_monotonic(),
                };
                let table = TableOf::new(alloc, seed, kept, limit, parameters);
                Ok(Either::Right(Either::Right(table)))
            }
        }
    }
}
