//! The series of a stream, found by hash or by rank.
ghost use Rattle.std.specs.Prelude.{◌≡◌, ℕ, List, true, [], IfOk, IsTrue};
ghost use Rattle.metric_facts.specs.Facts.{is_full_set};
ghost use Rattle.metric_facts.specs.Products.{IsDense};

use metric_dense::{DenseTable, dense_table};
use metric_facts::{KeyFacts, NumberedStream};
use metric_series::{Either, SeriesTable, Table};
use std::alloc::{AllocError, Global};

/// The series of a stream: by rank where it is by product, and else by hash.
pub type StreamSeries = Either<SeriesTable, DenseTable>;

/// The series of a stream of an instrument with these keys, without recordings. Where the stream is by product, all
/// memory is taken here; else set keys are hashed with the seed. Fails only when out of memory.
pub(crate) fn empty_series(
    alloc: Global,
    keys: &[KeyFacts],
    numbered: &NumberedStream,
    seed: u64,
) -> Result<StreamSeries, AllocError>
    requires { IsTrue numbered.now.by_product → IsDense keys.now numbered.now.stream }
    ensures stands { IfOk result (λ table.
        ⟦<StreamSeries as Table>⟧.stands table numbered.now.stream []) }
    ensures takes { IfOk result (λ table. (set : List ℕ) → is_full_set keys.now set ≡ true
        → ⟦<StreamSeries as Table>⟧.takes table set) }
    ensures room { IfOk result (λ table. IsTrue numbered.now.by_product
        → ⟦<StreamSeries as Table>⟧.has_room table) }
{
    if numbered.by_product {
        let table = dense_table(alloc, keys, &numbered.stream)?;
        Ok(Either::Right(table))
    } else {
        let table = SeriesTable::with_seed(alloc, &numbered.stream, seed)?;
        Ok(Either::Left(table))
    }
}
