//! A table with a place for each series that there can be, whose values are aggregated alike.
ghost use Rattle.std.specs.Prelude.{◌≡◌, ◌≤◌, ◌<◌, ℕ, ℤ, All, List, [], Some, true, false, count_by, get_or, length, not, IfOk};
ghost use Rattle.metric_aggregate.specs.Value.{value_of};
ghost use Rattle.metric_facts.specs.Facts.{is_full_set};
ghost use Rattle.metric_history.specs.Aggregations.{stream_aggregation};
ghost use Rattle.metric_views.specs.declared.stream.Stream.{Stream};
ghost use Rattle.metric_dense.specs.DenseTables.{AddsAt, IsMadeOf, IsEmptied, JudgesAt, StandsDense};
ghost use Rattle.metric_facts.specs.Products.{product_of};
ghost use Rattle.metric_facts.specs.Ranks.{rank as rank_of};
ghost use Rattle.metric_dense.specs.Ranks.{series_of, IsRanked};

use crate::ranks::Ranks;
use metric_aggregate::Aggregate;
use metric_base::{Few, Shared};
use metric_contents::SetKey;
use metric_facts::KeyFacts;
use metric_history::Point;
use metric_series::{Place, SeriesFault, Table};
use std::alloc::{AllocError, Global};
use std::marker::Model;

// At least 128 bytes of aggregates: behind what recordings write is room that nobody writes, so that what the allocator
// hands out next lies on other lines of cache.
const SPARE: usize = 16;

/// The series of a stream whose values are aggregated by `A`, each found by its rank. A clause sees the flags of
/// the kept keys, the declared keys, and the aggregates in the order of the ranks.
pub struct DenseOf<A: Aggregate> {
    ranks: Ranks,
    aggregates: Vec<A>,
}

impl<A: Aggregate> Drop for DenseOf<A> {
    // A call of its own, so that what owns a table does not carry the steps of dropping each part.
    fn drop(self) {
        let DenseOf {
            ranks: _ranks,
            aggregates: _aggregates,
        } = self;
    }
}

impl<A: Aggregate> Model for DenseOf<A> {
    ghost use Rattle.std.specs.Prelude.{◌≡◌, length};
    ghost use Rattle.metric_dense.specs.DenseTables.{DenseValue};
    ghost use Rattle.metric_facts.specs.Products.{product_of};

    ghost Value = { DenseValue A };

    ghost view = { λ t. record {
      kept = t.ranks.kept;
      keys = t.ranks.keys;
      aggregates = t.aggregates.items;
    } };

    ghost invariant = { λ t. length t.aggregates.items ≡ product_of t.ranks.kept t.ranks.keys };
}

impl<A: Aggregate> DenseOf<A> {
    /// A table of no recordings, of so many keys of which those with the flags are kept. The aggregates of all series
    /// are made of the parameters, so that all memory is taken here. Fails only when out of memory.
    pub(crate) fn new(
        alloc: Global,
        keys: &[KeyFacts],
        kept: Shared<Few<bool, 8>>,
        parameters: &A::Parameters,
    ) -> Result<DenseOf<A>, AllocError>
        requires { IsRanked kept keys.now }
        ensures stands { IfOk result (λ table. (s : Stream) → kept ≡ s.kept
            → product_of kept keys.now ≤ s.limit
            → A.aggregation_of parameters.now ≡ stream_aggregation s
            → StandsDense A.Aggregate table s []) }
        ensures keys { IfOk result (λ table. table.keys ≡ keys.now) }
    {
        let ranks = Ranks::new(alloc, keys, kept)?;
        let aggregates = empty_aggregates(alloc, parameters, ranks.count())?;
        Ok(DenseOf { ranks, aggregates })
    }

    // The rank of a full set, at which there is an aggregate.
    #[tactic(auto, using(metric_facts::specs::Ranks::rank_below))]
    #[inline(always)]
    fn place(&self, set: &SetKey) -> usize
        requires { is_full_set self.now.keys set.now ≡ true }
        ensures rank { result ≡ rank_of self.now.kept self.now.keys set.now }
        ensures within { result < length self.now.aggregates }
    {
        self.ranks.rank(set) as usize
    }

    // How many aggregates are not empty.
    fn used(&self) -> usize
        ensures { result ≡ count_by (λ a. not (A.is_empty a)) self.now.aggregates }
    {
        self.aggregates.iter().filter(|a| !a.is_empty()).count()
    }
}

impl<A: Aggregate> Table for DenseOf<A> {
    ghost use Rattle.metric_dense.specs.DenseTables.{HasAllRoom, IsReadyDense, TakesFull};

    ghost stands = { StandsDense A.Aggregate };

    ghost takes = { TakesFull };

    ghost has_room = { HasAllRoom };

    ghost is_ready = { IsReadyDense A.Aggregate };

    fn fits(&self, set: &SetKey, value: i64) -> bool {
        fits_at(self.aggregates.as_slice(), self.place(set), value)
    }

    #[inline(always)]
    fn ready(&mut self, set: &SetKey, value: i64) -> Result<Place, SeriesFault> {
        let rank = self.place(set);
        if fits_at(self.aggregates.as_slice(), rank, value) {
            Ok(Place::Held(rank))
        } else {
            Err(SeriesFault::SumRange)
        }
    }

    #[inline(always)]
    fn put(&mut self, place: Place, value: i64) {
        if let Place::Held(rank) = place {
            add_at(self.aggregates.as_mut_slice(), rank, value);
        }
    }

    fn unready(&mut self, _place: Place) {}

    fn reset(&mut self) {
        reset_all(self.aggregates.as_mut_slice());
    }

    fn points(&self, alloc: Global) -> Result<Vec<Point>, AllocError> {
        let mut points = Vec::with_capacity(alloc, self.used())?;
        let mut set = self.ranks.first();
        for (_rank, aggregate) in self.aggregates.iter().enumerate() {
            if !aggregate.is_empty() {
                points.push(point(alloc, set, aggregate)?)?;
            }
            self.ranks.step(&mut set);
        }
        Ok(points)
    }
}

// The point of a series.
fn point<A: Aggregate>(alloc: Global, set: SetKey, aggregate: &A) -> Result<Point, AllocError>
    requires { A.is_empty aggregate.now ≡ false }
    ensures { IfOk result (λ point. (added : List ℤ) → A.stands aggregate.now added
        → point ≡ record {
          set = Some set;
          value = value_of (A.aggregation aggregate.now) added;
        }) }
{
    let value = aggregate.read(alloc)?;
    let set = Some(set);
    Ok(Point { set, value })
}

// Whether a value fits the aggregate of a rank.
#[inline(always)]
fn fits_at<A: Aggregate>(aggregates: &[A], rank: usize, value: i64) -> bool
    requires { rank < length aggregates.now }
    ensures { JudgesAt A.Aggregate aggregates.now rank value result }
{
    aggregates[rank].fits(value)
}

// Adds a value to the aggregate of a rank, where it fits.
#[inline(always)]
fn add_at<A: Aggregate>(aggregates: &mut [A], rank: usize, value: i64)
    requires { JudgesAt A.Aggregate aggregates.old rank value true }
    ensures { AddsAt A.Aggregate aggregates.old aggregates.new rank value }
{
    aggregates[rank].add(value);
}

// So many empty aggregates of these parameters.
fn empty_aggregates<A: Aggregate>(
    alloc: Global,
    parameters: &A::Parameters,
    count: usize,
) -> Result<Vec<A>, AllocError>
    ensures count { IfOk result (λ all. length all.items ≡ count) }
    ensures empty { IfOk result (λ all. All (IsMadeOf A.Aggregate parameters.now) all.items) }
{
    let mut all = Vec::with_capacity(alloc, count.saturating_add(SPARE))?;
    for _place in 0..count {
        all.push(A::with_parameters(alloc, parameters)?)?;
    }
    Ok(all)
}

// Forgets the values of each aggregate.
fn reset_all<A: Aggregate>(aggregates: &mut [A])
    ensures { (k : ℕ) (d : A) → k < length aggregates.old
        → IsEmptied A.Aggregate (get_or aggregates.old k d) (get_or aggregates.new k d) }
{
    for aggregate in aggregates.iter_mut() {
        forget(aggregate);
    }
}

// Forgets the values of an aggregate. One that is empty is not written.
fn forget<A: Aggregate>(aggregate: &mut A)
    ensures { IsEmptied A.Aggregate aggregate.old aggregate.new }
{
    if !aggregate.is_empty() {
        aggregate.reset();
    }
}
