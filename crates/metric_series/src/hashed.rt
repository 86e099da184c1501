//! A table of series whose values are aggregated alike, each found by the hash of its set key.
ghost use Rattle.std.specs.Prelude.{◌≡◌, ℤ, true, List, [], ◌++◌, None, Some, OnOk, OnErr, IfOk, IfSome, is_some};
ghost use Rattle.std.specs.Option.{option_to_list};
ghost use Rattle.std.specs.Map.{keys_of, lookup};
ghost use Rattle.std.specs.Str.{bytes_eq};
ghost use Rattle.metric_history.specs.Aggregations.{stream_aggregation};
ghost use Rattle.metric_history.specs.declared.entry.Entry.{Entry};
ghost use Rattle.metric_history.specs.Points.{ascending as in_order, overflow as overflow_of};
ghost use Rattle.metric_views.specs.declared.stream.Stream.{Stream};
ghost use Rattle.metric_combinations.specs.Restrictions.{restricted};
ghost use Rattle.metric_history.specs.Series.{has};
ghost use Rattle.metric_series.specs.Calls.{JudgesSeries, ReportsPoint, point_of as point_by};
ghost use Rattle.metric_series.specs.Ready.{AddsAt, AddsRest, FitsAt, FitsRest, IsPlace, Prepares, PutsEmpty};
ghost use Rattle.metric_series.specs.Tables.{StandsTable};

use crate::fault::SeriesFault;
use crate::kept::KeptKeys;
use crate::key::SeriesKey;
use crate::place::Place;
use crate::seeded::Seeded;
use crate::table::Table;
use indexmap::IndexMap;
use metric_aggregate::Aggregate;
use metric_base::{Few, Shared};
use metric_contents::SetKey;
use metric_history::Point;
use std::alloc::{AllocError, Global};
use std::marker::Model;

/// The series of a stream whose values are aggregated by `A`. A clause sees the flags of the kept keys, the
/// cardinality limit, what aggregates are made of, the aggregates of the held series in the order in which they came
/// first, and the aggregate of the overflow series.
pub struct TableOf<A: Aggregate> {
    alloc: Global,
    kept: KeptKeys,
    limit: u32,
    parameters: A::Parameters,
    series: IndexMap<SeriesKey, A, Seeded>,
    // Made when the first value falls there: most tables never need one.
    overflow: Option<A>,
}

impl<A: Aggregate> Drop for TableOf<A> {
    // A call of its own, so that what owns a table does not carry the steps of dropping each part.
    fn drop(self) {
        let TableOf {
            alloc: _,
            kept: _kept,
            limit: _,
            parameters: _parameters,
            series: _series,
            overflow: _overflow,
        } = self;
    }
}

impl<A: Aggregate> Model for TableOf<A> {
    ghost use Rattle.metric_series.specs.Tables.{TableValue};

    ghost Value = { TableValue A A.Parameters };

    ghost view = { λ t. record {
      kept = t.kept;
      limit = t.limit;
      parameters = t.parameters;
      series = t.series.entries;
      overflow = t.overflow;
    } };
}

impl<A: Aggregate> TableOf<A> {
    /// A table of no series, where the keys with these flags are kept and so many series are held. Aggregates are
    /// made of the parameters. Keys are hashed with the seed.
    pub(crate) fn new(
        alloc: Global,
        seed: u64,
        kept: Shared<Few<bool, 8>>,
        limit: u32,
        parameters: A::Parameters,
    ) -> TableOf<A>
        ensures { (s : Stream) → kept ≡ s.kept → limit ≡ s.limit
            → A.aggregation_of parameters ≡ stream_aggregation s
            → StandsTable A.Aggregate result s [] }
    {
        TableOf {
            alloc,
            kept: KeptKeys::new(kept),
            limit,
            parameters,
            series: IndexMap::with_hasher(alloc, Seeded::new(seed)),
            overflow: None,
        }
    }

    // The key of the series of a set.
    #[inline(always)]
    fn key(&self, set: &SetKey) -> SeriesKey
        ensures { result ≡ restricted self.now.kept set.now }
    {
        SeriesKey::new(self.kept.restrict(set))
    }

    // Where a value of a series falls; none where the series there would leave its range with it.
    #[inline(always)]
    fn find(&self, key: &SeriesKey, value: i64) -> Option<Place>
        ensures in_range { JudgesSeries (StandsTable A.Aggregate self.now) key.now value
            (is_some result) }
        ensures place { IfSome result (IsPlace A.Aggregate self.now key.now value) }
    {
        if let Some((index, _, aggregate)) = self.series.get_full(key) {
            return fitting(aggregate, value, Place::Held(index));
        }
        let count = self.series.len();
        if count < self.limit as usize {
            return Some(Place::New(count));
        }
        match &self.overflow {
            Some(overflow) => fitting(overflow, value, Place::Overflow),
            None => Some(Place::NewOverflow),
        }
    }

    // Puts in what a value at a place needs.
    #[inline(always)]
    fn prepare(&mut self, key: SeriesKey, place: Place) -> Result<(), AllocError>
        requires { (value : ℤ) × IsPlace A.Aggregate self.old key value place }
        ensures ok { OnOk result (Prepares A.Aggregate self.old self.new key place) }
        ensures err { OnErr result (self.new ≡ self.old) }
    {
        match place {
            Place::New(_) => put_empty(&mut self.series, key, self.alloc, &self.parameters),
            Place::NewOverflow => {
                let empty = A::with_parameters(self.alloc, &self.parameters)?;
                self.overflow = Some(empty);
                Ok(())
            }
            Place::Held(_) | Place::Overflow => Ok(()),
        }
    }

    // The point of a held series; none where its aggregate is empty.
    #[inline(always)]
    fn point(&self, alloc: Global, key: &SeriesKey) -> Result<Option<Point>, AllocError>
        requires { has (keys_of self.now.series) key.now ≡ true }
        ensures { IfOk result (ReportsPoint (StandsTable A.Aggregate self.now) key.now) }
    {
        let aggregate = self.series.get(key).unwrap();
        point_of(alloc, Some(key.set()), aggregate)
    }

    // The overflow point; none where no value fell into the overflow series.
    fn overflow_point(&self, alloc: Global) -> Result<Option<Point>, AllocError>
        ensures { IfOk result (λ point. (s : Stream) (window : List Entry)
            → StandsTable A.Aggregate self.now s window
            → option_to_list point ≡ overflow_of s window) }
    {
        match &self.overflow {
            Some(overflow) => point_of(alloc, None, overflow),
            None => Ok(None),
        }
    }
}

impl<A: Aggregate> Table for TableOf<A> {
    ghost use Rattle.metric_series.specs.Ready.{IsReadyTable};
    ghost use Rattle.metric_series.specs.Tables.{TakesAny};

    ghost stands = { StandsTable A.Aggregate };

    ghost takes = { TakesAny };

    ghost has_room = { λ _. ⊥ };

    ghost is_ready = { IsReadyTable A.Aggregate };

    fn fits(&self, set: &SetKey, value: i64) -> bool {
        self.find(&self.key(set), value).is_some()
    }

    #[inline(always)]
    fn ready(&mut self, set: &SetKey, value: i64) -> Result<Place, SeriesFault> {
        let key = self.key(set);
        let place = self.find(&key, value).ok_or(SeriesFault::SumRange)?;
        self.prepare(key, place)?;
        Ok(place)
    }

    #[inline(always)]
    fn put(&mut self, place: Place, value: i64) {
        match place {
            Place::Held(index) => add_at(&mut self.series, index, value),
            Place::New(index) => add_at(&mut self.series, index, value),
            Place::Overflow => add_rest(&mut self.overflow, value),
            Place::NewOverflow => add_rest(&mut self.overflow, value),
        }
    }

    fn unready(&mut self, place: Place) {
        match place {
            Place::New(_) => {
                self.series.pop();
            }
            Place::NewOverflow => self.overflow = None,
            Place::Held(_) | Place::Overflow => {}
        }
    }

    fn reset(&mut self) {
        self.series.clear();
        self.overflow = None;
    }

    fn points(&self, alloc: Global) -> Result<Vec<Point>, AllocError> {
        let keys = ascending(alloc, &self.series)?;
        let mut points = Vec::with_capacity(alloc, keys.len() + 1)?;
        for key in &keys {
            push_point(&mut points, self.point(alloc, key)?)?;
        }
        push_point(&mut points, self.overflow_point(alloc)?)?;
        Ok(points)
    }
}

// The keys of series in ascending order.
fn ascending<A: Aggregate>(
    alloc: Global,
    series: &IndexMap<SeriesKey, A, Seeded>,
) -> Result<Vec<SeriesKey>, AllocError>
    ensures { IfOk result (λ keys. keys.items ≡ in_order (keys_of series.now.entries)) }
{
    let mut keys: Vec<SeriesKey> = series.keys().copied().collect(alloc)?;
    keys.sort()?;
    Ok(keys)
}

// The point that an aggregate gives; none where it is empty.
#[inline(always)]
fn point_of<A: Aggregate>(
    alloc: Global,
    set: Option<SetKey>,
    aggregate: &A,
) -> Result<Option<Point>, AllocError>
    ensures { IfOk result (λ point. (added : List ℤ) → A.stands aggregate.now added
        → point ≡ point_by (A.aggregation aggregate.now) set added) }
{
    if aggregate.is_empty() {
        return Ok(None);
    }
    let value = aggregate.read(alloc)?;
    Ok(Some(Point { set, value }))
}

// Puts a point last, where there is one.
#[inline(always)]
fn push_point(points: &mut Vec<Point>, point: Option<Point>) -> Result<(), AllocError>
    ensures { OnOk result (points.new.items ≡ points.old.items ++ option_to_list point) }
{
    if let Some(point) = point {
        points.push(point)?;
    }
    Ok(())
}

// The place, where the aggregate there stays in range with the value.
fn fitting<A: Aggregate>(aggregate: &A, value: i64, place: Place) -> Option<Place>
    ensures in_range { A.fits aggregate.now value ≡ is_some result }
    ensures place { IfSome result (λ found. found ≡ place) }
{
    if aggregate.fits(value) {
        Some(place)
    } else {
        None
    }
}

// Puts an empty aggregate last, of a series that is not there. Few recordings come here, so it stands apart from what
// all do.
#[inline(never)]
fn put_empty<A: Aggregate>(
    series: &mut IndexMap<SeriesKey, A, Seeded>,
    key: SeriesKey,
    alloc: Global,
    parameters: &A::Parameters,
) -> Result<(), AllocError>
    requires { lookup (bytes_eq key) series.old.entries ≡ None }
    ensures ok { OnOk result
        (PutsEmpty A.Aggregate series.old.entries series.new.entries key parameters.now) }
    ensures err { OnErr result (series.new.entries ≡ series.old.entries) }
{
    let empty = A::with_parameters(alloc, parameters)?;
    series.insert(key, empty)?;
    Ok(())
}

// Adds a value to the overflow series, where it fits.
fn add_rest<A: Aggregate>(overflow: &mut Option<A>, value: i64)
    requires { FitsRest A.Aggregate overflow.old value }
    ensures { AddsRest A.Aggregate overflow.old overflow.new value }
{
    overflow.as_mut().unwrap().add(value);
}

// Adds a value to the series at an index, where it fits.
fn add_at<A: Aggregate>(series: &mut IndexMap<SeriesKey, A, Seeded>, index: usize, value: i64)
    requires { FitsAt A.Aggregate series.old.entries index value }
    ensures { AddsAt A.Aggregate series.old.entries series.new.entries index value }
{
    let aggregate = series.get_index_mut(index).unwrap();
    aggregate.add(value);
}
