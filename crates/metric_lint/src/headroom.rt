//! How often each instrument may be recorded.
ghost use Rattle.std.specs.Prelude.{◌≡◌, ◌≤◌, ◌<◌, ◌==◌, ℕ, IfOk, IsTrue, OnOk, fold, if◌then◌else◌, length, map, ◌≤ℤ◌, slice_index_or};
ghost use Rattle.std.specs.List.{AllZip, enumerate_from};
ghost use Rattle.metric_resolve.specs.Applying.{all_instruments};
ghost use Rattle.metric_resolve.specs.Resolved.{streams_of};
ghost use Rattle.metric_bounds.specs.Amounts.{total_of};
ghost use Rattle.metric_bounds.specs.Sets.{sets_of};
ghost use Rattle.metric_bounds.specs.Safe.{AmountsFit, HighFits, LowFits};
ghost use Rattle.metric_lint.specs.declared.headroom.Headroom.{Headroom as Room};
ghost use Rattle.metric_lint.specs.Edges.{IsEdge, IsMost};
ghost use Rattle.metric_lint.specs.Headrooms.{IsHeadroom, IsOwnHeadroom, most_by_series, tightened, tightened_at};
ghost use Rattle.metric_lint.specs.Limits.{OwnFinds};

use crate::limit::Limit;
use metric_base::Items;
use metric_bounds::{listed, product, summed, totals};
use metric_catalogue::Catalogue;
use metric_contents::{Instrument, above, below, most_within};
use metric_resolve::resolve_streams;
use metric_views::{Config, Stream};
use std::alloc::{AllocError, Global};

/// How often an instrument may be recorded, identities apart.
#[derive(Clone, Copy, Debug, PartialEq, Eq, Drop)]
pub struct Headroom {
    /// The sum of its budgets over all recorders, and its spare budget.
    pub total: u128,
    /// The greatest such sum that is safe, where all else stays as it is.
    pub most: u64,
    /// What is no longer safe with one recording more.
    pub limit: Limit,
}

/// The headroom of each instrument, in order: the greatest sum of budgets and spare at which its part of safety holds,
/// and the first part that fails with one recording more. Two streams of one identity are left out of account. Fails
/// only when out of memory.
pub fn headrooms(
    alloc: Global,
    catalogue: &Catalogue,
    config: &Config,
) -> Result<Items<Headroom>, AllocError>
    ensures { IfOk result
        (AllZip (IsHeadroom catalogue.now (streams_of catalogue.now config.now))
        (all_instruments catalogue.now)) }
{
    let streams = resolve_streams(alloc, catalogue, config)?;
    headrooms_of(alloc, catalogue, streams.as_slice())
}

// The same for the streams of a config.
pub(crate) fn headrooms_of(
    alloc: Global,
    catalogue: &Catalogue,
    streams: &[Stream],
) -> Result<Items<Headroom>, AllocError>
    requires { length streams.now ≤ 2097152 }
    ensures { IfOk result
        (AllZip (IsHeadroom catalogue.now streams.now) (all_instruments catalogue.now)) }
{
    let own = own_headrooms(alloc, catalogue, streams)?;
    let mut all = own.into_vec();
    tighten_all(alloc, all.as_mut_slice(), catalogue, streams)?;
    Ok(Items::from_vec(all))
}

// The headroom of each instrument by its own numbers.
fn own_headrooms(
    alloc: Global,
    catalogue: &Catalogue,
    streams: &[Stream],
) -> Result<Items<Headroom>, AllocError>
    ensures length { IfOk result (λ all. length all ≡ length catalogue.now.instruments) }
    ensures each { IfOk result (λ all. (i : ℕ) (d : Room) → i < length catalogue.now.instruments
        → IsOwnHeadroom catalogue.now streams.now i (slice_index_or all i d)) }
{
    let totals = totals(alloc, catalogue)?;
    headrooms_with(alloc, catalogue, streams, totals.as_slice())
}

// The same for instruments that may be recorded so often.
fn headrooms_with(
    alloc: Global,
    catalogue: &Catalogue,
    streams: &[Stream],
    totals: &[u128],
) -> Result<Items<Headroom>, AllocError>
    requires { totals.now ≡ map (total_of catalogue.now) (all_instruments catalogue.now) }
    ensures length { IfOk result (λ all. length all ≡ length catalogue.now.instruments) }
    ensures each { IfOk result (λ all. (i : ℕ) (d : Room) → i < length catalogue.now.instruments
        → IsOwnHeadroom catalogue.now streams.now i (slice_index_or all i d)) }
{
    let summed = summed(alloc, streams, catalogue.instruments().len())?;
    let mut all = Items::new(alloc);
    for (number, instrument) in catalogue.instruments().iter().enumerate() {
        let total = totals[number];
        let is_summed = summed.as_slice()[number];
        let headroom = headroom_of(total, instrument, is_summed);
        all.push(headroom)?;
    }
    Ok(all)
}

// The headroom of an instrument by its own numbers.
fn headroom_of(total: u128, instrument: &Instrument, is_summed: bool) -> Headroom
    requires { instrument.now.lo ≤ℤ instrument.now.hi }
    ensures total { result.total ≡ total }
    ensures edge { IsEdge (λ count. OwnFinds count (IsTrue is_summed) instrument.now)
        result.most result.limit }
{
    let mut headroom = Headroom {
        total,
        most: u64::MAX,
        limit: Limit::Count,
    };
    headroom.tighten(most_by_amount(instrument), Limit::Amount);
    headroom.tighten(most_by_low(instrument, is_summed), Limit::SumLow);
    headroom.tighten(most_by_high(instrument, is_summed), Limit::SumHigh);
    headroom
}

impl Headroom {
    // Lowers the headroom to a number, where there is one below it.
    fn tighten(&mut self, most: Option<u64>, limit: Limit)
        ensures { self.new ≡ tightened self.old most limit }
    {
        if let Some(most) = most {
            if most < self.most {
                self.most = most;
                self.limit = limit;
            }
        }
    }
}

// At how many recordings no two sums are 2^64 or more apart.
fn most_by_amount(instrument: &Instrument) -> Option<u64>
    requires { instrument.now.lo ≤ℤ instrument.now.hi }
    ensures { IsMost (λ count. AmountsFit count instrument.now) result }
{
    most_within(u64::MAX, instrument.hi.abs_diff(instrument.lo))
}

// At how many recordings no sum is below the least i64, where sums are kept.
fn most_by_low(instrument: &Instrument, is_summed: bool) -> Option<u64>
    ensures { IsMost (λ count. IsTrue is_summed → LowFits count instrument.now) result }
{
    if !is_summed {
        return None;
    }
    most_within(1 << 63, below(instrument.lo))
}

// At how many recordings no sum is above the greatest i64, where sums are kept.
fn most_by_high(instrument: &Instrument, is_summed: bool) -> Option<u64>
    ensures { IsMost (λ count. IsTrue is_summed → HighFits count instrument.now) result }
{
    if !is_summed {
        return None;
    }
    most_within((1 << 63) - 1, above(instrument.hi))
}

// Lowers the headrooms of the instruments to what the limits of their streams give.
fn tighten_all(
    alloc: Global,
    all: &mut [Headroom],
    catalogue: &Catalogue,
    streams: &[Stream],
) -> Result<(), AllocError>
    requires { length streams.now ≤ 2097152 }
    ensures length { length all.new ≡ length all.old }
    ensures tightened { OnOk result ((i : ℕ) (d : Room) → i < length all.old
        → slice_index_or all.new i d ≡ fold (tightened_at catalogue.now i)
        (slice_index_or all.old i d) (enumerate_from 0 streams.now)) }
{
    for (number, stream) in streams.iter().enumerate() {
        let most = most_by_series(alloc, catalogue, stream)?;
        let number = number as u32;
        tighten_one(
            all,
            stream.instrument,
            most,
            Limit::Series { stream: number },
        );
    }
    Ok(())
}

// Lowers the headroom of the instrument of this number.
fn tighten_one(all: &mut [Headroom], instrument: u32, most: Option<u64>, limit: Limit)
    ensures length { length all.new ≡ length all.old }
    ensures tightened { (i : ℕ) (d : Room) → i < length all.old → slice_index_or all.new i d
        ≡ (if instrument == i then tightened (slice_index_or all.old i d) most limit
        else slice_index_or all.old i d) }
{
    let place = instrument as usize;
    if place < all.len() {
        all[place].tighten(most, limit);
    }
}

// At how many recordings the series of a stream are within its limit.
fn most_by_series(
    alloc: Global,
    catalogue: &Catalogue,
    stream: &Stream,
) -> Result<Option<u64>, AllocError>
    ensures { IfOk result (λ most. most ≡ most_by_series catalogue.now stream.now) }
{
    let sets = sets_of(alloc, catalogue, stream)?;
    if sets > u128::from(stream.limit) {
        Ok(Some(u64::from(stream.limit)))
    } else {
        Ok(None)
    }
}

/// How many distinct sets of the kept keys recordings of a stream may have, and so how many series it may have beside
/// the overflow point: as many as the combinations that its instrument lists leave, else the product of the numbers of
/// values. Fails only when out of memory.
#[tactic(auto, unfolding(metric_bounds::specs::Sets::sets_of))]
pub fn sets_of(alloc: Global, catalogue: &Catalogue, stream: &Stream) -> Result<u128, AllocError>
    ensures { IfOk result (λ count. count ≡ sets_of catalogue.now stream.now) }
{
    match listed(alloc, catalogue, stream)? {
        Some(list) => Ok(list.len() as u128),
        None => Ok(product(catalogue, stream)),
    }
}
