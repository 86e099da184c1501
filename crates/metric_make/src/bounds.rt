//! The bounds of all instruments.
ghost use Rattle.std.specs.Prelude.{◌≡◌, ◌≤ℤ◌, pos, IfOk, IsTrue, map};
ghost use Rattle.std.specs.List.{AllZip};
ghost use Rattle.std.specs.Result.{result_err};
ghost use Rattle.metric_resolve.specs.Applying.{all_instruments};
ghost use Rattle.metric_bounds.specs.Amounts.{amount_with, high_with, low_with, total_of};
ghost use Rattle.metric_bounds.specs.First.{Asks, Reports};
ghost use Rattle.metric_bounds.specs.Safe.{AmountsFit, CountsFit, HighFits, LowFits};
ghost use Rattle.metric_make.specs.Finding.{InstrumentsFind, OwnFinds};
ghost use Rattle.metric_make.specs.Making.{HasNumbers};
ghost use Rattle.metric_cert.specs.Valid.{IsBoundAt};

use crate::fault::MakeFault;
use metric_base::Items;
use metric_bounds::{amount, high, is_i64, low, summed, totals};
use metric_catalogue::Catalogue;
use metric_cert::InstrumentBound;
use metric_contents::Instrument;
use metric_views::Stream;
use std::alloc::Global;

// The bounds of each instrument, or the first fault of an instrument.
pub(crate) fn bounds_of(
    alloc: Global,
    catalogue: &Catalogue,
    streams: &[Stream],
) -> Result<Items<InstrumentBound>, MakeFault>
    ensures bounds { IfOk result
        (AllZip (IsBoundAt catalogue.now streams.now) (all_instruments catalogue.now)) }
    ensures found { Reports MakeFault.Memory
        (InstrumentsFind catalogue.now streams.now) result }
{
    let totals = totals(alloc, catalogue)?;
    bounds_with(alloc, catalogue, streams, totals.as_slice())
}

// The same for instruments that may be recorded so often.
fn bounds_with(
    alloc: Global,
    catalogue: &Catalogue,
    streams: &[Stream],
    totals: &[u128],
) -> Result<Items<InstrumentBound>, MakeFault>
    requires { totals.now ≡ map (total_of catalogue.now) (all_instruments catalogue.now) }
    ensures bounds { IfOk result
        (AllZip (IsBoundAt catalogue.now streams.now) (all_instruments catalogue.now)) }
    ensures found { Reports MakeFault.Memory
        (InstrumentsFind catalogue.now streams.now) result }
{
    let summed = summed(alloc, streams, catalogue.instruments().len())?;
    let mut bounds = Items::new(alloc);
    for (number, instrument) in catalogue.instruments().iter().enumerate() {
        let total = totals[number];
        let summed = summed.as_slice()[number];
        let bound = bound_of(number as u32, instrument, total, summed)?;
        bounds.push(bound)?;
    }
    Ok(bounds)
}

// The bounds of an instrument, which may be recorded so often, and of which a stream keeps a sum or not.
fn bound_of(
    number: u32,
    instrument: &Instrument,
    total: u128,
    summed: bool,
) -> Result<InstrumentBound, MakeFault>
    requires { instrument.now.lo ≤ℤ instrument.now.hi }
    ensures bound { IfOk result (HasNumbers number total instrument.now) }
    ensures found { OwnFinds number total (IsTrue summed) instrument.now (result_err result) }
{
    let total = count_of(number, total)?;
    let amount = amount_of(number, total, instrument)?;
    let low = low_of(number, total, instrument, summed)?;
    let high = high_of(number, total, instrument, summed)?;
    Ok(InstrumentBound {
        instrument: number,
        total,
        amount,
        low,
        high,
    })
}

fn count_of(number: u32, total: u128) -> Result<u64, MakeFault>
    ensures count { IfOk result (λ count. count ≡ total) }
    ensures found { Asks (CountsFit total) (MakeFault.CountRange number) (result_err result) }
{
    if total < 1 << 64 {
        Ok(total as u64)
    } else {
        Err(MakeFault::CountRange { instrument: number })
    }
}

fn amount_of(number: u32, total: u64, instrument: &Instrument) -> Result<u64, MakeFault>
    requires { instrument.now.lo ≤ℤ instrument.now.hi }
    ensures amount { IfOk result
        (λ amount. pos amount ≡ amount_with total instrument.now.lo instrument.now.hi) }
    ensures found { Asks (AmountsFit total instrument.now) (MakeFault.AmountRange number)
        (result_err result) }
{
    let amount = amount(total, instrument.lo, instrument.hi);
    if amount < 1 << 64 {
        Ok(amount as u64)
    } else {
        Err(MakeFault::AmountRange { instrument: number })
    }
}

fn low_of(number: u32, total: u64, instrument: &Instrument, summed: bool) -> Result<i128, MakeFault>
    ensures low { IfOk result (λ low. low ≡ low_with total instrument.now.lo) }
    ensures found { Asks (IsTrue summed → LowFits total instrument.now) (MakeFault.SumLow number)
        (result_err result) }
{
    let low = low(total, instrument.lo);
    if summed && !is_i64(low) {
        Err(MakeFault::SumLow { instrument: number })
    } else {
        Ok(low)
    }
}

fn high_of(
    number: u32,
    total: u64,
    instrument: &Instrument,
    summed: bool,
) -> Result<i128, MakeFault>
    ensures high { IfOk result (λ high. high ≡ high_with total instrument.now.hi) }
    ensures found { Asks (IsTrue summed → HighFits total instrument.now) (MakeFault.SumHigh number)
        (result_err result) }
{
    let high = high(total, instrument.hi);
    if summed && !is_i64(high) {
        Err(MakeFault::SumHigh { instrument: number })
    } else {
        Ok(high)
    }
}
