//! Whether a certificate has the bounds of each instrument.
ghost use Rattle.std.specs.Prelude.{◌≡◌, ◌<◌, length, map};
ghost use Rattle.std.specs.Result.{result_err};
ghost use Rattle.metric_bounds.specs.Amounts.{total_of};
ghost use Rattle.metric_bounds.specs.First.{Reports};
ghost use Rattle.metric_bounds.specs.Sums.{is_summed};
ghost use Rattle.metric_resolve.specs.Applying.{all_instruments};
ghost use Rattle.metric_check.specs.Findings.{BoundFinds, BoundsFind, of_bound, of_none};
ghost use Rattle.metric_check.specs.Paired.{Told};

use crate::fault::{ClaimFault, ClaimPlace};
use crate::numbers::check_numbers;
use metric_bounds::{summed, totals};
use metric_catalogue::Catalogue;
use metric_cert::InstrumentBound;
use metric_plan::CheckFault;
use metric_views::Stream;
use std::alloc::Global;

// The first fault of the bounds. They stand by instrument.
pub(crate) fn check_bounds(
    alloc: Global,
    catalogue: &Catalogue,
    streams: &[Stream],
    bounds: &[InstrumentBound],
) -> Result<(), ClaimFault>
    ensures { Reports (of_none CheckFault.Memory)
        (BoundsFind catalogue.now streams.now bounds.now) result }
{
    let instruments = catalogue.instruments();
    let totals = totals(alloc, catalogue)?;
    let summed = summed(alloc, streams, instruments.len())?;
    check_all(
        catalogue,
        streams,
        totals.as_slice(),
        summed.as_slice(),
        bounds,
    )
}

// The same with the total of each instrument, and whether some stream keeps its sum.
fn check_all(
    catalogue: &Catalogue,
    streams: &[Stream],
    totals: &[u128],
    summed: &[bool],
    bounds: &[InstrumentBound],
) -> Result<(), ClaimFault>
    requires totals { totals.now ≡ map (total_of catalogue.now) (all_instruments catalogue.now) }
    requires summed { summed.now ≡ map (is_summed streams.now) (all_instruments catalogue.now) }
    ensures { BoundsFind catalogue.now streams.now bounds.now (result_err result) }
{
    let instruments = catalogue.instruments();
    for (number, bound) in bounds.iter().enumerate() {
        if number >= instruments.len() {
            return Err(at_bound(number, CheckFault::CountRange));
        }
        check_bound_at(
            catalogue,
            streams,
            number as u32,
            totals[number],
            summed[number],
            bound,
        )?;
    }
    if bounds.len() < instruments.len() {
        return Err(at_bound(bounds.len(), CheckFault::CountRange));
    }
    Ok(())
}

// A fault of the bound of a number.
fn at_bound(number: usize, fault: CheckFault) -> ClaimFault
    ensures { result ≡ of_bound number fault }
{
    ClaimFault {
        fault,
        place: ClaimPlace::Bound(number),
    }
}

// The first fault of a bound where that of the instrument of this number is due, told with the number.
fn check_bound_at(
    catalogue: &Catalogue,
    streams: &[Stream],
    number: u32,
    total: u128,
    summed: bool,
    bound: &InstrumentBound,
) -> Result<(), ClaimFault>
    requires known { number < length catalogue.now.instruments }
    requires total { total ≡ total_of catalogue.now number }
    requires summed { summed ≡ is_summed streams.now number }
    ensures { Told (of_bound number) (BoundFinds catalogue.now streams.now number bound.now)
        (result_err result) }
{
    match check_bound(catalogue, streams, number, total, summed, bound) {
        Ok(()) => Ok(()),
        Err(fault) => Err(at_bound(number as usize, fault)),
    }
}

// The first fault of a bound where that of the instrument of this number is due.
fn check_bound(
    catalogue: &Catalogue,
    streams: &[Stream],
    number: u32,
    total: u128,
    summed: bool,
    bound: &InstrumentBound,
) -> Result<(), CheckFault>
    requires known { number < length catalogue.now.instruments }
    requires total { total ≡ total_of catalogue.now number }
    requires summed { summed ≡ is_summed streams.now number }
    ensures { BoundFinds catalogue.now streams.now number bound.now (result_err result) }
{
    // Only the contract speaks of the streams.
    let _ = streams;
    let instrument = &catalogue.instruments()[number as usize];
    check_numbers(number, total, instrument, summed, bound)
}
