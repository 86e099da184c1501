//! Whether the bounds of one instrument are its own, and within 64 bits.
ghost use Rattle.std.specs.Prelude.{◌≡◌, ◌↔◌, ◌≤ℤ◌, IsTrue};
ghost use Rattle.std.specs.Result.{result_err};
ghost use Rattle.metric_check.specs.Findings.{IsAmountOf, IsCountOf, IsHighOf, IsLowOf, NumbersFind};

use metric_bounds::{amount, high, is_i64, low};
use metric_cert::InstrumentBound;
use metric_contents::Instrument;
use metric_plan::CheckFault;

// The first fault of a bound where that of this instrument is due, which may be recorded so often, and of
// which some stream keeps a sum, or none does.
pub(crate) fn check_numbers(
    number: u32,
    total: u128,
    instrument: &Instrument,
    summed: bool,
    bound: &InstrumentBound,
) -> Result<(), CheckFault>
    requires { instrument.now.lo ≤ℤ instrument.now.hi }
    ensures { NumbersFind number total instrument.now (IsTrue summed) bound.now
        (result_err result) }
{
    if !is_count(number, total, bound) {
        return Err(CheckFault::CountRange);
    }
    if !is_amount(instrument, bound) {
        return Err(CheckFault::AmountRange);
    }
    if !is_low(instrument, summed, bound) {
        return Err(CheckFault::SumLow);
    }
    if !is_high(instrument, summed, bound) {
        return Err(CheckFault::SumHigh);
    }
    Ok(())
}

// Whether the bound is in its place and has this total.
fn is_count(number: u32, total: u128, bound: &InstrumentBound) -> bool
    ensures { IsTrue result ↔ IsCountOf number total bound.now }
{
    bound.instrument == number && u128::from(bound.total) == total
}

// Whether the bound has how far apart sums may be, for its own total.
fn is_amount(instrument: &Instrument, bound: &InstrumentBound) -> bool
    requires { instrument.now.lo ≤ℤ instrument.now.hi }
    ensures { IsTrue result ↔ IsAmountOf bound.now.total instrument.now bound.now }
{
    u128::from(bound.amount) == amount(bound.total, instrument.lo, instrument.hi)
}

// Whether the bound has the least sum, for its own total, and that is an i64 where it is kept.
fn is_low(instrument: &Instrument, summed: bool, bound: &InstrumentBound) -> bool
    ensures { IsTrue result
        ↔ IsLowOf bound.now.total instrument.now (IsTrue summed) bound.now }
{
    let least = low(bound.total, instrument.lo);
    bound.low == least && (!summed || is_i64(least))
}

// Whether the bound has the greatest sum, for its own total, and that is an i64 where it is kept.
fn is_high(instrument: &Instrument, summed: bool, bound: &InstrumentBound) -> bool
    ensures { IsTrue result
        ↔ IsHighOf bound.now.total instrument.now (IsTrue summed) bound.now }
{
    let greatest = high(bound.total, instrument.hi);
    bound.high == greatest && (!summed || is_i64(greatest))
}
