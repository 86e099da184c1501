//! The numbers that budgets, a spare budget and a range bound.
ghost use Rattle.std.specs.Prelude.{◌≡◌, ◌<◌, ◌≤◌, ◌+◌, ◌^◌, ◌*◌, ℕ, pos, ◌≤ℤ◌, All, AllPairs, IfOk, find, length, map, slice_index, sum_by, ◌≢◌, ◌↔◌, FitsSigned, IsTrue};
ghost use Rattle.std.specs.Int.{w64};
ghost use Rattle.metric_catalogue.specs.Sound.{IsSoundBudget, IsSoundRecorder};
ghost use Rattle.metric_resolve.specs.Applying.{all_instruments};
ghost use Rattle.metric_contents.specs.Budgets.{amount_in, amount_of};
ghost use Rattle.metric_contents.specs.Budgets.{is_budget};
ghost use Rattle.metric_bounds.specs.Amounts.{amount_with, high_with, low_with, total_of};

use metric_base::Items;
use metric_catalogue::Catalogue;
use metric_contents::{Budget, Instrument, Recorder};
use std::alloc::{AllocError, Global};

/// How often an instrument may be recorded: the sum of its budgets over all recorders, and its spare budget. It may
/// be above the greatest `u64`.
#[tactic(auto, unfolding(crate::specs::Amounts::total_of))]
pub fn total(catalogue: &Catalogue, instrument: u32) -> u128
    ensures { result ≡ total_of catalogue.now instrument }
{
    let mut total = u128::from(catalogue.spare(instrument));
    for recorder in catalogue.recorders() {
        total += u128::from(recorder.budget(instrument));
    }
    total
}

/// How often each instrument may be recorded, in order, by one walk over all budgets.
pub fn totals(alloc: Global, catalogue: &Catalogue) -> Result<Items<u128>, AllocError>
    ensures { IfOk result (λ totals. totals
        ≡ map (total_of catalogue.now) (all_instruments catalogue.now)) }
{
    let mut totals = spares_of(alloc, catalogue.instruments())?;
    add_recorders(totals.as_mut_slice(), catalogue.recorders());
    Ok(Items::from_vec(totals))
}

// The spare budget of each instrument, in order.
fn spares_of(alloc: Global, instruments: &[Instrument]) -> Result<Vec<u128>, AllocError>
    ensures { IfOk result (λ spares. spares.items ≡ map (λ i. i.spare) instruments.now) }
{
    let mut spares = Vec::new(alloc);
    for instrument in instruments {
        spares.push(u128::from(instrument.spare))?;
    }
    Ok(spares)
}

// Adds the budgets of all recorders to totals, which are below 2^63.
fn add_recorders(totals: &mut [u128], recorders: &[Recorder])
    requires few { length recorders.now ≤ 64 }
    requires known { All (IsSoundRecorder (length totals.old)) recorders.now }
    requires low { (i : ℕ) → slice_index totals.old i < 2 ^ 63 }
    ensures length { length totals.new ≡ length totals.old }
    ensures added { (i : ℕ) → i < length totals.old → slice_index totals.new i
        ≡ sum_by (λ recorder. amount_of recorder i) recorders.now + slice_index totals.old i }
{
    for recorder in recorders {
        add_budgets(totals, recorder.budgets.as_slice());
    }
}

// Adds the budgets of a recorder, at most one for an instrument, to the totals of the instruments.
fn add_budgets(totals: &mut [u128], budgets: &[Budget])
    requires known { All (IsSoundBudget (length totals.old)) budgets.now }
    requires apart { AllPairs (λ b other. b.instrument ≢ other.instrument) budgets.now }
    requires room { (i : ℕ) → i < length totals.old → slice_index totals.old i ≤ 2 ^ 127 }
    ensures length { length totals.new ≡ length totals.old }
    ensures added { (i : ℕ) → i < length totals.old
        → slice_index totals.new i
        ≡ slice_index totals.old i + amount_in (find (is_budget i) budgets.now) }
{
    for budget in budgets {
        totals[budget.instrument as usize] += u128::from(budget.amount);
    }
}

/// How far apart two sums of at most so many values of a range may be.
pub fn amount(total: u64, lo: i64, hi: i64) -> u128
    requires { lo ≤ℤ hi }
    ensures { pos result ≡ amount_with total lo hi }
{
    let width = (i128::from(hi) - i128::from(lo)) as u128;
    u128::from(total) * width
}

/// The least sum of at most so many values of a range, which is not above 0.
pub fn low(total: u64, lo: i64) -> i128
    ensures { result ≡ low_with total lo }
{
    i128::from(total) * i128::from(lo.min(0))
}

/// The greatest sum of at most so many values of a range, which is not below 0.
pub fn high(total: u64, hi: i64) -> i128
    ensures { result ≡ high_with total hi }
{
    i128::from(total) * i128::from(hi.max(0))
}

/// Whether a sum is a 64-bit number.
pub fn is_i64(sum: i128) -> bool
    ensures { IsTrue result ↔ FitsSigned w64 sum }
{
    i64::try_from(sum).is_ok()
}
