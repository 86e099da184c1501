//! What a backend adds up of many processes.
ghost use Rattle.std.specs.Prelude.{◌≡◌, IfSome, IsTrue, None};
ghost use Rattle.wormweekly_commands.specs.Fleets.{Fits};

use metric_bounds::{high, is_i64, low};
use metric_contents::Instrument;
use metric_lint::Limit;

/// What does not fit 64 bits where a backend adds up an instrument of so many recordings, those of all processes
/// together: their count or, where a stream keeps sums, the least or the greatest sum.
pub(crate) fn fleet_limit(count: u128, instrument: &Instrument, is_summed: bool) -> Option<Limit>
    ensures fits { result ≡ None → Fits count (IsTrue is_summed) instrument.now }
    ensures unfit { IfSome result (λ _. Fits count (IsTrue is_summed) instrument.now → ⊥) }
{
    let Ok(count) = u64::try_from(count) else {
        return Some(Limit::Count);
    };
    if is_summed && !is_i64(low(count, instrument.lo)) {
        return Some(Limit::SumLow);
    }
    if is_summed && !is_i64(high(count, instrument.hi)) {
        return Some(Limit::SumHigh);
    }
    None
}
