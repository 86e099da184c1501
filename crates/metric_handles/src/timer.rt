//! Histograms of durations, with their unit.
ghost use Rattle.std.specs.Prelude.{◌≡◌};
ghost use Rattle.std.specs.Result.{result_map_both};
ghost use Rattle.metric_handles.specs.Timers.{declared_unit, timed_at, timer_of};

use crate::bound::{Bound, BoundHistogram};
use crate::kinds::IsHistogram;
use crate::time_unit::TimeUnit;
use metric_contents::Instrument;
use metric_plan::Plan;
use thiserror::Error;

/// Attributes that are bound to a histogram which is declared in a unit of time, with that unit: durations are
/// recorded in it. It is copied and kept as bound attributes are, and made by [`Bound::timer`].
#[derive(Clone, Copy)]
pub struct Timer {
    pub(crate) took: BoundHistogram,
    pub(crate) unit: TimeUnit,
}

/// Why no durations are recorded with bound attributes.
#[derive(Clone, Copy, Debug, PartialEq, Eq, Drop, Error)]
pub enum TimerFault {
    /// They are bound in another plan.
    #[error("the attributes are bound in another plan")]
    OtherPlan,
    /// The instrument is declared in another unit than `ns`, `us`, `ms` or `s`.
    #[error("the instrument's unit is none of ns, us, ms, s")]
    OtherUnit,
}

impl Bound<IsHistogram> {
    /// The bound attributes with the unit in which the plan declares their instrument, to record durations.
    ///
    /// # Errors
    ///
    /// `OtherPlan` exactly where they are bound in another plan, else `OtherUnit` exactly where the unit is none of
    /// `ns`, `us`, `ms` and `s`.
    pub fn timer(&self, plan: &Plan) -> Result<Timer, TimerFault>
        ensures { result ≡ timer_of plan.now self.now }
    {
        if self.plan() != plan.fingerprint() {
            return Err(TimerFault::OtherPlan);
        }
        let unit = declared_unit(plan.catalogue().instruments(), self.number())?;
        Ok(Timer { took: *self, unit })
    }
}

// The instrument of a number.
fn timed_at(instruments: &[Instrument], number: u32) -> Result<&Instrument, TimerFault>
    ensures { result_map_both (λ r. r.now) (λ e. e) result ≡ timed_at instruments.now number }
{
    instruments
        .get(number as usize)
        .ok_or(TimerFault::OtherPlan)
}

// The unit of time in which the instrument of a number is declared.
fn declared_unit(instruments: &[Instrument], number: u32) -> Result<TimeUnit, TimerFault>
    ensures { result ≡ declared_unit instruments.now number }
{
    let instrument = timed_at(instruments, number)?;
    match TimeUnit::of(instrument.unit.get().as_str()) {
        Some(unit) => Ok(unit),
        None => Err(TimerFault::OtherUnit),
    }
}

impl Timer {
    /// The bound attributes.
    pub fn took(&self) -> BoundHistogram
        ensures { result ≡ self.now.took }
    {
        self.took
    }

    /// The unit in which durations are recorded.
    pub fn unit(&self) -> TimeUnit
        ensures { result ≡ self.now.unit }
    {
        self.unit
    }
}
