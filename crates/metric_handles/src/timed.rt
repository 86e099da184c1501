//! Work that is timed.
ghost use Rattle.std.specs.Prelude.{◌≡◌, Option};
ghost use Rattle.std.specs.Duration.{as_nanos};
ghost use Rattle.std.specs.Fn.{FnOnceReturnsAtMut};
ghost use Rattle.std.specs.Time.{instant_nanos};
ghost use Rattle.std.specs.declared.time.Instant.{Instant as instants};
ghost use Rattle.metric_handles.specs.Calls.{MakesByBound};
ghost use Rattle.metric_handles.specs.Works.{IsTimed, IsTimedBy, RecordsTime};

use crate::at::At;
use crate::seat::Seat;
use crate::timer::Timer;
use metric_contents::Refusal;
use metric_history::Book;
use metric_provider::Gate;
use std::sync::Wait;
use std::time::{Clock, Duration, Instant};
use thiserror::Error;

/// Why the duration of some work was not recorded.
#[derive(Clone, Copy, Debug, PartialEq, Eq, Drop, Error)]
pub enum TimedFault {
    /// The clock could not be read before the work or after it.
    #[error("the clock could not be read")]
    Clock,
    /// The recording was refused, as for `ValueRange` where the work took longer than the instrument's range has
    /// units.
    #[error("{0}")]
    Refused(Refusal),
}

// A clock that is read before some work on a seat and after it, with the seat in sight. As a trait, so that what times
// the work cannot but read it, once before the work and once after.
trait Stopwatch<S> {
    // What a reading comes to: the clock before and after it, the seat that it is made beside, and what it gives.
    ghost reads: { Self → Self → S → Option instants → Type 0 };

    fn moment(&mut self, seat: &S) -> Option<Instant>
        ensures { reads self.old self.new seat.now result };
}

// The clock of the runtime, which does not go back.
#[derive(Drop)]
struct ClockOf<'a, R> {
    rt: &'a R,
}

impl<R: Clock, S> Stopwatch<S> for ClockOf<'_, R> {
    ghost reads = { λ _ _ _ _. Unit {0} };

    fn moment(&mut self, _seat: &S) -> Option<Instant> {
        Instant::now(self.rt).ok()
    }
}

impl<R: Wait + Clock, S: Seat, B: Book, G: Gate> At<'_, R, S, B, G> {
    /// Does some work, and records in a histogram how long it took, in whole units of the instrument, whatever the
    /// work gave (Metrics API, Record). The work is lent the seat. A `?` inside the work ends the work alone, so every
    /// way out of it is recorded. The work is done whatever is refused; with what it gave comes why nothing was
    /// recorded.
    pub fn timed<T, F: FnOnce(&mut S) -> T>(
        &mut self,
        timer: &Timer,
        work: F,
    ) -> (T, Result<(), TimedFault>)
        requires { F.IsAlwaysCallable work }
        ensures same { self.new.seat.ghost_name ≡ self.old.seat.ghost_name }
        ensures provider { self.new.provider.now ≡ self.old.provider.now }
        ensures timed { let p = self.old.provider.now in
            let makes = MakesByBound B.KEEPS_ENTRIES B.spares_memory S.seat S.notes S.records_set p
            timer.now.took in
            IsTimed instant_nanos timer.now.unit makes (FnOnceReturnsAtMut F.FnOnce work)
            self.old.seat.now self.new.seat.now result.0 result.1 }
    {
        let mut clock = ClockOf { rt: self.rt };
        self.timed_by(&mut clock, timer, work)
    }
}

impl<R: Wait, S: Seat, B: Book, G: Gate> At<'_, R, S, B, G> {
    // The same by any clock.
    fn timed_by<W: Stopwatch<S>, T, F: FnOnce(&mut S) -> T>(
        &mut self,
        clock: &mut W,
        timer: &Timer,
        work: F,
    ) -> (T, Result<(), TimedFault>)
        requires { F.IsAlwaysCallable work }
        ensures same { self.new.seat.ghost_name ≡ self.old.seat.ghost_name }
        ensures provider { self.new.provider.now ≡ self.old.provider.now }
        ensures timed { let p = self.old.provider.now in
            let makes = MakesByBound B.KEEPS_ENTRIES B.spares_memory S.seat S.notes S.records_set p
            timer.now.took in
            IsTimedBy W.reads instant_nanos timer.now.unit makes (FnOnceReturnsAtMut F.FnOnce work)
            clock.old clock.new self.old.seat.now self.new.seat.now result.0 result.1 }
    {
        let first = clock.moment(self.seat);
        let done = work(self.seat);
        let last = clock.moment(self.seat);
        let Some(first) = first else {
            return (done, Err(TimedFault::Clock));
        };
        let Some(last) = last else {
            return (done, Err(TimedFault::Clock));
        };
        let answer = self.record_time(timer, last.saturating_duration_since(first));
        (done, answer)
    }

    // Records how long some work took.
    fn record_time(&mut self, timer: &Timer, took: Duration) -> Result<(), TimedFault>
        ensures same { self.new.seat.ghost_name ≡ self.old.seat.ghost_name }
        ensures provider { self.new.provider.now ≡ self.old.provider.now }
        ensures recorded { let p = self.old.provider.now in
            let makes = MakesByBound B.KEEPS_ENTRIES B.spares_memory S.seat S.notes S.records_set p
            timer.now.took in
            RecordsTime timer.now.unit makes (as_nanos took) self.old.seat.now self.new.seat.now
            result }
    {
        let whole = timer.unit.whole(took);
        match timer.took.record(self.rt, self.provider, self.seat, whole) {
            Ok(()) => Ok(()),
            Err(refusal) => Err(TimedFault::Refused(refusal)),
        }
    }
}
