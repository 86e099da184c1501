//! What a clock's ticker waits by, and what it reads.
ghost use Rattle.std.specs.Prelude.{◌≡◌, ◌-◌, ◌^◌, ℕ, min, Option};
ghost use Rattle.std.specs.Duration.{as_nanos};
ghost use Rattle.std.specs.Time.{system_time_nanos};
ghost use Rattle.metric_periodic.specs.declared.watch.Waited.{Waited};

use crate::stop_flag::StopFlag;
use std::io;
use std::sync::Wait;
use std::time::{Clock, Duration, SystemTime, UNIX_EPOCH};

/// What ended a wait.
#[derive(Clone, Copy, Debug, PartialEq, Eq, Drop)]
pub enum Waited {
    /// The flag was set.
    Set,
    /// A tick was asked for.
    Asked,
    /// The time was over.
    Over,
}

/// A flag to wait for and a clock to read. As a trait, so that a ticker cannot but call it: whether the
/// flag was set and which moment it is are known by the calls alone.
pub(crate) trait Watch {
    // What ends a wait for so many nanoseconds.
    ghost waits: { Self → ℕ → Waited → Type 0 };

    // What the clock tells.
    ghost reads: { Self → Option ℕ → Type 0 };

    /// Waits for so long, or until the flag is set or asks for a tick that `seen` does not count yet.
    fn wait(&self, time: Duration, seen: &mut u64) -> Waited
        ensures { waits self.now (as_nanos time) result };

    /// The nanoseconds since 1970, where the clock can be read.
    fn moment(&self) -> Option<u64>
        ensures { reads self.now result };
}

/// A flag, and the clock of the runtime.
#[derive(Drop)]
pub(crate) struct FlagAndClock<'a, R> {
    pub flag: &'a StopFlag,
    pub rt: &'a R,
}

impl<R: Wait + Clock> Watch for FlagAndClock<'_, R> {
    ghost waits = { λ _ _ _. Unit {0} };

    ghost reads = { λ _ _. Unit {0} };

    fn wait(&self, time: Duration, seen: &mut u64) -> Waited {
        self.flag.wait_or_tick(self.rt, time, seen)
    }

    fn moment(&self) -> Option<u64> {
        now(self.rt).ok()
    }
}

/// The system's clock in nanoseconds since 1970, as a [`ClockTicker`](crate::ClockTicker) gives it: 2^64 - 1 if there
/// are more, after the year 2554. Nothing is proved about the clock.
///
/// # Errors
///
/// If the clock cannot be read, or shows a time before 1970.
pub fn now<R: Clock>(rt: &R) -> io::Result<u64> {
    Ok(nanoseconds_at(SystemTime::now(rt)?))
}

// The nanoseconds from 1970 to a time, 2^64 - 1 where there are more.
fn nanoseconds_at(time: SystemTime) -> u64
    ensures { result ≡ min (system_time_nanos time) (2 ^ 64 - 1) }
{
    match time.duration_since(UNIX_EPOCH) {
        Ok(since) => u64::try_from(since.as_nanos()).unwrap_or(u64::MAX),
        Err(_) => 0,
    }
}
