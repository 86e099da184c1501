//! The units in which durations are recorded.
ghost use Rattle.std.specs.Prelude.{◌≡◌, ◌<◌};
ghost use Rattle.std.specs.Duration.{as_nanos};
ghost use Rattle.metric_handles.specs.TimeUnits.{nanos_in, time_unit_of, whole_in};

use std::time::Duration;

/// A unit of time in which a histogram may be declared (Metrics API, instrument unit).
#[derive(Clone, Copy, Debug, PartialEq, Eq, Drop)]
pub enum TimeUnit {
    /// Declared as `ns`.
    Nanoseconds,
    /// Declared as `us`.
    Microseconds,
    /// Declared as `ms`.
    Milliseconds,
    /// Declared as `s`.
    Seconds,
}

impl TimeUnit {
    /// The unit that is declared by this text; nothing where it is none of time.
    pub fn of(text: &str) -> Option<TimeUnit>
        ensures { result ≡ time_unit_of text.now }
    {
        if text == "ns" {
            Some(TimeUnit::Nanoseconds)
        } else if text == "us" {
            Some(TimeUnit::Microseconds)
        } else if text == "ms" {
            Some(TimeUnit::Milliseconds)
        } else if text == "s" {
            Some(TimeUnit::Seconds)
        } else {
            None
        }
    }

    /// How many whole units a duration has, up to the greatest number of 64 bits with a sign.
    pub fn whole(self, duration: Duration) -> i64
        ensures { result ≡ whole_in self (as_nanos duration) }
    {
        let nanos = duration.as_nanos();
        i64::try_from(nanos / self.nanos()).unwrap_or(i64::MAX)
    }

    // How many nanoseconds it has.
    fn nanos(self) -> u128
        ensures nanos { result ≡ nanos_in self }
        ensures some { 0 < result }
    {
        match self {
            TimeUnit::Nanoseconds => 1,
            TimeUnit::Microseconds => 1_000,
            TimeUnit::Milliseconds => 1_000_000,
            TimeUnit::Seconds => 1_000_000_000,
        }
    }
}
