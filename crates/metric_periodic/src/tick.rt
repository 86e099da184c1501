//! When a periodic reader collects.
ghost use Rattle.std.specs.Prelude.{◌≡◌, ℕ};
ghost use Rattle.metric_io.specs.Counts.{next_count};
ghost use Rattle.metric_periodic.specs.Ticks.{is_woken, moment_of};
ghost use Rattle.metric_periodic.specs.declared.tick.Tick.{Tick};

/// Why a ticker stops.
#[derive(Clone, Copy, Debug, PartialEq, Eq, Drop)]
pub enum StopCause {
    /// It was asked to, as by a [`StopFlag`](crate::StopFlag).
    Flag,
    /// Its clock cannot be read.
    Clock,
    /// It has given all its ticks.
    Ticks,
}

/// The next moment of a periodic reader.
#[derive(Clone, Copy, Debug, PartialEq, Eq, Drop)]
pub enum Tick {
    /// A collection is due at this moment.
    At(u64),
    /// A collection was asked for and is made at this moment: what an exporter keeps is then tried again at once.
    Woken(u64),
    /// The last collection is due, at this moment, for this cause.
    Stop(u64, StopCause),
}

impl Tick {
    /// The moment of the tick.
    pub fn moment(self) -> u64
        ensures { result ≡ moment_of self }
    {
        match self {
            Tick::At(moment) | Tick::Woken(moment) | Tick::Stop(moment, _) => moment,
        }
    }

    /// Whether the collection was asked for.
    pub fn is_woken(self) -> bool
        ensures { result ≡ is_woken self }
    {
        matches!(self, Tick::Woken(_))
    }
}

/// What gives a periodic reader its moments (Metrics SDK, periodic exporting metric reader), in
/// nanoseconds since 1970 where a clock gives them.
///
/// `R` is the runtime by which a ticker may wait for a moment to come. Contracts see how often the
/// ticker was asked, which stops at 2^64 - 1, and what it says of the ticks that it gives, by which a
/// caller can promise that each of its ticks is one that the ticker gave.
pub trait Ticker<R> {
    // How often the ticker was asked.
    ghost asked: { Self → ℕ };

    // What asking does to the ticker, by the tick that it gives.
    ghost next_gives: { Self → Self → Tick → Type 0 };

    /// The next moment, once it has come. After [`Tick::Stop`] it is not asked again.
    fn next(&mut self, rt: &R) -> Tick
        ensures asked { asked self.new ≡ next_count (asked self.old) }
        ensures gives { next_gives self.old self.new result };
}
