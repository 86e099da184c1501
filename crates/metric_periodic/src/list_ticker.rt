//! The ticks of a list.
ghost use Rattle.std.specs.Prelude.{◌≡◌};
ghost use Rattle.metric_io.specs.Counts.{next_count};
ghost use Rattle.metric_periodic.specs.Ticks.{ListTicks, after_tick, next_tick};

use crate::tick::{StopCause, Tick, Ticker};
use std::marker::Model;

/// A ticker that gives the ticks of a list in order and waits for nothing. After them it stops at the
/// moment of the last one, at 0 where there was none.
///
/// Contracts see the ticks that are left, the moment of the last one that was given, and how often the
/// ticker was asked.
#[derive(Drop)]
pub struct ListTicker<'a> {
    ticks: &'a [Tick],
    last: u64,
    asked: u64,
}

impl<'a> Model for ListTicker<'a> {
    ghost use Rattle.metric_periodic.specs.Ticks.{TicksLeft};

    ghost Value = { TicksLeft };

    ghost view = { λ t. record { ticks = t.ticks.now; last = t.last; asked = t.asked } };
}

impl<'a> ListTicker<'a> {
    /// A ticker of these ticks.
    pub fn new(ticks: &'a [Tick]) -> Self
        ensures { result ≡ record { ticks = ticks.entry.now; last = 0; asked = 0 } }
    {
        ListTicker {
            ticks,
            last: 0,
            asked: 0,
        }
    }
}

impl<R> Ticker<R> for ListTicker<'_> {
    ghost asked = { λ t. t.asked };

    ghost next_gives = { ListTicks };

    fn next(&mut self, _rt: &R) -> Tick
        ensures tick { result ≡ next_tick self.old }
        ensures after { self.new ≡ after_tick self.old }
        ensures asked { self.new.asked ≡ next_count self.old.asked }
        ensures gives { ListTicks self.old self.new result }
    {
        self.asked = self.asked.saturating_add(1);
        let Some((tick, later)) = self.ticks.split_first() else {
            return Tick::Stop(self.last, StopCause::Ticks);
        };
        self.ticks = later;
        self.last = tick.moment();
        *tick
    }
}
