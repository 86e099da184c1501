//! The ticks of a clock.
ghost use Rattle.std.specs.Prelude.{◌≡◌, ◌*◌, None};
ghost use Rattle.metric_io.specs.Counts.{next_count};
ghost use Rattle.metric_periodic.specs.Ticks.{ClockTicks, WatchTicks, clock_tick, moment_told, stop_cause, tick_by, was_asked};

use crate::stop_flag::StopFlag;
use crate::tick::{StopCause, Tick, Ticker};
use crate::watch::{FlagAndClock, Waited, Watch};
use std::marker::Model;
use std::sync::Wait;
use std::time::{Clock, Duration};

/// A ticker that waits for a time before each tick, and gives the moment that the system's clock then has, in
/// nanoseconds since 1970. It stops after a number of ticks, when its [`StopFlag`] is set, or where the clock cannot be
/// read, and says why, by the first of these causes. By [`StopFlag::wake`] a tick comes at once.
///
/// No moment is before the one that was given last: where the clock went back, that one is given
/// again. Nothing is promised of how long a wait takes. Contracts see the nanoseconds of a wait, the
/// number of ticks that are left at most, the moment of the last one, 0 before the first, and how often
/// the ticker was asked.
#[derive(Drop)]
pub struct ClockTicker<'a> {
    period: Duration,
    left: u64,
    last: u64,
    asked: u64,
    // How many ticks at once the flag had asked for at the last wait.
    seen: u64,
    flag: &'a StopFlag,
}

impl<'a> Model for ClockTicker<'a> {
    ghost use Rattle.std.specs.Duration.{as_nanos};
    ghost use Rattle.metric_periodic.specs.Ticks.{ClockTicksLeft};

    ghost Value = { ClockTicksLeft };

    ghost view = { λ t. record {
      period = as_nanos t.period;
      left = t.left;
      last = t.last;
      asked = t.asked;
    } };
}

impl<'a> ClockTicker<'a> {
    /// A ticker that gives a tick every so many milliseconds, at most `ticks` of them.
    pub fn new(milliseconds: u64, ticks: u64, flag: &'a StopFlag) -> Self
        ensures { result ≡ record {
          period = milliseconds * 1_000_000;
          left = ticks;
          last = 0;
          asked = 0;
        } }
    {
        ClockTicker {
            period: Duration::from_millis(milliseconds),
            left: ticks,
            last: 0,
            asked: 0,
            seen: 0,
            flag,
        }
    }

    /// A ticker that gives a tick every so many milliseconds until its flag is set: no other number of ticks ends it
    /// than 2^64 - 1 of them.
    pub fn every(milliseconds: u64, flag: &'a StopFlag) -> Self
        ensures { result ≡ record {
          period = milliseconds * 1_000_000;
          left = 18446744073709551615;
          last = 0;
          asked = 0;
        } }
    {
        ClockTicker::new(milliseconds, u64::MAX, flag)
    }

    // Why it stops after a wait, where it does.
    fn stop_cause(&self, is_set: bool, moment: Option<u64>) -> Option<StopCause>
        ensures { result ≡ stop_cause self.now.left is_set moment }
    {
        if self.left == 0 {
            Some(StopCause::Ticks)
        } else if is_set {
            Some(StopCause::Flag)
        } else if moment.is_none() {
            Some(StopCause::Clock)
        } else {
            None
        }
    }

    // The moment of the tick that comes next.
    fn moment_told(&self, moment: Option<u64>) -> u64
        ensures { result ≡ moment_told self.now.last moment }
    {
        match moment {
            None => self.last,
            Some(moment) => self.last.max(moment),
        }
    }

    // The tick at the last moment, by what ended the wait.
    fn due(&self, ended: Waited) -> Tick
        ensures { result ≡ tick_by None (was_asked ended) self.now.last }
    {
        match ended {
            Waited::Asked => Tick::Woken(self.last),
            Waited::Set | Waited::Over => Tick::At(self.last),
        }
    }

    // Waits for the period, unless no tick is left, and then reads the clock.
    fn next_by<W: Watch>(&mut self, watch: &W) -> Tick
        ensures ticks { WatchTicks (W.waits watch.now) (W.reads watch.now)
            self.old self.new result }
        ensures asked { self.new.asked ≡ next_count self.old.asked }
    {
        let ended = if self.left == 0 {
            Waited::Set
        } else {
            watch.wait(self.period, &mut self.seen)
        };
        self.tick(ended, watch.moment())
    }

    // What comes after a wait that this ended, at which the clock had this moment.
    fn tick(&mut self, ended: Waited, moment: Option<u64>) -> Tick
        ensures tick { result ≡ clock_tick self.old ended moment }
        ensures after { ClockTicks self.old self.new result }
        ensures asked { self.new.asked ≡ next_count self.old.asked }
    {
        self.asked = self.asked.saturating_add(1);
        let cause = self.stop_cause(ended == Waited::Set, moment);
        self.last = self.moment_told(moment);
        match cause {
            None => {
                self.left -= 1;
                self.due(ended)
            }
            Some(cause) => {
                self.left = 0;
                Tick::Stop(self.last, cause)
            }
        }
    }
}

impl<R: Wait + Clock> Ticker<R> for ClockTicker<'_> {
    ghost asked = { λ t. t.asked };

    ghost next_gives = { ClockTicks };

    fn next(&mut self, rt: &R) -> Tick
        ensures tick { ClockTicks self.old self.new result }
        ensures asked { self.new.asked ≡ next_count self.old.asked }
    {
        let flag = self.flag;
        self.next_by(&FlagAndClock { flag, rt })
    }
}
