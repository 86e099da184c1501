//! A flag that stops a ticker, and whoever else asks it, or makes a ticker tick at once.
use crate::watch::Waited;
use std::sync::{Condvar, Mutex, Wait};
use std::time::{Clock, Duration};

/// A flag that stops a [`ClockTicker`](crate::ClockTicker), also one that waits, or makes it tick at once. Threads
/// share it by reference; those that are to stop with the reader ask it too, or wait on it.
#[derive(Drop)]
pub struct StopFlag {
    asked: Mutex<Asked>,
    changed: Condvar,
}

// What the tickers of a flag are asked for.
#[derive(Drop)]
struct Asked {
    // To stop.
    stop: bool,
    // How often to tick at once, up to 2^64 - 1 and then from 0 on.
    ticks: u64,
}

impl StopFlag {
    /// A flag that is not set.
    pub fn new() -> StopFlag {
        StopFlag {
            asked: Mutex::new(Asked {
                stop: false,
                ticks: 0,
            }),
            changed: Condvar::new(),
        }
    }

    /// Sets the flag, for good.
    pub fn set<R: Wait>(&self, rt: &R) {
        self.asked.lock(rt).stop = true;
        self.changed.notify_all();
    }

    /// Makes the next tick of each ticker of this flag come at once and not after its period, so that its reader
    /// collects and exports now, tries again what its exporter keeps, and flushes it (Metrics SDK, force flush). It
    /// stops none. A ticker that does not wait just now leaves out its next wait; several calls before one tick are
    /// answered by that tick.
    pub fn wake<R: Wait>(&self, rt: &R) {
        let mut asked = self.asked.lock(rt);
        asked.ticks = asked.ticks.wrapping_add(1);
        self.changed.notify_all();
    }

    /// Whether the flag is set.
    pub fn is_set<R: Wait>(&self, rt: &R) -> bool {
        self.asked.lock(rt).stop
    }

    /// Waits for so many milliseconds, or until the flag is set. Whether it is set then. A tick that is asked for ends
    /// no such wait.
    pub fn wait<R: Wait + Clock>(&self, rt: &R, milliseconds: u64) -> bool {
        let time = Duration::from_millis(milliseconds);
        let (asked, _) = self
            .changed
            .wait_timeout_while(rt, self.asked.lock(rt), time, |asked| !asked.stop);
        asked.stop
    }

    /// Waits for so long, or until the flag is set or a tick is asked for that `seen` does not count yet.
    pub(crate) fn wait_or_tick<R: Wait + Clock>(
        &self,
        rt: &R,
        time: Duration,
        seen: &mut u64,
    ) -> Waited {
        let known = *seen;
        let (asked, _) = self
            .changed
            .wait_timeout_while(rt, self.asked.lock(rt), time, |asked| {
                !asked.stop && asked.ticks == known
            });
        *seen = asked.ticks;
        if asked.stop {
            Waited::Set
        } else if asked.ticks == known {
            Waited::Over
        } else {
            Waited::Asked
        }
    }
}
