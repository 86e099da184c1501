//! What a clock's ticker waits for and reads, by a clock of the tests' own.
use crate::asserted::assert_equal;
use metric_periodic::{ClockTicker, StopCause, StopFlag, Tick, Ticker};
use metric_sdk::now;
use std::cell::Cell;
use std::io;
use std::process::Abort;
use std::sync::Wait;
use std::time::{Clock, Duration};

// A clock by which a millisecond goes by from one reading to the next, as it counts. The times since 1970 are these
// nanoseconds, one after the other, and then there is none. It waits by a runtime that may.
#[derive(Drop)]
struct SteppingClock<'a, R> {
    _rt: &'a R,
    readings: Cell<u64>,
    moments: Cell<&'static [u64]>,
}

impl<R: Wait> Wait for SteppingClock<'_, R> {}

impl<R> Clock for SteppingClock<'_, R> {
    fn monotonic(&self) -> io::Result<Duration> {
        let readings = self.readings.get();
        self.readings.set(readings.saturating_add(1));
        Ok(Duration::from_millis(readings))
    }

    fn since_1970(&self) -> io::Result<Duration> {
        match self.moments.get() {
            [] => Err(io::Error::from_raw_os_error(5)),
            [first, later @ ..] => {
                self.moments.set(later);
                Ok(Duration::from_nanos(*first))
            }
        }
    }
}

// The milliseconds of the period, how many ticks there are at most and whether the flag is set, what the clock tells,
// the ticks that are given, and how often the waits read the clock: at its start, one reading later, and from there on
// every third, until the period has gone by; there are two readings between.
struct Case {
    period: u64,
    most: u64,
    is_set: bool,
    moments: &'static [u64],
    ticks: &'static [Tick],
    readings: u64,
}

const CASES: &[Case] = &[
    Case {
        period: 3,
        most: 9,
        is_set: false,
        moments: &[5, 3, 9],
        ticks: &[
            Tick::At(5),
            Tick::At(5),
            Tick::At(9),
            Tick::Stop(9, StopCause::Clock),
        ],
        readings: 20,
    },
    Case {
        period: 0,
        most: 9,
        is_set: false,
        moments: &[7, 8, 9, 10],
        ticks: &[Tick::At(7), Tick::At(8), Tick::At(9), Tick::At(10)],
        readings: 8,
    },
    Case {
        period: 5,
        most: 1,
        is_set: false,
        moments: &[4, 6],
        ticks: &[Tick::At(4), Tick::Stop(6, StopCause::Ticks)],
        readings: 8,
    },
    // Where no tick is left, none is waited for.
    Case {
        period: 0,
        most: 3,
        is_set: false,
        moments: &[5, 6, 7, 8],
        ticks: &[
            Tick::At(5),
            Tick::At(6),
            Tick::At(7),
            Tick::Stop(8, StopCause::Ticks),
        ],
        readings: 6,
    },
    Case {
        period: 1,
        most: 0,
        is_set: false,
        moments: &[5, 6],
        ticks: &[
            Tick::Stop(5, StopCause::Ticks),
            Tick::Stop(6, StopCause::Ticks),
        ],
        readings: 0,
    },
    Case {
        period: 1,
        most: 9,
        is_set: true,
        moments: &[5, 6],
        ticks: &[
            Tick::Stop(5, StopCause::Flag),
            Tick::Stop(6, StopCause::Ticks),
        ],
        readings: 1,
    },
];

fn assert_ticks<R: Abort + Wait>(
    rt: &R,
    clock: &SteppingClock<R>,
    ticker: &mut ClockTicker,
    ticks: &[Tick],
) {
    for tick in ticks {
        assert_equal(rt, ticker.next(clock), *tick);
    }
}

fn clock_of<'a, R>(rt: &'a R, moments: &'static [u64]) -> SteppingClock<'a, R> {
    SteppingClock {
        _rt: rt,
        readings: Cell::new(0),
        moments: Cell::new(moments),
    }
}

#[test]
fn a_clock_is_read_after_each_period(rt: HostRuntime) {
    for case in CASES {
        let flag = StopFlag::new();
        if case.is_set {
            flag.set(&rt);
        }
        let clock = clock_of(&rt, case.moments);
        let mut ticker = ClockTicker::new(case.period, case.most, &flag);
        assert_ticks(&rt, &clock, &mut ticker, case.ticks);
        assert_equal(&rt, clock.readings.get(), case.readings);
    }
}

// A tick that is asked for comes at once, and those after it wait again: how often the clock was read then.
const WOKEN: &[(Tick, u64)] = &[(Tick::Woken(5), 1), (Tick::At(6), 6), (Tick::At(7), 11)];

#[test]
fn a_woken_clock_waits_again(rt: HostRuntime) {
    let flag = StopFlag::new();
    let clock = clock_of(&rt, &[5, 6, 7]);
    let mut ticker = ClockTicker::new(3, 9, &flag);
    flag.wake(&rt);
    for (tick, readings) in WOKEN {
        assert_equal(&rt, ticker.next(&clock), *tick);
        assert_equal(&rt, clock.readings.get(), *readings);
    }
}

#[test]
fn a_run_starts_at_the_clocks_moment(rt: HostRuntime) {
    let clock = clock_of(&rt, &[7, 1_600_000_000_000_000_000]);
    for moment in [Some(7), Some(1_600_000_000_000_000_000), None] {
        assert_equal(&rt, now(&clock).ok(), moment);
    }
}

// Whether a tick is asked for, whether the flag is set, and how often a wait of 3 milliseconds then reads the clock:
// the tick ends no wait, the flag each.
const WAITS: &[(bool, bool, u64)] = &[
    (false, false, 5),
    (true, false, 5),
    (false, true, 1),
    (true, true, 1),
];

#[test]
fn a_flag_is_asked_and_waited_on(rt: HostRuntime) {
    for (is_woken, is_set, readings) in WAITS {
        let flag = StopFlag::new();
        let clock = clock_of(&rt, &[]);
        if *is_woken {
            flag.wake(&rt);
        }
        if *is_set {
            flag.set(&rt);
        }
        let told = (flag.is_set(&rt), flag.wait(&clock, 3));
        assert_equal(&rt, told, (*is_set, *is_set));
        assert_equal(&rt, clock.readings.get(), *readings);
    }
}
