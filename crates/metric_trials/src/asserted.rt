//! Answers of calls that have to succeed.
//!
//! Where something fails, a trial says what and waits to be ended: only a test may end its process by itself. So no
//! function here has ways out on which it drops all that it holds, and what a figure or an answer rests on was done.
ghost use Rattle.std.specs.Prelude.{◌≡◌, IsTrue, Ok};

use std::fmt::Debug;
use std::sync::Wait;
use std::thread::sleep;
use std::time::{Clock, Duration};

/// What stops where something fails.
pub(crate) trait Stop: Wait + Clock + Eprint {}

impl<R: Wait + Clock + Eprint> Stop for R {}

/// What has to be there.
pub(crate) trait OrFail<T> {
    fn or_fail<R: Stop>(self, rt: &R) -> T;
}

impl<T, E: Debug> OrFail<T> for Result<T, E> {
    /// The value; or the error is printed, and the trial stops.
    fn or_fail<R: Stop>(self, rt: &R) -> T
        ensures { self ≡ Ok result }
    {
        match self {
            Ok(value) => value,
            Err(error) => {
                let _ = eprintln!(rt; "a call failed: {error:?}");
                for _ in rt.forever() {
                    sleep(rt, Duration::from_secs(60));
                }
                unreachable!()
            }
        }
    }
}

impl<T> OrFail<T> for Option<T> {
    /// The value; or the trial stops.
    fn or_fail<R: Stop>(self, rt: &R) -> T {
        match self {
            Some(value) => value,
            None => {
                let _ = eprintln!(rt; "something is missing");
                for _ in rt.forever() {
                    sleep(rt, Duration::from_secs(60));
                }
                unreachable!()
            }
        }
    }
}

/// Stops the trial where something does not hold, and says what.
pub(crate) fn hold<R: Stop>(rt: &R, holds: bool, what: &str)
    ensures { IsTrue holds }
{
    if holds {
        return;
    }
    let _ = eprintln!(rt; "it does not hold: {what}");
    for _ in rt.forever() {
        sleep(rt, Duration::from_secs(60));
    }
    unreachable!()
}
