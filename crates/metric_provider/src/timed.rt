//! The times of instruments behind their locks.
ghost use Rattle.std.specs.Prelude.{◌≡◌, ℕ, max};
ghost use Rattle.metric_provider.specs.Rolling.{IsTimeBehind, IsTimeOfLane, TellsLatest};

use crate::lanes::{Lanes, Locked};
use metric_history::Book;
use metric_slot::Slot;
use std::sync::{Mutex, Wait};

/// What tells a time under its lock. As a trait, so that each of many cannot but be asked: what it tells is known by
/// the call alone.
pub(crate) trait Timed {
    // It told this time.
    ghost tells: { Self → ℕ → Type 0 };

    /// The greatest time of a last batch of its readers; the start of its run before one.
    fn latest<R: Wait>(&self, rt: &R) -> u64
        ensures { tells self.now result };
}

impl<B: Book> Timed for Locked<B> {
    ghost use Rattle.metric_provider.specs.Rolling.{IsTimeOfLane};

    ghost tells = { λ _ time. IsTimeOfLane B.stands time };

    fn latest<R: Wait>(&self, rt: &R) -> u64 {
        time_of_lane(rt, self)
    }
}

impl<B: Book> Timed for Lanes<B> {
    ghost use Rattle.metric_provider.specs.Rolling.{IsTimeBehind};

    ghost tells = { λ _ time. IsTimeBehind B.stands time };

    fn latest<R: Wait>(&self, rt: &R) -> u64 {
        time_behind(rt, self)
    }
}

// That of a lane, under its lock.
fn time_of_lane<R: Wait, B: Book>(rt: &R, locked: &Locked<B>) -> u64
    ensures { IsTimeOfLane B.stands result }
{
    let slot: &Mutex<Slot<B>> = locked;
    let guard = slot.lock(rt);
    guard.cell().latest()
}

// That of an instrument, one lane after the other.
fn time_behind<R: Wait, B: Book>(rt: &R, lanes: &Lanes<B>) -> u64
    ensures { IsTimeBehind B.stands result }
{
    latest_of(rt, lanes.all())
}

/// The greatest of their times, 0 without any.
pub(crate) fn latest_of<R: Wait, T: Timed>(rt: &R, all: &[T]) -> u64
    ensures { TellsLatest T.tells all.now result }
{
    let mut latest = 0;
    for timed in all {
        latest = later(latest, timed.latest(rt));
    }
    latest
}

// The later of two times.
fn later(first: u64, second: u64) -> u64
    ensures { result ≡ max first second }
{
    first.max(second)
}
