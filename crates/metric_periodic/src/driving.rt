//! The turns of outlets over a run.
ghost use Rattle.metric_periodic.specs.Outlets.{MakesTurnsBy, MakesTurnsOf};

use crate::outlets::Outlets;
use crate::stop_flag::StopFlag;
use crate::watch::{FlagAndClock, Waited, Watch};
use metric_history::Book;
use metric_provider::{Gate, Provider};
use std::alloc::Global;
use std::sync::Wait;
use std::time::{Clock, Duration};

// The longest wait, in nanoseconds: an hour.
const LONGEST_WAIT: u64 = 3_600_000_000_000;

/// Makes the turns of outlets, each every so many milliseconds as it was made with, until a flag is set or the clock
/// can't be read. By [`StopFlag::wake`] all make one at once. For a thread of its own, which hands the outlets back;
/// the last turn of a run is made when nobody records any more.
pub fn make_turns<R: Wait + Clock, B: Book, G: Gate, O: Outlets>(
    rt: &R,
    alloc: Global,
    provider: &Provider<B, G>,
    outlets: O,
    flag: &StopFlag,
) -> O
    ensures { MakesTurnsOf (O.turns provider.now) outlets result }
{
    turns_by(rt, alloc, provider, outlets, &FlagAndClock { flag, rt })
}

// The same by what is watched.
fn turns_by<R: Wait, B: Book, G: Gate, O: Outlets, W: Watch>(
    rt: &R,
    alloc: Global,
    provider: &Provider<B, G>,
    outlets: O,
    watch: &W,
) -> O
    ensures { MakesTurnsBy (O.turns provider.now) (W.waits watch.now) (W.reads watch.now)
        outlets result }
{
    let mut outlets = outlets;
    let (mut now, mut seen, mut is_asked) = (0u64, 0, false);
    for _turn in 0..u64::MAX {
        let Some(moment) = watch.moment() else {
            return outlets;
        };
        now = now.max(moment);
        let due = outlets.turn_if_due(rt, alloc, provider, now, is_asked);
        let wait = due.saturating_sub(now).min(LONGEST_WAIT);
        match watch.wait(Duration::from_nanos(wait), &mut seen) {
            Waited::Set => return outlets,
            Waited::Asked => is_asked = true,
            Waited::Over => is_asked = false,
        }
    }
    outlets
}
