//! How much memory series take, and recordings that are kept.
use crate::asserted::{OrFail, Stop};
use crate::measures::Case;
use crate::measures::calls::{Calls, How};
use crate::measures::floors::map_of;
use crate::measures::watch::Watch;
use crate::seats::{Seats, seats_of};
use crate::series::recordings;
use metric_audit::Audited;
use metric_history::Book;
use metric_marked::Marked;
use metric_provider::Measurement;
use std::alloc::Global;
use std::fs;
use std::rt::Files;

// The bytes of a page.
const PAGE: u64 = 4_096;

/// Measures the memory that came into use: of a map of the set keys, of a list of the recordings, of the instrument's
/// series, or of the recordings that books keep. Each is measured in a process of its own, since memory that is given
/// back may stay in use. How many recordings there are; nothing for an unknown act.
pub(crate) fn done<R: Files + AllocGlobal + Stop>(
    rt: &R,
    alloc: Global,
    case: &Case<'_>,
    watch: &mut Watch,
) -> Option<u64> {
    let before = in_use(rt);
    let recordings = recordings(rt, alloc, case.events, case.size);
    let listed = in_use(rt);
    let count = recordings.len() as u64;
    match case.act {
        "list" => watch.set(listed.saturating_sub(before), count),
        "map" => {
            let map = map_of(rt, alloc, &recordings);
            watch.set(in_use(rt).saturating_sub(listed), map.len() as u64);
        }
        "series" => record_all::<R, Marked>(rt, alloc, case, &recordings, watch),
        "kept" => record_all::<R, Audited>(rt, alloc, case, &recordings, watch),
        _ => return None,
    }
    Some(count)
}

fn record_all<R: Files + AllocGlobal + Stop, B: Book>(
    rt: &R,
    alloc: Global,
    case: &Case<'_>,
    recordings: &[Measurement],
    watch: &mut Watch,
) {
    let calls = Calls {
        how: How::Sets,
        instrument: 0,
        series: case.size,
        recordings,
    };
    let plan = case.input.plan(rt, alloc);
    let before = in_use(rt);
    let mut seats: Seats<B> = seats_of(rt, alloc, plan, 1);
    let recorder = seats.recorders.last_mut().or_fail(rt);
    let made = calls.repeat(rt, &seats.provider, recorder, 1);
    watch.set(in_use(rt).saturating_sub(before), made);
}

// How many bytes the process has in use.
fn in_use<R: Files + AllocGlobal + Stop>(rt: &R) -> u64 {
    let text = fs::read_to_string(rt, "/proc/self/statm").or_fail(rt);
    let word = text.as_str().split_ascii_whitespace().nth(1).or_fail(rt);
    word.parse::<u64>().or_fail(rt).saturating_mul(PAGE)
}
