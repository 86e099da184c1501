//! What the machine takes at least, and what one would write by hand: the floors beside which the other figures stand.
use crate::asserted::{OrFail, Stop};
use crate::measures::Case;
use crate::measures::walk::Walk;
use crate::measures::watch::Watch;
use crate::series::{Cycle, Texts, recordings};
use indexmap::IndexMap;
use metric_contents::SetKey;
use metric_provider::Measurement;
use std::alloc::Global;
use std::hash::{BuildHasher, BuildHasherDefault, DefaultHasher, FoldHasher};
use std::sync::Mutex;

/// How often an operation is done in one measurement.
pub(crate) const EVENTS: u32 = 200_000;

/// Does what a floor is. A number that depends on it; nothing for an unknown one.
pub(crate) fn done<R: Stop>(
    rt: &R,
    alloc: Global,
    case: &Case<'_>,
    watch: &mut Watch,
) -> Option<u64> {
    match case.act {
        "look-up" => Some(look_up_sets(rt, alloc, case, watch)),
        "place" => Some(add_at_places(rt, alloc, case, watch)),
        "texts-std" => {
            let hasher: BuildHasherDefault<DefaultHasher> = BuildHasherDefault::new();
            let map = IndexMap::with_hasher(alloc, hasher);
            Some(add_rounds(rt, map, case.size, watch))
        }
        "texts-fast" => {
            let hasher: BuildHasherDefault<FoldHasher> = BuildHasherDefault::new();
            let map = IndexMap::with_hasher(alloc, hasher);
            Some(add_rounds(rt, map, case.size, watch))
        }
        "copy" => Some(copy_bytes(rt, alloc, case, watch)),
        _ => None,
    }
}

// Looks up set keys in a map of so many. The sum of what was found.
fn look_up_sets<R: Stop>(rt: &R, alloc: Global, case: &Case<'_>, watch: &mut Watch) -> u64 {
    let recordings = recordings(rt, alloc, case.size, case.size);
    let map = map_of(rt, alloc, &recordings);
    watch.start(rt, u64::from(EVENTS));
    let found = look_all_up(&map, &recordings);
    watch.stop(rt);
    found
}

// Looks up one set key after the other.
fn look_all_up(map: &IndexMap<SetKey, u64>, recordings: &[Measurement]) -> u64 {
    let walk = Walk::new();
    let mut found: u64 = 0;
    let mut at = 0;
    for _ in 0..EVENTS {
        at = walk.after(at, recordings.len());
        if let Some(one) = recordings.get(at) {
            found = found.wrapping_add(map.get(&one.set).copied().unwrap_or(0));
        }
    }
    found
}

/// A map with the set keys of recordings.
pub(crate) fn map_of<R: Stop>(
    rt: &R,
    alloc: Global,
    recordings: &[Measurement],
) -> IndexMap<SetKey, u64> {
    let mut map = IndexMap::new(alloc);
    for one in recordings {
        map.insert(one.set, 1).or_fail(rt);
    }
    map
}

// Copies bytes to where others stood. How many there are.
fn copy_bytes<R: Stop>(rt: &R, alloc: Global, case: &Case<'_>, watch: &mut Watch) -> u64 {
    let from: Vec<u8> = vec![in alloc; 1; case.size as usize].or_fail(rt);
    let mut to = from.clone().or_fail(rt);
    to.clear();
    watch.start(rt, u64::from(case.size));
    to.extend_from_slice(&from).or_fail(rt);
    watch.stop(rt);
    to.len() as u64
}

// Adds at one place after the other of a list of so many sums, each time under a lock. What stands at the last place.
fn add_at_places<R: Stop>(rt: &R, alloc: Global, case: &Case<'_>, watch: &mut Watch) -> u64 {
    let sums = Mutex::new(vec![in alloc; 0; case.size as usize].or_fail(rt));
    watch.start(rt, u64::from(EVENTS));
    let last = add_at_each(rt, &sums, case.size as usize);
    watch.stop(rt);
    last
}

fn add_at_each<R: Stop>(rt: &R, sums: &Mutex<Vec<u64>>, count: usize) -> u64 {
    let walk = Walk::new();
    let mut at = 0;
    let mut last = 0;
    for _ in 0..EVENTS {
        at = walk.after(at, count);
        last = add_at(rt, sums, at);
    }
    last
}

// Adds at a place under the lock. The sum there.
fn add_at<R: Stop>(rt: &R, sums: &Mutex<Vec<u64>>, at: usize) -> u64 {
    let mut sums = sums.lock(rt);
    match sums.get_mut(at) {
        Some(sum) => {
            *sum = sum.wrapping_add(1);
            *sum
        }
        None => 0,
    }
}

// Adds to the sums of one series after the other, of so many, each found by its three texts under a lock. A sum. Each
// series comes first before the watch starts.
fn add_rounds<R: Stop, S: BuildHasher + Drop>(
    rt: &R,
    map: IndexMap<Texts, i64, S>,
    series: u32,
    watch: &mut Watch,
) -> u64 {
    let sums = Mutex::new(map);
    add_events(rt, &sums, series, series);
    watch.start(rt, u64::from(EVENTS));
    let last = add_events(rt, &sums, series, EVENTS);
    watch.stop(rt);
    last.unsigned_abs()
}

// Makes so many additions. The last sum.
fn add_events<R: Stop, S: BuildHasher + Drop>(
    rt: &R,
    sums: &Mutex<IndexMap<Texts, i64, S>>,
    series: u32,
    events: u32,
) -> i64 {
    let mut cycle = Cycle::new(series);
    let mut last = 0;
    for _ in 0..events {
        last = add_one(rt, sums, cycle.texts(), cycle.value());
        cycle.step();
    }
    last
}

fn add_one<R: Stop, S: BuildHasher + Drop>(
    rt: &R,
    sums: &Mutex<IndexMap<Texts, i64, S>>,
    texts: Texts,
    value: i64,
) -> i64 {
    let mut sums = sums.lock(rt);
    if let Some(sum) = sums.get_mut(&texts) {
        *sum = sum.wrapping_add(value);
        return *sum;
    }
    sums.insert(texts, value).or_fail(rt);
    value
}

/// Makes so many additions under a lock. The sum.
pub(crate) fn add_all<R: Stop>(rt: &R, sum: &Mutex<u64>, events: u32) -> u64 {
    for event in 0..events {
        let mut sum = sum.lock(rt);
        *sum = sum.wrapping_add(u64::from(event));
    }
    *sum.lock(rt)
}
