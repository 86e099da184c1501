//! How many lanes an instrument has, and which recorder records in which.
use metric_facts::Facts;
use metric_lanes::all_join;
use std::alloc::{AllocError, Global};

// The most lanes of an instrument.
const MOST: u32 = 64;

/// How many lanes an instrument has, where so many are allowed: one for each recorder that can record, 64 at most. It
/// has one where its book keeps entries, of which no order over lanes is known, and where the values of a stream do not
/// join.
pub(crate) fn lanes_for(facts: &Facts, keeps_entries: bool, most: u32) -> u32 {
    if keeps_entries || !all_join(facts) {
        return 1;
    }
    most.min(MOST).min(recorders_of(facts)).max(1)
}

/// The lane of each recorder: those that can record take turns. Of one lane nothing is said, since each recorder has
/// the first where nothing is said. Fails only when out of memory.
pub(crate) fn lane_of_each(
    alloc: Global,
    facts: &Facts,
    lanes: u32,
) -> Result<Vec<u8>, AllocError> {
    let mut of = Vec::new(alloc);
    if lanes == 1 {
        return Ok(of);
    }
    let mut next: u32 = 0;
    for budget in facts.budgets.as_slice() {
        of.push(u8::try_from(next).unwrap_or(0))?;
        if can_record(facts, *budget) {
            next = turn_after(next, lanes);
        }
    }
    Ok(of)
}

fn turn_after(lane: u32, lanes: u32) -> u32 {
    let next = lane.saturating_add(1);
    if next < lanes { next } else { 0 }
}

// How many recorders can record on the instrument.
fn recorders_of(facts: &Facts) -> u32 {
    let mut count: u32 = 0;
    for budget in facts.budgets.as_slice() {
        if can_record(facts, *budget) {
            count = count.saturating_add(1);
        }
    }
    count
}

// A recorder with a budget can record, and any where there is a spare of which it may ask.
fn can_record(facts: &Facts, budget: u64) -> bool {
    budget > 0 || facts.spare > 0
}
