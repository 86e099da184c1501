//! What recording, collecting, checking and replaying cost, and floors to measure beside.
//!
//! `tools/measure` names the acts and their inputs, and makes a table of what is printed: of each repetition the time
//! that the act took in nanoseconds (of what measures memory the bytes), how many operations it had, and a number that
//! depends on all of it, so that no part of it can be left out.

pub(crate) mod allocations;
mod audits;
mod calls;
mod files;
mod floors;
mod memory;
mod recording;
mod threads;
mod walk;
mod watch;
mod written;

use crate::asserted::{OrFail, Stop};
use crate::inputs::Input;
use crate::measures::calls::{How, how_of};
use crate::measures::watch::Watch;
use std::alloc::Global;
use std::rt::Files;
use std::thread::Threads;

/// An act over an input.
#[derive(Clone, Copy)]
pub(crate) struct Case<'a> {
    pub part: &'a str,
    pub act: &'a str,
    /// How recordings are made.
    pub how: How,
    pub input: &'a Input,
    /// How many series there are, or other things.
    pub size: u32,
    /// About how many operations there are, of each thread.
    pub events: u32,
    pub threads: u32,
}

/// Does an act as often as the words say: `PART ACT HOW FILE SIZE EVENTS THREADS TIMES`. Whether they are right.
pub(crate) fn run<R: Files + Print + AllocGlobal + Threads + Sync + Stop>(
    rt: &R,
    alloc: Global,
    words: &[String],
) -> bool {
    let [_, _, _, name, ..] = words else {
        return false;
    };
    let Some(input) = Input::read(rt, alloc, name) else {
        return false;
    };
    let Some((case, times)) = case_of(words, &input) else {
        return false;
    };
    for _ in 0..times {
        let mut watch = Watch::new(rt);
        let Some(number) = done(rt, alloc, &case, &mut watch) else {
            return false;
        };
        println!(rt; "{} {} {number}", watch.taken, watch.operations).or_fail(rt);
    }
    true
}

// What the words ask for, and how often.
fn case_of<'a>(words: &'a [String], input: &'a Input) -> Option<(Case<'a>, u32)> {
    let [part, act, how, _, size, events, threads, times] = words else {
        return None;
    };
    let case = Case {
        part,
        act,
        how: how_of(how)?,
        input,
        size: number_of(size)?,
        events: number_of(events)?,
        threads: number_of(threads)?,
    };
    Some((case, number_of(times)?))
}

// A number that is not beyond what lists of it hold in memory.
fn number_of(word: &str) -> Option<u32> {
    let number = word.parse::<u32>().ok()?;
    (number <= MOST).then_some(number)
}

// The greatest number of a word.
const MOST: u32 = 20_000_000;

// Does an act while the watch runs. A number that depends on it; nothing for an unknown act.
fn done<R: Files + AllocGlobal + Threads + Sync + Stop>(
    rt: &R,
    alloc: Global,
    case: &Case<'_>,
    watch: &mut Watch,
) -> Option<u64> {
    match case.part {
        "floor" => floors::done(rt, alloc, case, watch),
        "seat" => recording::done(rt, alloc, case, watch),
        "write" => written::done(rt, alloc, case, watch),
        "file" => files::done(rt, alloc, case, watch),
        "memory" => memory::done(rt, alloc, case, watch),
        "threads" => threads::done(rt, alloc, case, watch),
        _ => None,
    }
}
