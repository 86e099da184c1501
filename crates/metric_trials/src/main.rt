//! Trials: what calls cost, what they answer when out of memory, and a soak of running threads.
//!
//! `metric_trials measure ..` does an act for `tools/measure` and prints what it took (`measures`).
//! `metric_trials refuse CALL BOOK FILE` makes a call for `tools/refuse-each` (`refusals`).
//! `metric_trials soak --seconds N` lets recorders and readers work until N seconds have passed (`soak`), with
//! `--lanes L` over instruments of up to L lanes. `metric_trials allocations FILE` makes recordings between marks, for
//! `tools/watch-allocations`. Without words each call is made over each book and each input with memory enough, and
//! threads make one short round over each book. Inputs are files where it runs, those of `data`.
#![tactic(auto)]

mod asserted;
mod inputs;
mod mark;
mod measures;
mod refusals;
mod seats;
mod series;
mod soak;

use crate::asserted::{OrFail, Stop};
use std::env;
use std::process::ExitCode;
use std::rt::Files;
use std::thread::Threads;

fn main(rt: HostRuntime) -> ExitCode {
    let owned: Vec<String> = env::args(&rt).or_fail(&rt).collect(rt.alloc()).or_fail(&rt);
    let is_done = match owned.as_slice() {
        [] | [_] => try_all(&rt),
        [_, first, words @ ..] => run(&rt, first, words),
    };
    if is_done {
        return ExitCode::SUCCESS;
    }
    eprintln!(&rt; "{USAGE}").or_fail(&rt);
    ExitCode::from(2)
}

// Makes each call, and a short round over each book.
fn try_all<R: Files + Print + AllocGlobal + Threads + Sync + Stop>(rt: &R) -> bool {
    refusals::print_all(rt, rt.alloc()) && soak::try_once(rt, rt.alloc())
}

// Does what the first word says. Whether the words are right.
fn run<R: Files + Print + AllocGlobal + Threads + Sync + Stop>(
    rt: &R,
    first: &str,
    words: &[String],
) -> bool {
    match first {
        "measure" => measures::run(rt, rt.alloc(), words),
        "allocations" => measures::allocations::run(rt, rt.alloc(), words),
        "refuse" => refusals::run(rt, rt.alloc(), words),
        "soak" => soak::run(rt, rt.alloc(), words),
        _ => false,
    }
}

const USAGE: &str = "usage: metric_trials
       metric_trials measure ACT HOW FILE SIZE EVENTS THREADS TIMES
       metric_trials refuse CALL BOOK FILE [once|N]
       metric_trials soak --seconds N [--lanes L]
       metric_trials allocations FILE";
