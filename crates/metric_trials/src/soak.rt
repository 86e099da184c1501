//! A soak of running threads: recorders and readers that never rest, and at the end every number compared.
//!
//! Rounds are made over [`Marked`] and over [`Audited`] in turn, and what they did is printed in numbers. In a round
//! each recorder of `soak.txt` records in a thread of its own on instruments of one lane or several, whose streams are
//! bounded by product, by list and by budget. It asks for more where a budget is spent, and one of them closes an
//! instrument midway. Two readers, one delta and one cumulative, collect all instruments again and again. Then it is
//! compared: the totals with what each recorder was told, each batch of a reader with the one before it, the last ones
//! with the totals; over [`Audited`] all batches are audited. Where anything is off, it says what, and waits to be
//! ended.

mod ends;
mod figures;
mod reading;
mod recording;
mod rounds;
mod seen;

use crate::asserted::{OrFail, Stop};
use crate::inputs::Input;
use crate::soak::figures::{Figures, print_figures};
use crate::soak::rounds::{Setup, round};
use metric_audit::Audited;
use metric_marked::Marked;
use std::alloc::Global;
use std::rt::Files;
use std::thread::Threads;
use std::time::Instant;

/// How many instruments the input has.
const INSTRUMENTS: usize = 6;

// The input.
const INPUT: &str = "soak.txt";

// How many rounds there are at most over each book.
const MOST_ROUNDS: u64 = 1_000_000;

// The longest soak, in seconds.
const MOST_SECONDS: u64 = 3_600;

// How often each recorder records in a round over each book, and in a short one. What an audit reads is held in memory.
const MARKED: u32 = 200_000;

const AUDITED: u32 = 12_000;

const SHORT: u32 = 600;

// How many lanes an instrument may have in the short ones: fewer than recorders, so that some share a lane.
const LANES: u32 = 4;

/// Makes a short round over each book. Whether the input is there.
pub(crate) fn try_once<R: Files + AllocGlobal + Threads + Print + Sync + Stop>(
    rt: &R,
    alloc: Global,
) -> bool {
    let Some(input) = Input::read(rt, alloc, INPUT) else {
        return false;
    };
    let setup = Setup {
        input,
        lanes: LANES,
    };
    let mut figures = Figures::new();
    round::<R, Marked>(rt, alloc, &setup, SHORT, &mut figures);
    println!(rt; "marked: nothing is off").or_fail(rt);
    round::<R, Audited>(rt, alloc, &setup, SHORT, &mut figures);
    println!(rt; "audited: nothing is off").or_fail(rt);
    true
}

/// Soaks for as long as the words say. Whether they are right.
pub(crate) fn run<R: Files + AllocGlobal + Threads + Print + Sync + Stop>(
    rt: &R,
    alloc: Global,
    words: &[String],
) -> bool {
    let Some((seconds, lanes)) = times_of(words) else {
        return false;
    };
    let Some(input) = Input::read(rt, alloc, INPUT) else {
        return false;
    };
    soak(rt, alloc, &Setup { input, lanes }, seconds);
    true
}

// How many seconds it lasts, and how many lanes there are.
fn times_of(words: &[String]) -> Option<(u64, u32)> {
    let (seconds, lanes) = match words {
        [flag, seconds] if flag.as_str() == "--seconds" => (seconds, 1),
        [flag, seconds, more, lanes]
            if flag.as_str() == "--seconds" && more.as_str() == "--lanes" => {
            (seconds, lanes.as_str().parse::<u32>().ok()?)
        }
        _ => return None,
    };
    let seconds = seconds.as_str().parse::<u64>().ok()?;
    (seconds <= MOST_SECONDS).then_some((seconds, lanes))
}

// Makes rounds over each book in turn until so many seconds have passed, and prints what they did.
fn soak<R: Threads + Print + Sync + Stop>(rt: &R, alloc: Global, setup: &Setup, seconds: u64) {
    let start = Instant::now(rt).or_fail(rt);
    let mut marked = Figures::new();
    let mut audited = Figures::new();
    for _ in 0..MOST_ROUNDS {
        round::<R, Marked>(rt, alloc, setup, MARKED, &mut marked);
        round::<R, Audited>(rt, alloc, setup, AUDITED, &mut audited);
        if start.elapsed(rt).or_fail(rt).as_secs() >= seconds {
            break;
        }
    }
    print_figures(rt, "marked", &marked);
    print_figures(rt, "audited", &audited);
}
