//! Calls to which a watcher refuses memory: each allocation inside one call in turn, by `tools/refuse-each`.
//!
//! `CALL BOOK FILE` prepares the call with memory enough, makes it between two allocations of a size that marks them,
//! and prints three parts: what it answered (`first`), what the same call then answers, with what the first handed back
//! where it handed something back (`second`), and what the state comes to (`state`). A fourth word `once` leaves the
//! second call out, and of `run` a number leaves the event of that number, from 0, out of the first. Without words each
//! call is made over each book and each input, and a line tells whether it answered as is due.

mod answers;
mod cores;
mod plans;
mod played;
mod seats;

use crate::asserted::{OrFail, Stop, hold};
use crate::inputs::Input;
use crate::refusals::answers::Answers;
use metric_audit::Audited;
use metric_history::Book;
use metric_journal::JournalBook;
use metric_marked::Marked;
use std::alloc::Global;
use std::rt::Files;

// What is due of a call: the same answer twice, since it changes nothing and takes nothing; an answer; an answer over
// each book; one that is not refused, over each book.
#[derive(Clone, Copy, PartialEq, Eq)]
enum Due {
    Twice,
    Answer,
    Booked,
    Step,
}

const CALLS: &[(&str, Due)] = &[
    ("make", Due::Twice),
    ("write", Due::Twice),
    ("read", Due::Twice),
    ("check", Due::Answer),
    ("trial", Due::Answer),
    ("new", Due::Booked),
    ("run", Due::Booked),
    ("start", Due::Booked),
    ("record", Due::Step),
    ("collect", Due::Step),
    ("collect-all", Due::Booked),
    ("shutdown", Due::Booked),
    ("finish", Due::Booked),
    ("audit", Due::Twice),
    ("grant", Due::Step),
    ("replay", Due::Twice),
];

// The books, and over which of them a call is made that needs none.
const BOOKS: &[(&str, bool)] = &[("journal", false), ("marked", true), ("audited", false)];

// The inputs over which each call is made without words.
const INPUTS: &[&str] = &[
    "growing.txt",
    "histogram.txt",
    "delta.txt",
    "several.txt",
    "combined.txt",
];

// A call over an input.
#[derive(Clone, Copy)]
struct Asked<'a> {
    call: &'a str,
    book: &'a str,
    input: &'a Input,
    // The event that the first call of `run` leaves out, from 0; where there is none of this number, none.
    left: usize,
    // Whether the call is made once.
    is_once: bool,
}

/// Prints what the call answers that the words name. Whether they are right.
pub(crate) fn run<R: Files + Print + AllocGlobal + Stop>(
    rt: &R,
    alloc: Global,
    words: &[String],
) -> bool {
    let [_, _, name, ..] = words else {
        return false;
    };
    let Some(input) = Input::read(rt, alloc, name) else {
        return false;
    };
    let Some(asked) = asked_of(words, &input) else {
        return false;
    };
    let mut answers = Answers::new(alloc);
    if !is_answered(&mut answers, rt, alloc, &asked) {
        return false;
    }
    let (first, second, state) = (&answers.first, &answers.second, &answers.state);
    print!(rt; "first\n{first}second\n{second}state\n{state}").or_fail(rt);
    true
}

fn asked_of<'a>(words: &'a [String], input: &'a Input) -> Option<Asked<'a>> {
    let ([call, book, _] | [call, book, _, _]) = words else {
        return None;
    };
    let (left, is_once) = match words.get(3) {
        None => (usize::MAX, false),
        Some(how) if how.as_str() == "once" => (usize::MAX, true),
        Some(number) => (number.as_str().parse::<usize>().ok()?, false),
    };
    Some(Asked {
        call,
        book,
        input,
        left,
        is_once,
    })
}

/// Prints a line for each call and each input: whether it answers as is due over each book, or what else it answers.
/// Whether the inputs are there.
pub(crate) fn print_all<R: Files + Print + AllocGlobal + Stop>(rt: &R, alloc: Global) -> bool {
    for name in INPUTS {
        let Some(input) = Input::read(rt, alloc, *name) else {
            return false;
        };
        for (call, due) in CALLS {
            print!(rt; "{} {}", *call, *name).or_fail(rt);
            print_line(rt, alloc, *call, *due, &input);
        }
    }
    true
}

fn print_line<R: Print + Stop>(rt: &R, alloc: Global, call: &'static str, due: Due, input: &Input) {
    let is_booked = due == Due::Booked || due == Due::Step;
    for (book, is_plain) in BOOKS {
        if is_booked || *is_plain {
            let asked = Asked {
                call,
                book: *book,
                input,
                left: usize::MAX,
                is_once: false,
            };
            let mut answers = Answers::new(alloc);
            let is_known = is_answered(&mut answers, rt, alloc, &asked);
            hold(rt, is_known, "a call is not known");
            print!(rt; ", {}: {}", *book, told_of(due, &answers)).or_fail(rt);
        }
    }
    println!(rt; "").or_fail(rt);
}

// Whether a call answered as is due, or else what it answered, in short.
fn told_of<'a>(due: Due, answers: &'a Answers) -> &'a str {
    let is_told = answers.are_given() && !(due == Due::Step && answers.has_refusal());
    if is_told && (due != Due::Twice || answers.first.as_str() == answers.second.as_str()) {
        return "ok";
    }
    answers.first.as_str().lines().next().unwrap_or("nothing")
}

// Makes a call. Whether it is known.
fn is_answered<R: Stop>(answers: &mut Answers, rt: &R, alloc: Global, asked: &Asked<'_>) -> bool {
    match asked.book {
        "journal" => is_booked::<R, JournalBook>(answers, rt, alloc, asked),
        "marked" => is_booked::<R, Marked>(answers, rt, alloc, asked),
        "audited" => is_booked::<R, Audited>(answers, rt, alloc, asked),
        _ => false,
    }
}

// The same over a book.
fn is_booked<R: Stop, B: Book>(
    answers: &mut Answers,
    rt: &R,
    alloc: Global,
    asked: &Asked<'_>,
) -> bool {
    match asked.call {
        "new" => cores::answer_new::<R, B>(answers, rt, alloc, asked.input),
        "run" => cores::answer_run::<R, B>(answers, rt, alloc, asked),
        "start" => seats::answer_start::<R, B>(answers, rt, alloc, asked.input),
        "record" | "collect" | "grant" => {
            seats::answer_step::<R, B>(answers, rt, alloc, asked);
        }
        "collect-all" => seats::answer_all::<R, B>(answers, rt, alloc, asked.input, false),
        "shutdown" => seats::answer_all::<R, B>(answers, rt, alloc, asked.input, true),
        "finish" => seats::answer_finish::<R, B>(answers, rt, alloc, asked.input),
        _ => return plans::is_answered(answers, rt, alloc, asked),
    }
    true
}
