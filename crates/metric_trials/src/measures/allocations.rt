//! Recordings between marks, by which `tools/watch-allocations` counts the allocations that each asks for.
use crate::asserted::{OrFail, Stop};
use crate::inputs::Input;
use crate::mark::mark;
use crate::measures::calls::{Calls, How, LIST};
use crate::seats::{Seats, seats_of};
use crate::series::{Cycle, recordings};
use metric_contents::Refusal;
use metric_marked::Marked;
use metric_provider::{NoGate, Provider, Recorder};
use std::alloc::Global;
use std::rt::Files;

// How many series an instrument has.
const SERIES: u32 = 64;

// What is recorded one after the other, how, and whether its series are held. By attributes it is one recording, else
// sixteen of as many series.
const STEPS: &[(&str, How, bool)] = &[
    ("a new series", How::Attributes, false),
    ("new series, sixteen under one lock", How::Lists, false),
    ("held", How::Attributes, true),
    ("held, sixteen by set keys", How::Sets, true),
    ("held, sixteen under one lock", How::Lists, true),
];

/// Starts a provider of a file, makes recordings between marks, and prints what each is answered. Whether the words are
/// right.
pub(crate) fn run<R: Files + Print + AllocGlobal + Stop>(
    rt: &R,
    alloc: Global,
    words: &[String],
) -> bool {
    let [name] = words else {
        return false;
    };
    let Some(input) = Input::read(rt, alloc, name) else {
        return false;
    };
    let mut seats: Seats<Marked> = seats_of(rt, alloc, input.plan(rt, alloc), 1);
    let sixteen = recordings(rt, alloc, LIST, SERIES);
    let recorder = seats.recorders.last_mut().or_fail(rt);
    for (what, how, are_held) in STEPS {
        let calls = Calls {
            how: *how,
            instrument: 0,
            series: SERIES,
            recordings: &sixteen,
        };
        if *are_held {
            calls
                .record_round(rt, &seats.provider, recorder)
                .or_fail(rt);
        }
        mark(alloc);
        let answer = recorded(rt, &seats.provider, recorder, calls);
        mark(alloc);
        println!(rt; "{}: {answer:?}", *what).or_fail(rt);
    }
    true
}

fn recorded<R: Stop>(
    rt: &R,
    provider: &Provider<Marked, NoGate>,
    recorder: &mut Recorder,
    calls: Calls<'_>,
) -> Result<(), Refusal> {
    if calls.how == How::Attributes {
        let attributes = Cycle::new(calls.series).attributes();
        return recorder.record(rt, provider, calls.instrument, &attributes, 1);
    }
    calls.record_round(rt, provider, recorder)
}
