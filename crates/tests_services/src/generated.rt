//! Scripts that numbers put together of lines, answered by the seats over each book as by a core.
use crate::agreement::{Script, script_of, tell_core, tell_seats};
use crate::asserted::{OrFail, assert_equal};
use crate::page::Page;
use metric_audit::Audited;
use metric_history::Book;
use metric_journal::JournalBook;
use metric_marked::Marked;
use std::alloc::Global;
use std::process::Abort;
use std::sync::Wait;

// How many scripts there are.
const SCRIPTS: u64 = 64;

// Two counters with spares, and two recorders with small budgets for each.
const SHARED: &str = "format = 2
[[meter]]
name = 'm'
instrument = [
    { name = 'A', kind = 'counter', range = [0, 9], spare = 3 },
    { name = 'B', kind = 'counter', range = [2, 7], spare = 1, key = [{ name = 'k', values = ['a', 'b'] }] },
]
[[recorder]]
name = 'r'
budget = [{ instrument = 0, amount = 2 }, { instrument = 1, amount = 1 }]
[[recorder]]
name = 's'
budget = [{ instrument = 1, amount = 1 }]
";

// A cumulative reader and a delta reader, each with two streams of the first counter.
const TWICE: &str = "format = 1
[[reader]]
name = 'C'
[[reader]]
name = 'D'
temporality = { counter = 'delta' }
[[view]]
instrument_name = 'A'
[[view]]
instrument_name = 'A'
stream_name = 'all'
";

// What an event may be.
const EVENTS: [&str; 16] = [
    "record 0 0 4\n",
    "record 0 0 9\n",
    "record 0 0 10\n",
    "record 1 0 6\n",
    "record 0 1 2 \"k\"=\"a\"\n",
    "record 1 1 7 \"k\"=\"b\"\n",
    "record 1 1 5 \"k\"=\"c\"\n",
    "grant 0 0 1\n",
    "grant 1 0 2\n",
    "grant 1 1 1\n",
    "grant 0 1 0\n",
    "grant 2 0 1\n",
    "grant 0 2 1\n",
    "collect 0 0 9\n",
    "collect 1 1 5\n",
    "close 1\n",
];

// What the answers to all scripts have in them.
const SEEN: &[&str] = &[
    "accepted",
    "granted",
    "done",
    "UnknownInstrument",
    "UnknownRecorder",
    "UnknownValue",
    "ValueRange",
    "Closed",
    "Budget",
    "NoSpare",
    "stream 1",
    "stream 5",
];

// Sixteen events that the digits of a number choose.
fn input_of<R: Abort>(rt: &R, alloc: Global, number: u64) -> String {
    let mut digits = number.wrapping_mul(0x9E37_79B9_7F4A_7C15);
    let first = "%% catalogue\n%% config\n%% script\nstart 3\n";
    let mut input = String::from_str(alloc, first).or_fail(rt);
    for _ in 0..16 {
        input.push_str(EVENTS[(digits % 16) as usize]).or_fail(rt);
        digits /= 16;
    }
    input
}

// Whether a core over a book answers this, its seats too, and those over two lanes.
fn is_answered<R: Abort + Wait, B: Book>(
    rt: &R,
    alloc: Global,
    script: &Script,
    wanted: &str,
) -> [bool; 3] {
    let mut core = Page::new(rt, alloc);
    tell_core::<R, B>(&mut core, SHARED, TWICE, script);
    let mut seats = Page::new(rt, alloc);
    tell_seats::<R, B>(&mut seats, SHARED, TWICE, script, 1);
    let mut lanes = Page::new(rt, alloc);
    tell_seats::<R, B>(&mut lanes, SHARED, TWICE, script, 2);
    [
        core.text() == wanted,
        seats.text() == wanted,
        lanes.text() == wanted,
    ]
}

// Whether each book answers a script as the plain one does.
fn agreement<R: Abort + Wait>(seen: &mut Page<'_, R>, number: u64) -> [[bool; 3]; 3] {
    let (rt, alloc) = (seen.rt, seen.alloc);
    let script = script_of(rt, alloc, &input_of(rt, alloc, number));
    let mut plain = Page::new(rt, alloc);
    tell_core::<R, JournalBook>(&mut plain, SHARED, TWICE, &script);
    let wanted = plain.text();
    seen.push(wanted);
    [
        is_answered::<R, JournalBook>(rt, alloc, &script, wanted),
        is_answered::<R, Marked>(rt, alloc, &script, wanted),
        is_answered::<R, Audited>(rt, alloc, &script, wanted),
    ]
}

fn first_unseen(seen: &str) -> Option<&'static str> {
    for word in SEEN {
        if !seen.contains(*word) {
            return Some(*word);
        }
    }
    None
}

#[test]
fn seats_answer_scripts_as_core(rt: HostRuntime) {
    let mut seen = Page::new(&rt, rt.alloc());
    for number in 1..=SCRIPTS {
        let found = agreement(&mut seen, number);
        assert_equal(&rt, (number, found), (number, [[true, true, true]; 3]));
    }
    assert_equal(&rt, first_unseen(seen.text()), None);
}
