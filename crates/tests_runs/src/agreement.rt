//! Inputs that a seed puts together of lines, and one by hand, run over each book.
use crate::asserted::{OrFail, assert_equal};
use crate::dice::Dice;
use crate::runs::told;
use metric_audit::Audited;
use metric_history::Book;
use metric_journal::JournalBook;
use metric_marked::Marked;
use std::alloc::Global;
use std::process::Abort;

// How many inputs there are, and how many events a script has.
const INPUTS: u64 = 24;

const EVENTS: u64 = 160;

type Lines = &'static [&'static str];

// The boundaries of an instrument or a view.
const BOUNDARIES: Lines = &[
    "",
    "boundaries = []\n",
    "boundaries = [0]\n",
    "boundaries = [-5, 0, 5]\n",
];

const COUNTER: Lines = &[
    "kind = 'counter'\nrange = [0, 9223372036854775807]\n",
    "kind = 'counter'\nrange = [0, 9]\n",
];

const UP_DOWN: Lines = &[
    "kind = 'up_down_counter'\nrange = [-9223372036854775808, 9223372036854775807]\n",
    "kind = 'up_down_counter'\nrange = [-9, 9]\n",
];

const HISTOGRAM: Lines = &[
    "kind = 'histogram'\nrange = [0, 9223372036854775807]\n",
    "kind = 'histogram'\nrange = [0, 9]\n",
];

const GAUGE: Lines = &[
    "kind = 'gauge'\nrange = [-9223372036854775808, 9223372036854775807]\n",
    "kind = 'gauge'\nrange = [-9, 9]\n",
];

// The keys of an instrument.
const KEYS: Lines = &[
    "key = [{ name = 'k0', values = ['a', 'b', 'c \"d'] }]\n",
    "key = [{ name = 'k0', values = ['a', 'b', 'c \"d'], optional = true }]\n",
    "key = [{ name = 'k0', values = ['a', 'b'] }, { name = 'k1', values = [true, -2], optional = true }]\n",
    "key = [{ name = 'k0', values = ['a', 'b'], optional = true }, { name = 'k1', values = [-2], optional = true }]\n",
];

// Keys with the combinations that are allowed.
const COMBINED: Lines = &[
    "key = [{ name = 'k0', values = ['a', 'b', 'c \"d'] }]\nallowed = [[1], [3]]\n",
    "key = [{ name = 'k0', values = ['a', 'b'] }, { name = 'k1', values = [true, -2], optional = true }]\nallowed = [[1, 0], [2, 1], [1, 2]]\n",
    "key = [{ name = 'k0', values = ['a', 'b'], optional = true }, { name = 'k1', values = [-2], optional = true }]\nallowed = [[0, 0], [2, 0]]\n",
    "allowed = []\n",
];

// Small budgets.
const SMALL: Lines = &["0", "2", "9", "1000"];

// The first recorder alone may have a very large budget, since the sum of budgets is a u64.
const LARGE: Lines = &["0", "2", "9", "1000", "9223372036854775807"];

// The spare budget of an instrument.
const SPARE: Lines = &["", "spare = 1\n", "spare = 4\n"];

const CATALOGUE: &[Lines] = &[
    &["%% catalogue\nformat = 2\n[[meter]]\nname = 'm'\n"],
    &["[[meter.instrument]]\nname = 'i0'\n"],
    COUNTER,
    BOUNDARIES,
    KEYS,
    SPARE,
    &["[[meter.instrument]]\nname = 'i1'\n"],
    UP_DOWN,
    BOUNDARIES,
    KEYS,
    SPARE,
    &["[[meter.instrument]]\nname = 'i2'\n"],
    HISTOGRAM,
    BOUNDARIES,
    KEYS,
    SPARE,
    &["[[meter.instrument]]\nname = 'i3'\n"],
    GAUGE,
    BOUNDARIES,
    KEYS,
    SPARE,
    &["[[meter.instrument]]\nname = 'i4'\n"],
    COUNTER,
    BOUNDARIES,
    COMBINED,
    SPARE,
    &["[[recorder]]\nname = 'p0'\nbudget = [{ instrument = 0, amount = "],
    LARGE,
    &[" }, { instrument = 1, amount = "],
    LARGE,
    &[" }, { instrument = 2, amount = "],
    LARGE,
    &[" }, { instrument = 3, amount = "],
    LARGE,
    &[" }, { instrument = 4, amount = "],
    LARGE,
    &[" }]\n"],
    &["[[recorder]]\nname = 'p1'\nbudget = [{ instrument = 0, amount = "],
    SMALL,
    &[" }, { instrument = 1, amount = "],
    SMALL,
    &[" }, { instrument = 2, amount = "],
    SMALL,
    &[" }, { instrument = 3, amount = "],
    SMALL,
    &[" }, { instrument = 4, amount = "],
    SMALL,
    &[" }]\n"],
    &["[[recorder]]\nname = 'p2'\nbudget = [{ instrument = 0, amount = "],
    SMALL,
    &[" }, { instrument = 1, amount = "],
    SMALL,
    &[" }, { instrument = 2, amount = "],
    SMALL,
    &[" }, { instrument = 3, amount = "],
    SMALL,
    &[" }, { instrument = 4, amount = "],
    SMALL,
    &[" }]\n"],
];

const READER: &[Lines] = &[
    &[
        "",
        "temporality = { counter = 'delta', gauge = 'delta' }\n",
        "temporality = { up_down_counter = 'delta', histogram = 'delta' }\n",
        "temporality = { counter = 'delta', up_down_counter = 'delta', histogram = 'delta', gauge = 'delta' }\n",
    ],
    &[
        "",
        "aggregation = { histogram = 'sum' }\n",
        "aggregation = { counter = 'explicit_bucket_histogram', gauge = 'explicit_bucket_histogram' }\n",
        "aggregation = { counter = 'last_value', histogram = 'drop' }\n",
    ],
    &[
        "",
        "limit = { counter = 1, up_down_counter = 2, histogram = 1, gauge = 2 }\n",
        "limit = { counter = 2, histogram = 3 }\n",
    ],
];

const VIEW: &[Lines] = &[
    &["[[view]]\n"],
    &[
        "instrument_name = '*'\n",
        "instrument_name = 'I1'\n",
        "instrument_name = '?2'\n",
        "instrument_type = 'counter'\n",
        "instrument_type = 'gauge'\n",
        "instrument_unit = '1'\n",
    ],
    &["", "stream_name = 's'\n"],
    &[
        "",
        "",
        "aggregation = 'default'\n",
        "aggregation = 'sum'\n",
        "aggregation = 'last_value'\n",
        "aggregation = 'explicit_bucket_histogram'\n",
        "aggregation = 'drop'\n",
    ],
    BOUNDARIES,
    &[
        "",
        "keep = []\n",
        "keep = ['k0', 'k2']\n",
        "exclude = ['k0']\n",
        "keep = ['k0', 'k1']\nexclude = ['k1', 'k7']\n",
    ],
    &["", "limit = 1\n", "limit = 2\n"],
];

// Numbers, the last of each list one that there is not.
const RECORDER: Lines = &[
    "0", "1", "2", "0", "1", "2", "0", "1", "2", "0", "1", "2", "3",
];

const INSTRUMENT: Lines = &[
    " 0", " 1", " 2", " 3", " 4", " 0", " 1", " 2", " 3", " 4", " 0", " 1", " 2", " 3", " 4", " 5",
];

const READER_NUMBER: Lines = &[
    "0", "1", "2", "3", "4", "5", "6", "7", "8", "9", "10", "11", "12", "13", "14", "15", "16",
];

const VALUE: Lines = &[
    " 0",
    " 1",
    " 2",
    " 4",
    " 5",
    " 7",
    " 9",
    " 10",
    " -1",
    " -9",
    " 9223372036854775807",
    " -9223372036854775808",
];

const ATTRIBUTES: Lines = &[
    "\n",
    " \"k0\"=\"a\"\n",
    " \"k0\"=\"a\"\n",
    " \"k0\"=\"b\"\n",
    " \"k0\"=\"b\"\n",
    " \"k0\"=\"c \\\"d\"\n",
    " \"k1\"=-2 \"k0\"=\"a\"\n",
    " \"k0\"=\"b\" \"k1\"=true\n",
    " \"k0\"=\"a\" \"k0\"=\"b\"\n",
    " \"k9\"=true\n",
];

const TIME: Lines = &[
    " 0\n", " 7\n", " 250\n", " 400\n", " 600\n", " 800\n", " 999\n",
];

const RECORD: &[Lines] = &[&["record "], RECORDER, INSTRUMENT, VALUE, ATTRIBUTES];

const COLLECT: &[Lines] = &[&["collect "], READER_NUMBER, INSTRUMENT, TIME];

const CLOSE: &[Lines] = &[&["close"], INSTRUMENT, &["\n"]];

const AMOUNT: Lines = &[" 0\n", " 1\n", " 2\n", " 3\n", " 18446744073709551615\n"];

const GRANT: &[Lines] = &[&["grant "], RECORDER, INSTRUMENT, AMOUNT];

// What the replies to all scripts have in them.
const SEEN: Lines = &[
    "accepted",
    "closed",
    "granted",
    "UnknownInstrument",
    "UnknownRecorder",
    "UnknownReader",
    "DuplicateKey",
    "UnknownKey",
    "UnknownValue",
    "MissingKey",
    "Combination",
    "ValueRange",
    "Closed",
    "Budget",
    "NoSpare",
    "SumRange",
    "kind=sum",
    "kind=last",
    "kind=histogram",
    "sum=",
    "] min=",
    "temporality=delta",
    "temporality=cumulative",
    "otel.metric.overflow",
];

// Puts one line of each list last.
fn push_lines<R: Abort>(out: &mut String, rt: &R, dice: &mut Dice, lists: &[Lines]) {
    for lines in lists {
        out.push_str(dice.word(lines)).or_fail(rt);
    }
}

fn push_readers<R: Abort>(out: &mut String, rt: &R, dice: &mut Dice) {
    out.push_str("%% config\nformat = 1\n").or_fail(rt);
    for number in 0..16 {
        write!(out, "[[reader]]\nname = 'q{number}'\n").or_fail(rt);
        push_lines(out, rt, dice, READER);
    }
}

fn push_views<R: Abort>(out: &mut String, rt: &R, dice: &mut Dice) {
    for _ in 0..dice.roll(4) {
        push_lines(out, rt, dice, VIEW);
    }
}

fn push_event<R: Abort>(out: &mut String, rt: &R, dice: &mut Dice) {
    match dice.roll(80) {
        0 => push_lines(out, rt, dice, CLOSE),
        1..=48 => push_lines(out, rt, dice, RECORD),
        49..=52 => push_lines(out, rt, dice, GRANT),
        _ => push_lines(out, rt, dice, COLLECT),
    }
}

// Puts a script last, for five instruments, three recorders and sixteen readers.
fn push_script<R: Abort>(out: &mut String, rt: &R, dice: &mut Dice) {
    out.push_str("%% script\nstart 300\n").or_fail(rt);
    for _ in 0..EVENTS {
        push_event(out, rt, dice);
    }
}

fn push_input<R: Abort>(out: &mut String, rt: &R, dice: &mut Dice) {
    push_lines(out, rt, dice, CATALOGUE);
    push_readers(out, rt, dice);
    push_views(out, rt, dice);
    push_script(out, rt, dice);
}

fn input_of<R: Abort>(rt: &R, alloc: Global, seed: u64) -> String {
    let mut input = String::new(alloc);
    push_input(&mut input, rt, &mut Dice::new(seed));
    input
}

// Whether a book gives these replies, in runs of this size.
fn is_told<R: Abort, B: Book>(
    rt: &R,
    alloc: Global,
    input: &str,
    size: usize,
    wanted: &str,
) -> bool {
    let found = told::<R, B>(rt, alloc, input, size);
    found.as_str() == wanted
}

// Whether each book, whole and in pieces, give the replies of the plain one to the whole script.
fn agreement<R: Abort>(
    seen: &mut String,
    rt: &R,
    alloc: Global,
    input: &str,
    size: usize,
) -> [bool; 4] {
    let wanted = told::<R, JournalBook>(rt, alloc, input, usize::MAX);
    seen.push_str(&wanted).or_fail(rt);
    [
        is_told::<R, Marked>(rt, alloc, input, usize::MAX, &wanted),
        is_told::<R, Marked>(rt, alloc, input, size, &wanted),
        is_told::<R, JournalBook>(rt, alloc, input, size, &wanted),
        is_told::<R, Audited>(rt, alloc, input, size, &wanted),
    ]
}

fn first_unseen(seen: &str) -> Option<&'static str> {
    for word in SEEN {
        if !seen.contains(*word) {
            return Some(*word);
        }
    }
    None
}

#[test]
fn books_and_pieces_give_the_same_replies(rt: HostRuntime) {
    let mut seen = String::new(rt.alloc());
    for seed in 0..INPUTS {
        let input = input_of(&rt, rt.alloc(), seed);
        let size = (seed % 9) as usize;
        let found = agreement(&mut seen, &rt, rt.alloc(), &input, size);
        assert_equal(&rt, (seed, found), (seed, [true, true, true, true]));
    }
    assert_equal(&rt, first_unseen(&seen), None);
}

// What the seeds do not reach: numbers at the ends of 32 and 64 bits, escaped signs, and default boundaries. Cases of
// `tests/` have what programs answer to such events.
const BY_HAND: &str = r#"%% catalogue
format = 1
[[meter]]
name = 'm'
instrument = [
    { name = 'hits', kind = 'counter', range = [0, 9223372036854775807], key = [{ name = 'k', values = ["a\"b\\\n", '/a'] }] },
    { name = 'wait', kind = 'histogram', range = [0, 20000], key = [{ name = 'route', values = ['/a', '/b'] }, { name = 'user', values = [7], optional = true }, { name = 'paid', values = [true], optional = true }] },
    { name = 'heat', kind = 'gauge', range = [-9, 9] },
    { name = 'stock', kind = 'up_down_counter', range = [-10, 10] },
    { name = 'few', kind = 'counter', range = [0, 1], key = [{ name = 'k', values = ['x', 'y', 'z'] }] },
]
[[recorder]]
name = 'r'
budget = [{ instrument = 0, amount = 9 }, { instrument = 1, amount = 9 }, { instrument = 2, amount = 2 }, { instrument = 3, amount = 4 }, { instrument = 4, amount = 4 }]
%% config
format = 1
[[reader]]
name = 'C'
[[reader]]
name = 'D'
temporality = { counter = 'delta', histogram = 'delta', gauge = 'delta' }
[[view]]
instrument_name = 'wait'
exclude = ['user']
boundaries = [-1, 5]
[[view]]
instrument_name = 'wait'
stream_name = 'waits'
aggregation = 'sum'
[[view]]
instrument_name = 'wait'
stream_name = 'wait.all'
[[view]]
instrument_name = 'stock'
[[view]]
instrument_name = 'stock'
stream_name = 'stock.spread'
aggregation = 'explicit_bucket_histogram'
[[view]]
instrument_name = 'few'
limit = 2
%% script
start 5
record 0 0 5 "k"="a\"b\\\n"
record 0 0 1 "k"="/a"
collect 1 0 10
record 0 0 9223372036854775807 "k"="/a"
record 0 0 9223372036854775801 "k"="a\"b\\\n"
record 0 0 1 "k"="/a"
record 0 0 0 "k"="/a"
collect 1 0 30
collect 1 0 25
collect 0 0 20
record 0 1 6 "paid"=true "route"="/a"
record 0 1 0 "user"=7 "route"="/b"
record 0 1 2 "route"="/a" "paid"=true
record 0 1 10000 "route"="/a"
record 0 1 10001 "route"="/a"
record 0 2 3
record 0 2 -1
record 0 2 0
record 0 3 -3
record 0 3 4
record 0 4 1 "k"="x"
record 0 4 1 "k"="y"
record 0 4 1 "k"="z"
record 0 4 1 "k"="x"
collect 0 1 20
collect 0 2 20
collect 0 3 20
collect 0 4 20
collect 1 1 20
collect 1 2 20
collect 1 4 20
record 0 1 20001
record 0 0 1 "k"="/c"
record 0 2 10
record 0 0 1 "zone"=1 "k"="/a"
record 0 0 1 "zone"=1 "zone"=1
record 1 0 5 "k"="/a"
record 0 9 5
record 4294967295 0 9223372036854775807
collect 2 0 5
collect 0 9 5
collect 4294967295 3 18446744073709551615
close 9
close 0
record 0 0 1 "k"="/a"
close 0
collect 0 0 18446744073709551615
collect 0 0 2
"#;

#[test]
fn books_agree_on_an_input_by_hand(rt: HostRuntime) {
    let mut seen = String::new(rt.alloc());
    let found = agreement(&mut seen, &rt, rt.alloc(), BY_HAND, 3);
    assert_equal(&rt, found, [true, true, true, true]);
}
