//! Audits of journals, slips and batches that are told in full. Cases of `tests/` audit whole runs.
use crate::asserted::{OrFail, assert_equal};
use crate::plans::plan_of;
use metric_aggregate::PointValue;
use metric_audit::audit;
use metric_base::Items;
use metric_history::{Batch, Entry, Point, Slip, StreamPoints};
use metric_plan::Plan;
use std::alloc::Global;
use std::process::Abort;

const CATALOGUE: &str = "format = 1
[[meter]]
name = 'm'
[[meter.instrument]]
name = 'hits'
kind = 'counter'
range = [0, 100]
[[recorder]]
name = 'r'
budget = [{ instrument = 0, amount = 10 }]
";

const CONFIG: &str = "format = 1
[[reader]]
name = 'C'
[[reader]]
name = 'D'
temporality = { counter = 'delta' }
";

// A batch: its reader and instrument; from, mark, start and time; and the value of its point, if it has one.
type Told = ([u32; 2], [u64; 4], Option<i64>);

// What the readers are told of recordings of 5 and 7, where D is told at 10, 30 and 25, and C at 20.
const FIRST_OF_D: Told = ([1, 0], [0, 1, 0, 10], Some(5));

const ONE_OF_C: Told = ([0, 0], [0, 2, 0, 20], Some(12));

const NEXT_OF_D: Told = ([1, 0], [1, 2, 10, 30], Some(7));

const LAST_OF_D: Told = ([1, 0], [2, 2, 30, 30], None);

// The recorders and values of the entries, the values of the one recorder's slips, the batches, and what is answered.
type Case = (
    &'static [(u32, i64)],
    &'static [i64],
    &'static [Told],
    &'static str,
);

const BOTH: &[(u32, i64)] = &[(0, 5), (0, 7)];

const CASES: &[Case] = &[
    (&[], &[], &[], "done"),
    (
        BOTH,
        &[5, 7],
        &[FIRST_OF_D, ONE_OF_C, NEXT_OF_D, LAST_OF_D],
        "done",
    ),
    (
        BOTH,
        &[5, 7],
        &[ONE_OF_C, FIRST_OF_D, NEXT_OF_D, LAST_OF_D],
        "done",
    ),
    (
        BOTH,
        &[5, 7],
        &[([0, 0], [0, 1, 0, 3], Some(5)), ONE_OF_C],
        "done",
    ),
    (BOTH, &[5], &[FIRST_OF_D], "1 Slips of recorder 0"),
    (BOTH, &[5, 7, 7], &[FIRST_OF_D], "1 Slips of recorder 0"),
    (BOTH, &[7, 5], &[], "1 Slips of recorder 0"),
    (&[(0, 5), (1, 7)], &[5], &[], "1 Slips of recorder 1"),
    (&[(2, 5), (1, 7)], &[9], &[], "1 Slips of recorder 0"),
    (
        BOTH,
        &[5, 7],
        &[
            FIRST_OF_D,
            ([0, 0], [0, 2, 0, 20], Some(13)),
            ([1, 0], [1, 2, 10, 30], Some(8)),
        ],
        "2 Batch at 1",
    ),
    (
        BOTH,
        &[5, 7],
        &[
            FIRST_OF_D,
            ([1, 0], [1, 2, 10, 30], Some(8)),
            ([0, 0], [0, 2, 0, 20], Some(13)),
        ],
        "2 Batch at 1",
    ),
    (
        BOTH,
        &[5, 7],
        &[ONE_OF_C, FIRST_OF_D, ([1, 0], [0, 2, 10, 30], Some(7))],
        "2 Batch at 2",
    ),
    (
        BOTH,
        &[5, 7],
        &[FIRST_OF_D, ([1, 0], [1, 2, 0, 30], Some(7))],
        "2 Batch at 1",
    ),
    (
        BOTH,
        &[5, 7],
        &[FIRST_OF_D, NEXT_OF_D, ([1, 0], [2, 2, 30, 25], None)],
        "2 Batch at 2",
    ),
    (
        BOTH,
        &[5, 7],
        &[ONE_OF_C, ([0, 0], [0, 1, 0, 30], Some(5))],
        "2 Batch at 1",
    ),
    (
        BOTH,
        &[5, 7],
        &[([0, 0], [0, 3, 0, 20], Some(12))],
        "2 Batch at 0",
    ),
    (
        BOTH,
        &[5, 7],
        &[ONE_OF_C, ([2, 0], [0, 2, 0, 20], None)],
        "2 Batch at 1",
    ),
    (
        BOTH,
        &[5, 7],
        &[([0, 1], [0, 2, 0, 20], Some(12))],
        "2 Batch at 0",
    ),
    (
        BOTH,
        &[5, 7],
        &[([0, 0], [0, 2, 1, 20], Some(12))],
        "2 Batch at 0",
    ),
    (
        BOTH,
        &[5, 7],
        &[([0, 0], [0, 2, 0, 20], None)],
        "2 Batch at 0",
    ),
    (
        &[(0, 5), (0, 101)],
        &[5, 101],
        &[FIRST_OF_D, ([1, 0], [1, 2, 10, 30], Some(101))],
        "4 Entry at 1",
    ),
    (&[(0, 5), (0, 101)], &[5, 101], &[], "4 Entry at 1"),
    (
        &[(0, -1), (0, 101)],
        &[-1, 101],
        &[FIRST_OF_D],
        "4 Entry at 0",
    ),
    (&[(0, 101), (0, 5)], &[5, 101], &[], "1 Slips of recorder 0"),
];

fn entries_of<R: Abort>(rt: &R, alloc: Global, told: &[(u32, i64)]) -> Vec<Entry> {
    let mut entries = Vec::new(alloc);
    for (recorder, value) in told {
        let entry = Entry {
            recorder: *recorder,
            set: [0; 8],
            value: *value,
        };
        entries.push(entry).or_fail(rt);
    }
    entries
}

fn slips_of<R: Abort>(rt: &R, alloc: Global, values: &[i64]) -> Items<Slip> {
    let mut slips = Items::new(alloc);
    for value in values {
        let slip = Slip {
            set: [0; 8],
            value: *value,
        };
        slips.push(slip).or_fail(rt);
    }
    slips
}

// The points of a reader's one stream, which has the reader's number.
fn streams_of<R: Abort>(
    rt: &R,
    alloc: Global,
    reader: u32,
    value: Option<i64>,
) -> Items<StreamPoints> {
    let mut points = Items::new(alloc);
    if let Some(value) = value {
        let point = Point {
            set: Some([0; 8]),
            value: PointValue::Sum(value),
        };
        points.push(point).or_fail(rt);
    }
    let mut streams = Items::new(alloc);
    let stream = StreamPoints {
        stream: reader,
        points,
    };
    streams.push(stream).or_fail(rt);
    streams
}

fn batch_of<R: Abort>(rt: &R, alloc: Global, told: &Told) -> Batch {
    let ([reader, instrument], [from, mark, start, time], value) = *told;
    Batch {
        plan: 0,
        reader,
        instrument,
        from,
        mark,
        start,
        time,
        streams: streams_of(rt, alloc, reader, value),
    }
}

fn batches_of<R: Abort>(rt: &R, alloc: Global, told: &[Told]) -> Vec<Batch> {
    let mut batches = Vec::new(alloc);
    for one in told {
        batches.push(batch_of(rt, alloc, one)).or_fail(rt);
    }
    batches
}

// What an audit of the first instrument answers, since the start 0.
fn answer<R: Abort>(
    rt: &R,
    alloc: Global,
    plan: &Plan,
    entries: &[Entry],
    slips: &[Items<Slip>],
    batches: &[Batch],
) -> String {
    let is_one_each = slips.len() == plan.catalogue().recorders().len();
    if plan.all_facts().is_empty() || !is_one_each {
        panic!(rt; "no such instrument");
    }
    match audit(alloc, plan, 0, 0, entries, slips, batches) {
        Ok(()) => String::from_str(alloc, "done").or_fail(rt),
        Err(fault) => format!(in alloc; "{fault}").or_fail(rt),
    }
}

fn answer_to<R: Abort>(rt: &R, alloc: Global, case: &Case) -> String {
    let plan = plan_of(rt, alloc, CATALOGUE, CONFIG);
    let (entries, slips, batches, _) = *case;
    let entries = entries_of(rt, alloc, entries);
    let slips = [slips_of(rt, alloc, slips)];
    let batches = batches_of(rt, alloc, batches);
    answer(rt, alloc, &plan, &entries, &slips, &batches)
}

#[test]
fn the_first_thing_that_differs_is_told(rt: HostRuntime) {
    for case in CASES {
        assert_equal(&rt, answer_to(&rt, rt.alloc(), case).as_str(), case.3);
    }
}
