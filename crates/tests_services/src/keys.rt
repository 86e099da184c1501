//! Recordings by set keys, one by one and as lists.
use crate::asserted::OrFail;
use crate::page::Page;
use crate::samples::{CODES, LONG, MAIN, PAIRS, ROUTES};
use crate::seats::{Seats, seats_of};
use metric_provider::{Measurement, Recorder};
use metric_sdk::MeterProvider;
use std::alloc::Global;
use std::process::Abort;
use std::sync::Wait;

// What a seat records on the first instrument: values by the entry of its key, as a list; or one value by the first
// entries of a set key on the instrument of a number.
enum Step {
    List(&'static [(u16, i64)]),
    One(u32, [u16; 3], i64),
}

// The number of the run of the seat; that of the provider is 1. What is told: the answer to each step, and after a list
// what the seat was then told; and what is collected in the end.
struct Case {
    catalogue: &'static str,
    run: u64,
    steps: &'static [Step],
    told: &'static str,
}

const CASES: &[Case] = &[
    // The first key is required, the second may be left out, and each has one value.
    Case {
        catalogue: CODES,
        run: 1,
        steps: &[
            Step::One(1, [1, 1, 0], 5),
            Step::One(0, [0, 1, 0], 5),
            Step::One(0, [2, 1, 0], 5),
            Step::One(0, [1, 2, 0], 5),
            Step::One(0, [1, 0, 1], 5),
            Step::One(0, [1, 1, 0], 10),
            Step::One(0, [1, 1, 0], 5),
            Step::One(0, [1, 0, 0], 5),
        ],
        told: "1 UnknownInstrument
5 UnknownValue
5 UnknownValue
5 UnknownValue
5 UnknownValue
7 ValueRange
accepted
9 Budget
0 0, 0 to 1, 0 to 10: stream 0 [1 1] 5
",
    },
    // A combination that is not allowed, before the range.
    Case {
        catalogue: PAIRS,
        run: 1,
        steps: &[
            Step::One(0, [1, 0, 0], 10),
            Step::One(0, [1, 2, 0], 10),
            Step::One(0, [1, 1, 0], 10),
            Step::One(0, [2, 2, 0], 5),
            Step::One(0, [2, 1, 0], 5),
        ],
        told: "5 UnknownValue
13 Combination
7 ValueRange
accepted
13 Combination
0 0, 0 to 1, 0 to 10: stream 0 [2 2] 5
",
    },
    Case {
        catalogue: ROUTES,
        run: 1,
        steps: &[Step::List(&[(1, 5), (2, 3), (1, 1)])],
        told: "Ok(())
Some(Told { count: 3, amount: 6 })
0 0, 0 to 3, 0 to 10: stream 0 [1 0] 6 [2 0] 3
",
    },
    // A long list, whose last recordings have set keys and values of their own.
    Case {
        catalogue: LONG,
        run: 1,
        steps: &[Step::List(&[
            (1, 1),
            (1, 1),
            (1, 1),
            (1, 1),
            (1, 1),
            (1, 1),
            (1, 1),
            (1, 1),
            (1, 1),
            (1, 1),
            (1, 1),
            (1, 1),
            (1, 1),
            (1, 1),
            (1, 1),
            (1, 1),
            (2, 1),
            (2, 2),
            (1, 3),
            (2, 4),
        ])],
        told: "Ok(())
Some(Told { count: 20, amount: 6 })
0 0, 0 to 20, 0 to 10: stream 0 [1 0] 19 [2 0] 7
",
    },
    // The budget ends in a list, or before one.
    Case {
        catalogue: ROUTES,
        run: 1,
        steps: &[
            Step::List(&[(1, 5)]),
            Step::List(&[(2, 3), (1, 2), (2, 9), (1, 1)]),
            Step::List(&[(1, 1)]),
        ],
        told: "Ok(())
Some(Told { count: 1, amount: 4 })
Err(SetsFault { place: 2, refusal: Budget })
Some(Told { count: 3, amount: 7 })
Err(SetsFault { place: 0, refusal: Budget })
Some(Told { count: 3, amount: 7 })
0 0, 0 to 3, 0 to 10: stream 0 [1 0] 7 [2 0] 3
",
    },
    // A set key or a value that is not declared, also after the budget has ended.
    Case {
        catalogue: ROUTES,
        run: 1,
        steps: &[
            Step::List(&[(1, 5), (3, 3), (2, 1)]),
            Step::List(&[(2, 1), (2, 0)]),
            Step::List(&[(1, 2), (1, 9), (3, 1)]),
        ],
        told: "Err(SetsFault { place: 1, refusal: UnknownValue })
Some(Told { count: 1, amount: 4 })
Err(SetsFault { place: 1, refusal: ValueRange })
Some(Told { count: 2, amount: 4 })
Err(SetsFault { place: 1, refusal: Budget })
Some(Told { count: 3, amount: 5 })
0 0, 0 to 3, 0 to 10: stream 0 [1 0] 7 [2 0] 1
",
    },
    // No recordings, and a stranger.
    Case {
        catalogue: ROUTES,
        run: 1,
        steps: &[Step::List(&[])],
        told: "Ok(())
Some(Told { count: 0, amount: 0 })
0 0, 0 to 0, 0 to 10: stream 0
",
    },
    Case {
        catalogue: ROUTES,
        run: 2,
        steps: &[Step::List(&[]), Step::List(&[(1, 5), (3, 3)])],
        told: "Ok(())
Some(Told { count: 0, amount: 0 })
Err(SetsFault { place: 0, refusal: Stranger })
Some(Told { count: 0, amount: 0 })
0 0, 0 to 0, 0 to 10: stream 0
",
    },
];

fn measurements<R: Abort>(rt: &R, alloc: Global, list: &[(u16, i64)]) -> Vec<Measurement> {
    let mut all = Vec::new(alloc);
    for (entry, value) in list {
        let set = [*entry, 0, 0, 0, 0, 0, 0, 0];
        let value = *value;
        all.push(Measurement { set, value }).or_fail(rt);
    }
    all
}

fn tell_step<R: Abort + Wait>(
    page: &mut Page<'_, R>,
    provider: &MeterProvider,
    seat: &mut Recorder,
    step: &Step,
) {
    match step {
        Step::List(list) => {
            let all = measurements(page.rt, page.alloc, list);
            page.tell(seat.record_sets(page.rt, provider, 0, all.as_slice()));
            page.tell(seat.accepted(0))
        }
        Step::One(instrument, [first, second, third], value) => {
            let set = [*first, *second, *third, 0, 0, 0, 0, 0];
            let answer = seat.record_set(page.rt, provider, *instrument, set, *value);
            page.answered(answer, "accepted\n")
        }
    }
}

// A seat of the provider's run is its own, since both were told of nothing.
fn tell_case<R: Abort + Wait>(page: &mut Page<'_, R>, case: &Case) {
    let (rt, alloc) = (page.rt, page.alloc);
    let mut own: Seats = seats_of(rt, alloc, case.catalogue, MAIN, 0, 1);
    let mut other: Seats = seats_of(rt, alloc, case.catalogue, MAIN, 0, case.run);
    let seat = other.recorders.first_mut().expect(rt, "no recorder");
    for step in case.steps {
        tell_step(page, &own.provider, seat, step);
    }
    let reader = own.collectors.first_mut().expect(rt, "no reader");
    page.collected(reader.collect(rt, alloc, &own.provider, 0, 10))
}

#[test]
fn set_keys_are_recorded_or_refused(rt: HostRuntime) {
    for case in CASES {
        let mut page = Page::new(&rt, rt.alloc());
        tell_case(&mut page, case);
        page.assert(case.told);
    }
}
