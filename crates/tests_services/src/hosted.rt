//! Instruments that a host keeps behind locks of its own, and their seats.
ghost use Rattle.std.specs.Prelude.{IsTrue};

use crate::asserted::OrFail;
use crate::page::Page;
use crate::samples::{MAIN, ROUTES};
use metric_contents::{Attr, SetKey};
use metric_hosted::{Hosted, Measurement, ReaderSeat, RecorderSeat, RunId};
use metric_plan::Plan;
use metric_sdk::certified_plan;
use std::alloc::Global;
use std::process::Abort;

// What is done with one instrument, a seat of its recorder and one of its reader.
enum Step {
    // A recording with this value of the route.
    Record(&'static str, i64),
    // A recording with the first entry of the set key.
    RecordSet(u16, i64),
    RecordSets(&'static [(u16, i64)]),
    Collect(u64),
    // A grant to the recorder of a number.
    Grant(u32, u64),
    Close,
    Settle,
}

struct Case {
    // The number of the run of the seats; that of the instrument is 1.
    run: u64,
    steps: &'static [Step],
    told: &'static str,
}

const CASES: &[Case] = &[
    Case {
        run: 1,
        steps: &[
            Step::Record("/a", 5),
            Step::Record("/c", 5),
            Step::RecordSet(2, 10),
            Step::RecordSet(3, 1),
            Step::RecordSet(2, 9),
            Step::Collect(10),
            Step::RecordSets(&[(1, 2), (1, 1)]),
            Step::Grant(1, 1),
            Step::Grant(0, 2),
            Step::Grant(0, 1),
            Step::RecordSet(1, 1),
            Step::Collect(9),
            Step::Close,
            Step::RecordSet(1, 1),
            Step::Grant(0, 0),
            Step::Close,
            Step::Settle,
        ],
        told: "accepted
5 UnknownValue
7 ValueRange
5 UnknownValue
accepted
0 0, 0 to 2, 7 to 10: stream 0 [1 0] 5 [2 0] 9
1 made, then 9 Budget
2 UnknownRecorder
14 NoSpare
granted
accepted
0 0, 0 to 4, 7 to 10: stream 0 [1 0] 8 [2 0] 9
done
8 Closed
8 Closed
8 Closed
Total { count: 4, sum: 17 }
",
    },
    // Seats of another run.
    Case {
        run: 2,
        steps: &[
            Step::Record("/a", 5),
            Step::RecordSets(&[(1, 2)]),
            Step::RecordSets(&[]),
            Step::Collect(10),
            Step::Settle,
        ],
        told: "12 Stranger
0 made, then 12 Stranger
made
12 Stranger
a stranger's
",
    },
];

// An instrument with the seats of one recorder and one reader.
#[derive(Drop)]
struct Held<'a> {
    plan: &'a Plan,
    instrument: Hosted,
    recorder: RecorderSeat,
    reader: ReaderSeat,
}

fn held_of<'a, R: Abort>(rt: &R, alloc: Global, plan: &'a Plan, run: u64) -> Held<'a>
    requires { IsTrue plan.now.is_certified }
{
    let instruments = plan.all_facts().len();
    if instruments == 0 {
        panic!(rt; "no instrument");
    }
    let run = RunId::of(plan, run, 7);
    Held {
        plan,
        instrument: Hosted::new(alloc, plan, 0, 7, 1).or_fail(rt),
        recorder: RecorderSeat::new(alloc, run, 0, instruments, false).or_fail(rt),
        reader: ReaderSeat::new(alloc, run, 0, instruments).or_fail(rt),
    }
}

fn key_of(entry: u16) -> SetKey {
    [entry, 0, 0, 0, 0, 0, 0, 0]
}

fn prepared<R: Abort>(rt: &R, alloc: Global, list: &[(u16, i64)]) -> Vec<Measurement> {
    let mut all = Vec::new(alloc);
    for (entry, value) in list {
        let prepared = Measurement {
            set: key_of(*entry),
            value: *value,
        };
        all.push(prepared).or_fail(rt);
    }
    all
}

fn tell_list<R: Abort>(page: &mut Page<'_, R>, held: &mut Held<'_>, list: &[(u16, i64)]) {
    let all = prepared(page.rt, page.alloc, list);
    let seat = &mut held.recorder;
    match held.instrument.record_sets(held.plan, seat, all.as_slice()) {
        Ok(()) => page.push("made\n"),
        Err(ended) => {
            page.put(ended.place);
            page.push(" made, then ");
            page.say(ended.refusal)
        }
    }
}

fn tell_settled<R: Abort>(page: &mut Page<'_, R>, held: &Held<'_>) {
    let Ok(told) = held.instrument.told_of(held.plan, &held.recorder) else {
        return page.push("a stranger's\n");
    };
    match held.instrument.settle(&[told]) {
        Ok(total) => page.tell(total),
        Err(fault) => page.say(fault),
    }
}

fn tell_step<R: Abort>(page: &mut Page<'_, R>, held: &mut Held<'_>, step: &Step) {
    let (plan, seat, instrument) = (held.plan, &mut held.recorder, &mut held.instrument);
    match step {
        Step::Record(route, value) => {
            let attrs = [Attr::text("route", route)];
            page.answered(instrument.record(plan, seat, &attrs, *value), "accepted\n")
        }
        Step::RecordSet(entry, value) => {
            let answer = instrument.record_set(plan, seat, key_of(*entry), *value);
            page.answered(answer, "accepted\n")
        }
        Step::RecordSets(list) => tell_list(page, held, list),
        Step::Collect(now) => {
            let answer = instrument.collect(page.alloc, plan, &mut held.reader, *now);
            page.collected(answer)
        }
        Step::Grant(recorder, amount) => {
            page.answered(instrument.grant(*recorder, *amount), "granted\n")
        }
        Step::Close => page.answered(instrument.close(), "done\n"),
        Step::Settle => tell_settled(page, held),
    }
}

fn tell_case<R: Abort>(page: &mut Page<'_, R>, case: &Case) {
    let plan = certified_plan(page.alloc, ROUTES, MAIN).or_fail(page.rt);
    let mut held = held_of(page.rt, page.alloc, &plan, case.run);
    for step in case.steps {
        tell_step(page, &mut held, step);
    }
}

#[test]
fn a_held_instrument_answers_its_seats(rt: HostRuntime) {
    for case in CASES {
        let mut page = Page::new(&rt, rt.alloc());
        tell_case(&mut page, case);
        page.assert(case.told);
    }
}
