//! Tests of how runs end: what is left where an exporter fails, the call that begins the next run, and an outlet over
//! several runs.
use crate::asserted::{OrFail, assert_equal};
use crate::failing::{Failing, failing_at};
use crate::page::Page;
use crate::services::{CUMULATIVE, DELTA, HITS, Service, hit_once};
use metric_sdk::{
    KeepingExporter, Left, Marked, MetricExporter, NextRun, NoGate, Outlet, OutletLeft, Outlets,
    Plan, Queued, ReaderEnd, Recorder, Runs, Service as Whole, Tick, collect_each,
};
use std::alloc::Global;
use std::process::Abort;
use std::sync::Wait;

/// A service of one reader, and its exporter, which the test keeps.
type Single<'a, E> = ((), Outlet<&'a mut E>);

/// Numbers for runs, of which so many were given.
pub(crate) fn runs_after(given: u64) -> Runs {
    let mut runs = Runs::new();
    for _ in 0..given {
        let _number = runs.next();
    }
    runs
}

/// The service of a reader that is told an exporter, and the seats of its recorders, where so many runs had numbers.
pub(crate) fn told<'a, R: Abort, E: MetricExporter>(
    page: &Page<'_, R>,
    service: Service,
    reader: &str,
    exporter: &'a mut E,
    given: u64,
) -> (Whole<Single<'a, E>, Marked, NoGate>, Vec<Recorder>) {
    let (provider, recorders, readers) = service.into_seats();
    let service = Whole::builder(provider, readers, runs_after(given));
    let service = service.tell(page.alloc, reader, exporter, 1);
    let service = service.or_fail(page.rt).build();
    (service.or_fail(page.rt), recorders)
}

/// Exports by a plan what an outlet handed back, and writes the answers.
pub(crate) fn export_left<R: Abort, E: MetricExporter>(
    page: &mut Page<'_, R>,
    plan: &Plan,
    end: &ReaderEnd,
    exporter: &mut E,
) {
    if let Some(left) = &end.unexported {
        for batch in &left.batches {
            let answer = exporter.export(page.alloc, plan, batch);
            page.answer(answer);
        }
    }
    let answer = exporter.retry(page.alloc, plan);
    page.answer(answer)
}

/// Ends a service at a time, and writes its totals, or what is left. How those outlets ended of which something is
/// left, with the plan, where it ended.
pub(crate) fn end<R: Abort + Wait, O: Outlets>(
    page: &mut Page<'_, R>,
    service: Whole<O, Marked, NoGate>,
    recorders: Vec<Recorder>,
    now: u64,
) -> Option<(Vec<ReaderEnd>, Plan)> {
    let left = match service.end(page.rt, page.alloc, recorders, now) {
        Ok(ended) => {
            page.tell(ended.totals.instruments.as_slice());
            return Some((Vec::new(page.alloc), ended.plan));
        }
        Err(left) => left,
    };
    page.say(&left);
    let Left {
        done,
        ends,
        is_counted: _,
        are_seated: _,
    } = left;
    match done {
        Ok(ended) => {
            page.tell(ended.totals.instruments.as_slice());
            Some((ends, ended.plan))
        }
        Err(unended) => {
            page.tell(unended.recorders.len());
            None
        }
    }
}

// What happens to a service after a recording of 5, in its run of number 1.
enum Step {
    RollOver,
    Record,
    // How many seats there are of recorders.
    Count,
}

// Whether its reader is that of another run, how many runs have a number, how many batches a queue keeps at most, and
// which calls of the exporter below it fail; what happens, and when the service ends, if it does. Then what is told,
// and of the queue how many batches went out and how many are kept, and what the exporter took in the end: each
// recording once.
struct Case {
    is_strange: bool,
    given: u64,
    most: usize,
    fails_at: &'static [u64],
    steps: &'static [Step],
    end: Option<u64>,
    told: &'static str,
}

const CASES: &[Case] = &[
    // Each recording goes out once over two runs.
    Case {
        is_strange: false,
        given: 1,
        most: 4,
        fails_at: &[],
        steps: &[Step::RollOver, Step::Record],
        end: Some(20),
        told: "rolled over
[Total { count: 1, sum: 5 }]
(2, 0)
[(10, 1), (20, 1)]
",
    },
    // What the queue keeps does not keep the next run from beginning.
    Case {
        is_strange: false,
        given: 1,
        most: 4,
        fails_at: &[1, 2],
        steps: &[Step::RollOver, Step::Record],
        end: Some(20),
        told: "rolled over
[Total { count: 1, sum: 5 }]
(2, 0)
[(10, 1), (20, 1)]
",
    },
    Case {
        is_strange: false,
        given: 1,
        most: 0,
        fails_at: &[1],
        steps: &[Step::RollOver, Step::Record],
        end: Some(20),
        told: "ended; reader 0, 1 batches not exported: 3 Memory
[Total { count: 1, sum: 5 }]
done
done
(2, 0)
[(20, 1), (10, 1)]
",
    },
    Case {
        is_strange: false,
        given: 0,
        most: 0,
        fails_at: &[],
        steps: &[Step::RollOver, Step::Record],
        end: Some(20),
        told: "not ended: the next run has the number of this one
[Total { count: 2, sum: 10 }]
done
(2, 0)
[(10, 1), (20, 1)]
",
    },
    // A reader that is refused an instrument keeps the run from ending.
    Case {
        is_strange: true,
        given: 1,
        most: 4,
        fails_at: &[],
        steps: &[Step::RollOver, Step::Count],
        end: Some(20),
        told: "not ended: not collected; reader 0, instrument 0: 12 Stranger
1
not ended: not collected; reader 0, instrument 0: 12 Stranger
1
(0, 0)
[]
",
    },
    // What a queue keeps that failed at the end is not handed back, and goes out once, by the plan.
    Case {
        is_strange: false,
        given: 1,
        most: 4,
        fails_at: &[1, 2],
        steps: &[],
        end: Some(10),
        told: "ended; reader 0, not sent: 4 Kept
[Total { count: 1, sum: 5 }]
done
(1, 0)
[(10, 1)]
",
    },
    // What nobody took and nobody keeps is handed back, and goes out once, by the plan.
    Case {
        is_strange: false,
        given: 1,
        most: 0,
        fails_at: &[1],
        steps: &[],
        end: Some(10),
        told: "ended; reader 0, 1 batches not exported: 3 Memory
[Total { count: 1, sum: 5 }]
done
done
(1, 0)
[(10, 1)]
",
    },
];

// A service over its runs, and how its outlet ended where something was handed back.
#[derive(Drop)]
struct Life<'a> {
    service: Whole<Single<'a, Queued<Failing>>, Marked, NoGate>,
    recorders: Vec<Recorder>,
    ends: Vec<ReaderEnd>,
}

// What is left of a roll-over, after the first one.
type RollLeft<'a> = Left<
    NextRun<Single<'a, Queued<Failing>>, Marked, NoGate>,
    Single<'a, Queued<Failing>>,
    Marked,
    NoGate,
>;

// The service that goes on where a roll-over did not end cleanly, and writes why.
fn goes_on<'a, R: Abort>(page: &mut Page<'_, R>, left: RollLeft<'a>) -> Life<'a> {
    page.say(&left);
    let Left {
        done,
        ends,
        is_counted: _,
        are_seated: _,
    } = left;
    match done {
        Ok(next) => Life {
            service: next.service,
            recorders: next.recorders,
            ends,
        },
        Err(unended) => Life {
            service: unended.service,
            recorders: unended.recorders,
            ends,
        },
    }
}

// Rolls a service over at 10, and writes what is told.
fn roll_over<'a, R: Abort + Wait>(page: &mut Page<'_, R>, life: Life<'a>) -> Life<'a> {
    let Life {
        service,
        recorders,
        ends,
    } = life;
    match service.roll_over(page.rt, page.alloc, recorders, 10) {
        Ok(next) => {
            page.push("rolled over\n");
            Life {
                service: next.service,
                recorders: next.recorders,
                ends,
            }
        }
        Err(left) => goes_on(page, left),
    }
}

// The first recorder records 5.
fn record<R: Abort + Wait>(rt: &R, life: &mut Life<'_>) {
    let recorder = life.recorders.first_mut().expect(rt, "no recorder");
    let answer = recorder.record(rt, life.service.provider(), 0, &[], 5);
    answer.or_fail(rt)
}

fn take_steps<'a, R: Abort + Wait>(
    page: &mut Page<'_, R>,
    life: Life<'a>,
    steps: &[Step],
) -> Life<'a> {
    let mut life = life;
    for step in steps {
        match step {
            Step::RollOver => life = roll_over(page, life),
            Step::Record => record(page.rt, &mut life),
            Step::Count => page.tell(life.recorders.len()),
        }
    }
    life
}

// Lives a case with a queue. How its outlets ended, with the plan, where it ended.
fn live_case<R: Abort + Wait>(
    page: &mut Page<'_, R>,
    case: &Case,
    queue: &mut Queued<Failing>,
) -> Option<(Vec<ReaderEnd>, Vec<ReaderEnd>, Plan)> {
    let mut service = hit_once(page.rt, page.alloc, 1);
    if case.is_strange {
        let (_, _, strangers) = hit_once(page.rt, page.alloc, 3).into_seats();
        service.readers = strangers;
    }
    let (service, recorders) = told(page, service, "d", queue, case.given);
    let life = Life {
        service,
        recorders,
        ends: Vec::new(page.alloc),
    };
    let life = take_steps(page, life, case.steps);
    let (ends, plan) = end(page, life.service, life.recorders, case.end?)?;
    Some((life.ends, ends, plan))
}

fn tell_case<R: Abort + Wait>(page: &mut Page<'_, R>, case: &Case) {
    let mut queue = Queued::new(page.alloc, failing_at(page.alloc, case.fails_at), case.most);
    if let Some((first, second, plan)) = live_case(page, case, &mut queue) {
        for end in first.iter().chain(&second) {
            export_left(page, &plan, end, &mut queue);
        }
    }
    page.tell((queue.sent(), queue.kept().len()));
    page.tell(queue.inner().taken.as_slice())
}

#[test]
fn each_recording_goes_out_once(rt: HostRuntime) {
    for case in CASES {
        let mut page = Page::new(&rt, rt.alloc());
        tell_case(&mut page, case);
        page.assert(case.told);
    }
}

// Which recorder's seat was lost, what the run came to that went on without it, and what was exported: each recording.
const LOST: &str = "not ended: 1 RecorderMissing: r
[0]
[Total { count: 1, sum: 5 }]
[(10, 1), (20, 1)]
";

// Rolls a service over without a recorder's seat, and goes on in another run, with the same outlets.
fn go_on_without_a_seat<R: Abort + Wait>(page: &mut Page<'_, R>, exporter: &mut Failing) {
    let service = hit_once(page.rt, page.alloc, 1);
    let (service, _lost) = told(page, service, "d", &mut *exporter, 1);
    let left = match service.roll_over(page.rt, page.alloc, Vec::new(page.alloc), 10) {
        Ok(_next) => return,
        Err(left) => left,
    };
    page.say(&left);
    let Left {
        done,
        ends: _ends,
        is_counted: _,
        are_seated: _,
    } = left;
    let unended = match done {
        Ok(_ended) => return,
        Err(unended) => unended,
    };
    let (provider, mut outlets, runs) = unended.service.into_parts();
    match provider.finish_partly(page.rt, page.alloc, Vec::new(page.alloc)) {
        Ok(partly) => page.tell(partly.missing.as_slice()),
        Err((_provider, _recorders, fault)) => page.say(fault),
    }
    let (provider, recorders, mut readers) = hit_once(page.rt, page.alloc, 2).into_seats();
    assert!(page.rt; outlets.begin_each(&mut readers));
    let service = Whole::from_parts(provider, outlets, runs);
    assert!(page.rt; end(page, service, recorders, 20).is_some());
}

// A service of which a seat was lost goes on.
#[test]
fn a_service_goes_on_without_a_seat(rt: HostRuntime) {
    let mut page = Page::new(&rt, rt.alloc());
    let mut exporter = failing_at(rt.alloc(), &[]);
    go_on_without_a_seat(&mut page, &mut exporter);
    page.tell(exporter.taken.as_slice());
    page.assert(LOST);
}

// Each with its start and its time: what the next run collects at 20, and what was exported.
const WINDOWS: &str = "(0, 10)
(10, 20)
";

// Rolls a service over at 10, and collects at 20.
fn collect_twice<R: Abort + Wait>(page: &Page<'_, R>, exporter: &mut KeepingExporter) {
    let service = hit_once(page.rt, page.alloc, 1);
    let (service, recorders) = told(page, service, "d", &mut *exporter, 1);
    let next = service.roll_over(page.rt, page.alloc, recorders, 10);
    let mut next = next.or_fail(page.rt);
    next.service.force_flush(page.rt, page.alloc, 20);
}

// The next run starts where the one that ended was collected from for the last time.
#[test]
fn the_next_run_starts_at_the_moment(rt: HostRuntime) {
    let mut page = Page::new(&rt, rt.alloc());
    let mut exporter = KeepingExporter::new(rt.alloc());
    collect_twice(&page, &mut exporter);
    for batch in exporter.batches() {
        page.tell((batch.start, batch.time));
    }
    page.assert(WINDOWS);
}

// What the outlet exported, failed to, delayed, what was refused to it and not flushed, and what was taken: the two
// recordings, each once, and in the third run, in which there is none, one batch without points.
const OUTLIVED: &str = "(2, 0, 1)
(0, 0)
[(10, 1), (10, 1), (10, 0)]
";

// An outlet over the reader of this service.
fn outlet_of<R: Abort, E: MetricExporter + Drop>(
    rt: &R,
    alloc: Global,
    service: &mut Service,
    exporter: E,
) -> Outlet<E> {
    let seat = service.readers.pop().expect(rt, "no reader");
    match Outlet::new(alloc, service.provider.plan(), seat, exporter, 1) {
        Ok(outlet) => outlet,
        Err(OutletLeft { fault, .. }) => Err(fault).or_fail(rt),
    }
}

// Turns at 10 and 20, and the end of the run at 30.
fn run<R: Wait, E: MetricExporter>(
    rt: &R,
    alloc: Global,
    service: &Service,
    outlet: &mut Outlet<E>,
) -> bool {
    outlet.turn(rt, alloc, &service.provider, Tick::At(10));
    outlet.turn(rt, alloc, &service.provider, Tick::At(20));
    outlet.end_run(rt, alloc, &service.provider, 30).is_clean()
}

// A recording in each of the first two runs of a plan, none in the third, one outlet, and one queue.
fn tell_outlived<R: Abort + Wait>(page: &mut Page<'_, R>) {
    let mut first = hit_once(page.rt, page.alloc, 3);
    let queue = Queued::new(page.alloc, failing_at(page.alloc, &[1]), 4);
    let mut outlet = outlet_of(page.rt, page.alloc, &mut first, queue);
    let mut clean = run(page.rt, page.alloc, &first, &mut outlet);
    let second = hit_once(page.rt, page.alloc, 4);
    let third = Service::new(page.rt, page.alloc, HITS, DELTA, 5);
    for mut service in [second, third] {
        clean = clean && outlet.begin_each(&mut service.readers);
        clean = clean && run(page.rt, page.alloc, &service, &mut outlet);
    }
    assert!(page.rt; clean);
    page.tell((outlet.exported(), outlet.failed(), outlet.delayed()));
    page.tell((outlet.refused(), outlet.unflushed()));
    page.tell(outlet.exporter().inner().taken.as_slice())
}

#[test]
fn an_outlet_outlives_its_run(rt: HostRuntime) {
    let mut page = Page::new(&rt, rt.alloc());
    tell_outlived(&mut page);
    page.assert(OUTLIVED);
}

// A queue of four over an exporter that fails at these calls, the ticks of its outlet, and when the run ends. How many
// batches went out, are kept and were dropped, and how often the exporter was called.
struct Waiting {
    config: &'static str,
    fails_at: &'static [u64],
    ticks: &'static [Tick],
    end: u64,
    told: [u64; 4],
}

const WAITING: &[Waiting] = &[
    // After the first tick nothing is recorded: what is kept is tried again at 20 and at 30.
    Waiting {
        config: DELTA,
        fails_at: &[1, 2],
        ticks: &[Tick::At(10), Tick::At(20), Tick::At(30)],
        end: 40,
        told: [1, 0, 0, 3],
    },
    // A batch comes at each tick, and three are let pass after 30. The tick at 40 was asked for, before the fifth batch
    // drops the first.
    Waiting {
        config: CUMULATIVE,
        fails_at: &[1, 2],
        ticks: &[
            Tick::At(10),
            Tick::At(20),
            Tick::At(30),
            Tick::Woken(40),
            Tick::At(50),
        ],
        end: 60,
        told: [6, 0, 0, 8],
    },
];

fn counts_of<R: Abort + Wait>(rt: &R, alloc: Global, case: &Waiting) -> [u64; 4] {
    let mut service = Service::new(rt, alloc, HITS, case.config, 7);
    service.record(rt, 0, &[], 5);
    let queue = Queued::new(alloc, failing_at(alloc, case.fails_at), 4);
    let mut outlet = outlet_of(rt, alloc, &mut service, queue);
    for tick in case.ticks {
        outlet.turn(rt, alloc, &service.provider, *tick);
    }
    let _end = outlet.end_run(rt, alloc, &service.provider, case.end);
    let queue = outlet.exporter();
    let kept = queue.kept().len() as u64;
    [queue.sent(), kept, queue.dropped(), queue.inner().number]
}

#[test]
fn what_is_kept_is_tried_again_in_time(rt: HostRuntime) {
    for case in WAITING {
        assert_equal(&rt, counts_of(&rt, rt.alloc(), case), case.told);
    }
}

// Of each collection how many batches there are, and what was refused: by another provider, and by its own at 10 and
// at 20.
const COLLECTED: &str = "(0, [RefusedInstrument { instrument: 0, refusal: Stranger }])
(1, [])
(0, [])
";

// Each refusal is told with its instrument, and the seat can be used again.
#[test]
fn each_refused_instrument_is_told(rt: HostRuntime) {
    let mut page = Page::new(&rt, rt.alloc());
    let own = hit_once(&rt, rt.alloc(), 5);
    let other = hit_once(&rt, rt.alloc(), 6);
    let (provider, _recorders, mut seats) = own.into_seats();
    let seat = seats.first_mut().expect(&rt, "no reader");
    for (provider, now) in [(&other.provider, 10), (&provider, 10), (&provider, 20)] {
        let told = collect_each(&rt, rt.alloc(), provider, seat, now).or_fail(&rt);
        page.tell((told.batches.len(), told.refused.as_slice()));
    }
    page.assert(COLLECTED);
}
