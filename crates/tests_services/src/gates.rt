//! What is done inside a lock: a step that is held there, and a recording of another instrument or of the same
//! meanwhile; and that each step of a provider is told there.
use crate::asserted::{OrFail, assert_equal};
use crate::samples::{MAIN, PAIR};
use metric_contents::Refusal;
use metric_marked::Marked;
use metric_provider::{Collector, Gate, Measurement, Provider, Recorder, start, start_with_lanes};
use metric_sdk::certified_plan;
use std::alloc::Global;
use std::process::Abort;
use std::sync::Wait;
use std::sync::atomic::{AtomicBool, AtomicU64, Ordering};
use std::thread;
use std::thread::{Threads, join};

// How often a thread looks at most at what is to come.
const TURNS: u32 = 1_000_000;

// How often at what is not: each look hands the processor on, and on a busy machine takes long. At each recording of a
// list it is a quarter of that.
const HELD_TURNS: u32 = 400;

// Two counters. The second recorder has no budget on the first one, and could record there by its spare alone.
const SHARED: &str = "format = 2
[[meter]]
name = 'm'
instrument = [
    { name = 'A', kind = 'counter', range = [0, 3], spare = 1 },
    { name = 'B', kind = 'counter', range = [0, 3] },
]
[[recorder]]
name = 'r0'
budget = [{ instrument = 0, amount = 10 }]
[[recorder]]
name = 'r1'
budget = [{ instrument = 1, amount = 10 }]
";

// How many steps were made, whether the first instrument was entered, whether the second thread was answered, and
// whether a step that was held saw another one or that answer; how many steps are held, and how often each looks.
#[derive(Drop)]
struct Flags {
    steps: AtomicU64,
    is_inside: AtomicBool,
    is_answered: AtomicBool,
    is_seen: AtomicBool,
    held: u64,
    turns: u32,
}

fn flags_for(case: &Case) -> Flags {
    let is_list = matches!(case.step, Step::List);
    Flags {
        steps: AtomicU64::new(0),
        is_inside: AtomicBool::new(false),
        is_answered: AtomicBool::new(false),
        is_seen: AtomicBool::new(false),
        held: if is_list { LIST.len() as u64 } else { 1 },
        turns: match (case.is_seen, is_list) {
            (true, _) => TURNS,
            (false, true) => HELD_TURNS / 4,
            (false, false) => HELD_TURNS,
        },
    }
}

// Waits until the first instrument is entered.
fn wait_inside(flags: &Flags) {
    for _ in 0..TURNS {
        if flags.is_inside.load(Ordering::SeqCst) {
            return;
        }
        thread::yield_now();
    }
}

// Whether a step after those so far is made in time, or the second thread is answered.
fn is_passed(flags: &Flags, so_far: u64) -> bool {
    for _ in 0..flags.turns {
        if flags.is_answered.load(Ordering::SeqCst) || flags.steps.load(Ordering::SeqCst) > so_far {
            return true;
        }
        thread::yield_now();
    }
    false
}

// Holds the first steps, which are on the first instrument, until another one is made, so many turns at most.
#[derive(Clone, Copy, Drop)]
struct Holding<'a> {
    flags: &'a Flags,
}

impl Gate for Holding<'_> {
    fn inside<R: Wait>(&self, _rt: &R, instrument: u32) {
        let before = self.flags.steps.fetch_add(1, Ordering::SeqCst);
        if instrument == 0 && before < self.flags.held {
            self.flags.is_inside.store(true, Ordering::SeqCst);
            if is_passed(self.flags, before.wrapping_add(1)) {
                self.flags.is_seen.store(true, Ordering::SeqCst);
            }
        }
    }
}

type Held<'a> = Provider<Marked, Holding<'a>>;

// A step on the first instrument: a recording, a list, a collection, its end, or a grant.
#[derive(Clone, Copy)]
enum Step {
    Record,
    List,
    Collect,
    Close,
    Grant,
}

const ONE: Measurement = Measurement {
    set: [0; 8],
    value: 1,
};

// So many that a thread which waits gets a lock that is let go between them.
const LIST: [Measurement; 8] = [ONE; 8];

// Makes a step on the first instrument.
fn make_first<R: Wait>(
    rt: &R,
    alloc: Global,
    provider: &Held<'_>,
    (seat, reader): (Recorder, Collector),
    step: Step,
) -> Result<(), Refusal> {
    let (mut seat, mut reader) = (seat, reader);
    match step {
        Step::Record => seat.record(rt, provider, 0, &[], 1),
        Step::List => match seat.record_sets(rt, provider, 0, &LIST) {
            Ok(()) => Ok(()),
            Err(fault) => Err(fault.refusal),
        },
        Step::Collect => match reader.collect(rt, alloc, provider, 0, 10) {
            Ok(_) => Ok(()),
            Err(refusal) => Err(refusal),
        },
        Step::Close => provider.close(rt, 0),
        Step::Grant => provider.grant(rt, 0, 0, 0),
    }
}

// Records on an instrument while the first one is held, and tells that it was answered.
fn record_second<R: Wait>(
    rt: &R,
    provider: &Held<'_>,
    seat: Recorder,
    instrument: u32,
    flags: &Flags,
) -> Result<(), Refusal> {
    wait_inside(flags);
    let mut seat = seat;
    let answer = seat.record(rt, provider, instrument, &[], 1);
    flags.is_answered.store(true, Ordering::SeqCst);
    answer
}

type Answers = (Result<(), Refusal>, Result<(), Refusal>);

// What both threads are answered.
fn both_answers<R: Abort + Threads + Wait + Sync>(
    rt: &R,
    alloc: Global,
    provider: &Held<'_>,
    (mut seats, mut readers): (Vec<Recorder>, Vec<Collector>),
    case: &Case,
    flags: &Flags,
) -> Answers {
    let (Some(second), Some(first)) = (seats.pop(), seats.pop()) else {
        panic!(rt; "no two recorders");
    };
    let Some(reader) = readers.pop() else {
        panic!(rt; "no reader");
    };
    let (step, instrument) = (case.step, case.instrument);
    join(
        rt,
        move || make_first(rt, alloc, provider, (first, reader), step),
        move || record_second(rt, provider, second, instrument, flags),
    )
}

type Seated<'a> = (Held<'a>, Vec<Recorder>, Vec<Collector>);

// A provider in its first run, with its seats.
fn seated<'a, R: Abort + Wait>(rt: &R, alloc: Global, lanes: u32, flags: &'a Flags) -> Seated<'a> {
    let plan = certified_plan(alloc, SHARED, MAIN).or_fail(rt);
    match start_with_lanes(rt, alloc, plan, 0, 0, Holding { flags }, lanes) {
        Ok(seated) => seated,
        Err((_, _, refused)) => Err(refused).or_fail(rt),
    }
}

// The same in its third run, where an end in the first one was refused.
fn rolled_over<'a, R: Abort + Wait>(rt: &R, alloc: Global, seated: Seated<'a>) -> Seated<'a> {
    let (provider, mut recorders, mut readers) = seated;
    let Err((mut provider, _, _)) = provider.finish(rt, alloc, Vec::new(alloc)) else {
        panic!(rt; "finished without seats");
    };
    for run in 1..3 {
        match provider.roll_over(rt, alloc, recorders, 0, run) {
            Ok(next) => (provider, recorders, readers) = (
                next.provider,
                next.recorders,
                next.collectors,
            ),
            Err(_) => panic!(rt; "not rolled over"),
        }
    }
    (provider, recorders, readers)
}

// What they are answered by a provider whose first instrument is held.
fn answers<R: Abort + Threads + Wait + Sync>(
    rt: &R,
    alloc: Global,
    case: &Case,
    flags: &Flags,
) -> Answers {
    let (provider, recorders, readers) = seated(rt, alloc, case.lanes, flags);
    both_answers(rt, alloc, &provider, (recorders, readers), case, flags)
}

// How many lanes an instrument may have, of which each thread records in its own; the step of the first thread, the
// instrument of the second one's recording with its answer, and whether that is made while the first one is held: for a
// list, at its last recording.
struct Case {
    lanes: u32,
    step: Step,
    instrument: u32,
    answer: Result<(), Refusal>,
    is_seen: bool,
}

const CASES: &[Case] = &[
    Case {
        lanes: 1,
        step: Step::Record,
        instrument: 1,
        answer: Ok(()),
        is_seen: true,
    },
    Case {
        lanes: 1,
        step: Step::Record,
        instrument: 0,
        answer: Err(Refusal::Budget),
        is_seen: false,
    },
    Case {
        lanes: 1,
        step: Step::List,
        instrument: 0,
        answer: Err(Refusal::Budget),
        is_seen: false,
    },
    Case {
        lanes: 1,
        step: Step::Collect,
        instrument: 0,
        answer: Err(Refusal::Budget),
        is_seen: false,
    },
    Case {
        lanes: 1,
        step: Step::Close,
        instrument: 0,
        answer: Err(Refusal::Closed),
        is_seen: false,
    },
    Case {
        lanes: 1,
        step: Step::Grant,
        instrument: 0,
        answer: Err(Refusal::Budget),
        is_seen: false,
    },
    Case {
        lanes: 2,
        step: Step::Record,
        instrument: 0,
        answer: Err(Refusal::Budget),
        is_seen: true,
    },
    Case {
        lanes: 2,
        step: Step::Collect,
        instrument: 0,
        answer: Err(Refusal::Budget),
        is_seen: false,
    },
    Case {
        lanes: 2,
        step: Step::Close,
        instrument: 0,
        answer: Err(Refusal::Closed),
        is_seen: false,
    },
    Case {
        lanes: 2,
        step: Step::Grant,
        instrument: 0,
        answer: Err(Refusal::Budget),
        is_seen: false,
    },
];

#[test]
fn a_held_instrument_keeps_its_own_steps(rt: HostRuntime) {
    for case in CASES {
        let flags = flags_for(case);
        let answers = answers(&rt, rt.alloc(), case, &flags);
        let is_seen = flags.is_seen.load(Ordering::SeqCst);
        assert_equal(
            &rt,
            (answers, is_seen),
            ((Ok(()), case.answer), case.is_seen),
        );
    }
}

#[test]
fn each_run_has_as_many_lanes(rt: HostRuntime) {
    for case in CASES {
        let flags = flags_for(case);
        let first = seated(&rt, rt.alloc(), case.lanes, &flags);
        let (provider, _recorders, _readers) = rolled_over(&rt, rt.alloc(), first);
        assert_equal(&rt, provider.lanes(0), case.lanes as usize);
    }
}

// Keeps which instruments were stepped on, in order: a digit each, one above the instrument's number.
#[derive(Clone, Copy, Drop)]
struct Listing<'a> {
    steps: &'a AtomicU64,
}

impl Gate for Listing<'_> {
    fn inside<R: Wait>(&self, _rt: &R, instrument: u32) {
        let step = u64::from(instrument) + 1;
        let so_far = self.steps.load(Ordering::SeqCst);
        self.steps.store(so_far.wrapping_mul(10).wrapping_add(step), Ordering::SeqCst);
    }
}

type Listed<'a> = Provider<Marked, Listing<'a>>;

// Records on the second instrument, and a list of two on the first.
fn record_all<R: Abort + Wait>(rt: &R, provider: &Listed<'_>, seat: &mut Recorder) {
    seat.record(rt, provider, 1, &[], 1).or_fail(rt);
    seat.record_sets(rt, provider, 0, &[ONE, ONE]).or_fail(rt);
}

// Makes a step of each kind: recordings, a collection of the second instrument, the end of the first, and a grant on
// the second.
fn make_steps<R: Abort + Wait>(
    rt: &R,
    alloc: Global,
    provider: &Listed<'_>,
    recorders: &mut [Recorder],
    readers: &mut [Collector],
) {
    for seat in recorders.iter_mut() {
        record_all(rt, provider, seat);
    }
    for seat in readers.iter_mut() {
        seat.collect(rt, alloc, provider, 1, 10).or_fail(rt);
    }
    provider.close(rt, 0).or_fail(rt);
    provider.grant(rt, 0, 1, 0).or_fail(rt);
}

fn steps_into<R: Abort + Wait>(rt: &R, alloc: Global, steps: &AtomicU64) {
    let plan = certified_plan(alloc, PAIR, MAIN).or_fail(rt);
    match start(rt, alloc, plan, 0, 0, Listing { steps }) {
        Ok((provider, mut recorders, mut readers)) => {
            make_steps(rt, alloc, &provider, &mut recorders, &mut readers)
        }
        Err((_, _, refused)) => Err(refused).or_fail(rt),
    }
}

#[test]
fn each_step_is_told_inside(rt: HostRuntime) {
    let steps = AtomicU64::new(0);
    steps_into(&rt, rt.alloc(), &steps);
    assert_equal(&rt, steps.load(Ordering::SeqCst), 211_211_212);
}
