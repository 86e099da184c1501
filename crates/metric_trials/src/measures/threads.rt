//! What several threads do at once.
use crate::asserted::{OrFail, Stop, hold};
use crate::measures::Case;
use crate::measures::calls::{Calls, How};
use crate::measures::floors::add_all;
use crate::measures::watch::Watch;
use crate::seats::{Seats, seats_of};
use crate::series::recordings;
use crossbeam_utils::CachePadded;
use metric_marked::Marked;
use metric_provider::{NoGate, Provider, Recorder};
use std::alloc::Global;
use std::sync::Mutex;
use std::sync::atomic::{AtomicU64, Ordering};
use std::thread;
use std::thread::Threads;

// How often a thread looks whether the others have started.
const TURNS: u32 = 1_000_000;

// How many recordings there are in a round: whole lists.
const ROUND: u32 = 1_008;

// A seat, and what it records.
#[derive(Drop)]
struct Caller<'a> {
    provider: &'a Provider<Marked, NoGate>,
    recorder: Recorder,
    calls: Calls<'a>,
}

impl Caller<'_> {
    // Makes about so many recordings. How many there were.
    fn record<R: Stop>(&mut self, rt: &R, events: u32) -> u64 {
        let calls = self.calls;
        if calls.how == How::Attributes {
            return calls.record_each(rt, self.provider, &mut self.recorder, events);
        }
        calls.repeat(rt, self.provider, &mut self.recorder, events / ROUND)
    }
}

// What a thread does.
#[derive(Drop)]
enum Task<'a> {
    // So many recordings.
    Record(Caller<'a>),
    // So many additions under a lock.
    Add(&'a Mutex<u64>),
}

// A thread's task, how many nanoseconds it took, and a number that depends on all of it.
#[derive(Drop)]
struct Runner<'a> {
    task: Task<'a>,
    took: u64,
    number: u64,
}

// What threads share that do their tasks at once.
#[derive(Drop)]
struct Race {
    threads: u64,
    // How many of them have started.
    started: AtomicU64,
    // How often each does its task.
    events: u32,
}

impl Race {
    // Waits until all threads have started, or for a while.
    fn wait_for_all(&self) {
        self.started.fetch_add(1, Ordering::SeqCst);
        for _ in 0..TURNS {
            if self.started.load(Ordering::SeqCst) >= self.threads {
                break;
            }
            thread::yield_now();
        }
    }
}

impl<'a> Runner<'a> {
    // Nothing came of the task yet.
    fn new(task: Task<'a>) -> Runner<'a> {
        Runner {
            task,
            took: 0,
            number: 0,
        }
    }

    // Does the task, once all threads have started.
    fn run<R: Stop>(&mut self, rt: &R, race: &Race) {
        race.wait_for_all();
        let mut watch = Watch::new(rt);
        self.number = self.task.work(rt, race.events);
        watch.stop(rt);
        self.took = watch.taken;
    }
}

impl Task<'_> {
    // Does it. A number that depends on all of it.
    fn work<R: Stop>(&mut self, rt: &R, events: u32) -> u64 {
        match self {
            Task::Record(caller) => caller.record(rt, events),
            Task::Add(sum) => add_all(rt, *sum, events),
        }
    }
}

// Lets each runner do its task in a thread of its own, and takes the time of the one that takes longest.
fn run_all<R: Threads + Sync + Stop>(
    rt: &R,
    runners: &mut Vec<Runner<'_>>,
    events: u32,
    watch: &mut Watch,
) -> u64 {
    let count = runners.len();
    hold(rt, count > 0, "a thread is there");
    let race = Race {
        threads: count as u64,
        started: AtomicU64::new(0),
        events,
    };
    let race = &race;
    thread::for_each_mut(
        rt,
        runners.as_mut_slice(),
        count,
        &|_, runner: &mut Runner<'_>| { runner.run(rt, race) },
    );
    let mut longest = 0;
    let mut number: u64 = 0;
    for runner in runners.iter() {
        longest = runner.took.max(longest);
        number = number.wrapping_add(runner.number);
    }
    watch.set(longest, u64::from(events));
    number
}

/// Lets threads record on one instrument, in a lane each or on an instrument each, or add under one lock or each under
/// its own. A number that depends on all of it; nothing for an unknown act.
pub(crate) fn done<R: Threads + Sync + Stop>(
    rt: &R,
    alloc: Global,
    case: &Case<'_>,
    watch: &mut Watch,
) -> Option<u64> {
    match case.act {
        "one" | "own" => Some(record_together(rt, alloc, case, 1, watch)),
        "lane" => Some(record_together(rt, alloc, case, case.threads, watch)),
        "lock-one" | "lock-own" => Some(add_together(rt, alloc, case, watch)),
        _ => None,
    }
}

// Lets so many threads record, once each series of the first instrument is held.
fn record_together<R: Threads + Sync + Stop>(
    rt: &R,
    alloc: Global,
    case: &Case<'_>,
    lanes: u32,
    watch: &mut Watch,
) -> u64 {
    let recordings = recordings(rt, alloc, ROUND, case.size);
    let mut seats = held_seats(rt, alloc, case, lanes);
    let provider = &seats.provider;
    let mut runners = Vec::new(alloc);
    for thread in 0..case.threads {
        let recorder = seats.recorders.pop().or_fail(rt);
        let calls = Calls {
            how: case.how,
            instrument: if case.act == "own" { thread } else { 0 },
            series: case.size,
            recordings: &recordings,
        };
        let caller = Caller {
            provider,
            recorder,
            calls,
        };
        runners
            .push(Runner::new(Task::Record(caller)))
            .ok()
            .or_fail(rt);
    }
    run_all(rt, &mut runners, case.events, watch)
}

// Seats of which the last recorder has recorded each series.
fn held_seats<R: Stop>(rt: &R, alloc: Global, case: &Case<'_>, lanes: u32) -> Seats<Marked> {
    let mut seats: Seats<Marked> = seats_of(rt, alloc, case.input.plan(rt, alloc), lanes);
    let recorder = seats.recorders.last_mut().or_fail(rt);
    let calls = Calls {
        how: How::Attributes,
        instrument: 0,
        series: case.size,
        recordings: &[],
    };
    calls.repeat(rt, &seats.provider, recorder, 1);
    seats
}

// Lets so many threads add, each under a lock of its own or all under one.
fn add_together<R: Threads + Sync + Stop>(
    rt: &R,
    alloc: Global,
    case: &Case<'_>,
    watch: &mut Watch,
) -> u64 {
    let mut sums = Vec::new(alloc);
    for _ in 0..case.threads {
        let sum: CachePadded<Mutex<u64>> = CachePadded::new(Mutex::new(0));
        sums.push(sum).ok().or_fail(rt);
    }
    let mut runners = Vec::new(alloc);
    for thread in 0..sums.len() {
        let at = if case.act == "lock-own" { thread } else { 0 };
        let task = Task::Add(sums.get(at).or_fail(rt));
        runners.push(Runner::new(task)).ok().or_fail(rt);
    }
    run_all(rt, &mut runners, case.events, watch)
}
