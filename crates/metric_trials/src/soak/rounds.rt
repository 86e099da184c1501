//! A round: all threads at once, and what they come to.
use crate::asserted::{OrFail, Stop, hold};
use crate::inputs::Input;
use crate::seats::{Seats, started};
use crate::soak::ends::{Ended, settle};
use crate::soak::figures::{Figures, ROUNDS};
use crate::soak::reading::{Signs, Watcher};
use crate::soak::recording::Worker;
use metric_history::Book;
use metric_provider::{Collector, NoGate, Provider, Recorder};
use std::alloc::Global;
use std::sync::atomic::{AtomicU64, Ordering};
use std::thread;
use std::thread::Threads;
use std::time::Instant;

/// What all rounds have.
#[derive(Drop)]
pub(crate) struct Setup {
    pub input: Input,
    /// How many lanes an instrument may have.
    pub lanes: u32,
}

// What a thread does.
#[derive(Drop)]
enum Runner {
    Record(Worker),
    Read(Watcher),
}

impl Runner {
    fn run<R: Stop, B: Book>(
        &mut self,
        rt: &R,
        alloc: Global,
        provider: &Provider<B, NoGate>,
        signs: &Signs,
    ) {
        match self {
            Runner::Record(worker) => {
                worker.work(rt, provider, signs.events);
                signs.left.fetch_sub(1, Ordering::SeqCst);
            }
            Runner::Read(watcher) => watcher.watch(rt, alloc, provider, signs),
        }
    }
}

/// Makes a round of so many recordings of each recorder, whose number of a run no other has, and compares what came of
/// it. Its figures are added.
pub(crate) fn round<R: Threads + Sync + Stop, B: Book + Send + Sync>(
    rt: &R,
    alloc: Global,
    setup: &Setup,
    events: u32,
    figures: &mut Figures,
) {
    figures.add(ROUNDS, 1);
    let plan = setup.input.plan(rt, alloc);
    let seats = started(rt, alloc, plan, figures.rounds(), setup.lanes);
    let seats: Seats<B> = seats.ok().or_fail(rt);
    let (provider, recorders, collectors) = seats.into_all();
    let signs = Signs {
        began: Instant::now(rt).or_fail(rt),
        left: AtomicU64::new(recorders.len() as u64),
        events,
    };
    let mut runners = runners_of(rt, alloc, recorders, collectors);
    run_all(rt, alloc, &provider, &mut runners, &signs);
    let plan = setup.input.plan(rt, alloc);
    settle(
        rt,
        alloc,
        provider,
        ended_of(rt, alloc, runners),
        &plan,
        figures,
    );
}

// The recorders come first: where a thread can not be started, its work is done after that of those before it, and
// readers go on until all recorders have ended.
fn runners_of<R: Stop>(
    rt: &R,
    alloc: Global,
    recorders: Vec<Recorder>,
    collectors: Vec<Collector>,
) -> Vec<Runner> {
    let mut runners = Vec::new(alloc);
    for recorder in recorders {
        let runner = Runner::Record(Worker::new(recorder));
        runners.push(runner).ok().or_fail(rt);
    }
    for collector in collectors {
        let runner = Runner::Read(Watcher::new(rt, alloc, collector));
        runners.push(runner).ok().or_fail(rt);
    }
    runners
}

// Lets each runner do its work in a thread of its own.
fn run_all<R: Threads + Sync + Stop, B: Book + Send + Sync>(
    rt: &R,
    alloc: Global,
    provider: &Provider<B, NoGate>,
    runners: &mut Vec<Runner>,
    signs: &Signs,
) {
    let count = runners.len();
    hold(rt, count > 0, "a seat is there");
    thread::for_each_mut(
        rt,
        runners.as_mut_slice(),
        count,
        &|_, runner: &mut Runner| { runner.run(rt, alloc, provider, signs) },
    );
}

fn ended_of<R: Stop>(rt: &R, alloc: Global, runners: Vec<Runner>) -> Ended {
    let mut ended = Ended {
        workers: Vec::new(alloc),
        watchers: Vec::new(alloc),
    };
    for runner in runners {
        match runner {
            Runner::Record(worker) => ended.workers.push(worker).ok().or_fail(rt),
            Runner::Read(watcher) => ended.watchers.push(watcher).ok().or_fail(rt),
        }
    }
    ended
}
