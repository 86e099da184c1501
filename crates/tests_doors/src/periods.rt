//! Runs of a periodic reader: what is exported, by exporters that write, keep, try again and fail; how the run is
//! counted; and a reader that is woken.
ghost use Rattle.std.specs.Prelude.{[], ◌∷◌};

use crate::asserted::{OrFail, assert_equal};
use crate::failing::{failing_at, points_of, sink_of, unsteady};
use crate::page::Page;
use crate::services::{DELTA, Service, hit_once};
use metric_sdk::{
    Batch, Broken, ClockTicker, Collector, CutSink, Encoding, KeepingExporter, ListTicker,
    MetricExporter, OpenSink, Periodic, Plan, Queued, ReopeningExporter, RunningCounts, StopCause,
    StopFlag, TextExporter, Tick,
};
use std::alloc::{AllocError, Global};
use std::process::Abort;
use std::sync::Wait;
use std::thread::{self, Threads, join};
use std::time::Clock;

const TICKS: &[Tick] = &[Tick::At(10), Tick::At(20), Tick::Stop(30, StopCause::Flag)];

// A stop before the first tick; what comes after it is never asked for.
const STOP: &[Tick] = &[Tick::Stop(10, StopCause::Clock), Tick::At(20)];

const MANY_TICKS: &[Tick] = &[
    Tick::At(10),
    Tick::At(20),
    Tick::At(30),
    Tick::At(40),
    Tick::At(50),
    Tick::Stop(60, StopCause::Flag),
];

// Two counters.
const PAIR: &str = "format = 1
[[meter]]
name = 'm'
instrument = [
    { name = 'A', kind = 'counter', range = [0, 3] },
    { name = 'B', kind = 'counter', range = [0, 3] },
]
[[recorder]]
name = 'r'
budget = [{ instrument = 0, amount = 9 }, { instrument = 1, amount = 9 }]
";

// Of which provider the delta reader collects: its own, after a recording of 5; one of another run, which refuses it at
// once; or one of two counters, after a recording of 3 on the first, that refuses it at the second one, of which its
// seat has seen a recording.
#[derive(Clone, Copy)]
enum Of {
    Own,
    Elsewhere,
    Half,
}

// The exporter of a delta reader's run.
#[derive(Drop)]
enum Exporter {
    // A queue of so many batches at most over an exporter that fails at these calls. It is lent: so each call of one
    // that is lent is made.
    Queue(usize, &'static [u64]),
    // One that keeps batches, which is lent and is there afterwards, or is handed in.
    KeepingLent,
    Keeping,
    // A queue of four over an exporter to sinks with this room, one after the other.
    Rooms(&'static [usize]),
    // An encoding by which a batch is one point, to one sink or to sinks with this room.
    Dots,
    DotsIn(&'static [usize]),
    // An exporter of texts to a sink that has so much room, and of which flushes work or not.
    Text(Option<usize>, bool),
    // An exporter of a user's own that fails at these calls, and one that also keeps a batch and fails flushes.
    Failing(&'static [u64]),
    Unsteady,
}

// A provider, the ticks of its reader, how many turns there are at most, and an exporter. What is told: how many exports
// went out at once, were refused and were kept, how many collections were refused, and how many flushes failed; why the
// run stopped, if not after its turns; and whether the reader is handed back. Then of a queue how many batches went out,
// are kept, were dropped, and were refused and not kept; and what was taken, or what the last sink holds.
#[derive(Drop)]
struct Case {
    of: Of,
    ticks: &'static [Tick],
    turns: u32,
    exporter: Exporter,
    told: &'static str,
}

const OWN: Case = Case {
    of: Of::Own,
    ticks: TICKS,
    turns: 9,
    exporter: Exporter::KeepingLent,
    told: "",
};

// After a try that failed the next export of a queue is let pass, and the reader's end tries at once.
const KEPT: &[Case] = &[
    Case {
        exporter: Exporter::Queue(4, &[]),
        told: "([3, 0, 0, 0, 0], Some(Flag), false)
[3, 0, 0, 0]
[(10, 1), (20, 0), (30, 0)]
",
        ..OWN
    },
    // The second is let pass.
    Case {
        exporter: Exporter::Queue(4, &[1]),
        told: "([1, 0, 2, 0, 0], Some(Flag), false)
[3, 0, 0, 0]
[(10, 1), (20, 0), (30, 0)]
",
        ..OWN
    },
    // The first goes out when the third comes, and the others at the end.
    Case {
        exporter: Exporter::Queue(4, &[1, 3]),
        told: "([0, 0, 3, 0, 0], Some(Flag), false)
[3, 0, 0, 0]
[(10, 1), (20, 0), (30, 0)]
",
        ..OWN
    },
    Case {
        exporter: Exporter::Queue(1, &[1, 2]),
        told: "([0, 0, 3, 0, 0], Some(Flag), false)
[1, 0, 2, 0]
[(30, 0)]
",
        ..OWN
    },
    Case {
        exporter: Exporter::Queue(4, &[3]),
        told: "([2, 0, 1, 0, 0], Some(Flag), false)
[3, 0, 0, 0]
[(10, 1), (20, 0), (30, 0)]
",
        ..OWN
    },
    Case {
        exporter: Exporter::Queue(2, &[1, 2, 3]),
        told: "([0, 0, 3, 0, 0], Some(Flag), false)
[0, 2, 1, 0]
[]
",
        ..OWN
    },
    Case {
        exporter: Exporter::Queue(0, &[1]),
        told: "([2, 1, 0, 0, 0], Some(Flag), false)
[2, 0, 0, 1]
[(20, 0), (30, 0)]
",
        ..OWN
    },
    Case {
        exporter: Exporter::KeepingLent,
        told: "[3, 0, 0]
(10, 1)
(20, 0)
(30, 0)
",
        ..OWN
    },
    Case {
        exporter: Exporter::Keeping,
        told: "([3, 0, 0, 0, 0], Some(Flag), false)
(10, 1)
(20, 0)
(30, 0)
",
        ..OWN
    },
    // A queue writes to a sink that is opened anew, and the last sink holds the texts of the three batches.
    Case {
        exporter: Exporter::Rooms(&[1_000]),
        told: "([3, 0, 0, 0, 0], Some(Flag), false)
collected 10 1
stream reader=\"d\" meter=\"m\" version=\"\" schema=\"\" name=\"hits\" unit=\"\" description=\"\" kind=sum monotonic=yes temporality=delta
point {} start=0 time=10 value=5
collected 20 0
collected 30 0
",
        ..OWN
    },
    Case {
        exporter: Exporter::Rooms(&[20, 1_000]),
        told: "([1, 0, 2, 0, 0], Some(Flag), false)
collected 10 1
stream reader=\"d\" meter=\"m\" version=\"\" schema=\"\" name=\"hits\" unit=\"\" description=\"\" kind=sum monotonic=yes temporality=delta
point {} start=0 time=10 value=5
collected 20 0
collected 30 0
",
        ..OWN
    },
    Case {
        exporter: Exporter::Rooms(&[20, 3, 1_000]),
        told: "([0, 0, 3, 0, 0], Some(Flag), false)
collected 10 1
stream reader=\"d\" meter=\"m\" version=\"\" schema=\"\" name=\"hits\" unit=\"\" description=\"\" kind=sum monotonic=yes temporality=delta
point {} start=0 time=10 value=5
collected 20 0
collected 30 0
",
        ..OWN
    },
    Case {
        exporter: Exporter::Rooms(&[20]),
        told: "([0, 0, 3, 0, 0], Some(Flag), false)
",
        ..OWN
    },
    // Batches are written in an encoding.
    Case {
        exporter: Exporter::Dots,
        told: "([3, 0, 0, 0, 0], Some(Flag), false)
...",
        ..OWN
    },
    Case {
        exporter: Exporter::DotsIn(&[1, 9]),
        told: "([2, 1, 0, 0, 0], Some(Flag), false)
.",
        ..OWN
    },
];

// What exporters write that keep nothing, and how the run is counted.
const EXPORTED: &[Case] = &[
    // Batches are written as texts, up to the stop or the last turn.
    Case {
        exporter: Exporter::Text(None, true),
        told: "([3, 0, 0, 0, 0], Some(Flag), false)
collected 10 1
stream reader=\"d\" meter=\"m\" version=\"\" schema=\"\" name=\"hits\" unit=\"\" description=\"\" kind=sum monotonic=yes temporality=delta
point {} start=0 time=10 value=5
collected 20 0
collected 30 0
",
        ..OWN
    },
    Case {
        turns: 2,
        exporter: Exporter::Text(None, true),
        told: "([3, 0, 0, 0, 0], None, false)
collected 10 1
stream reader=\"d\" meter=\"m\" version=\"\" schema=\"\" name=\"hits\" unit=\"\" description=\"\" kind=sum monotonic=yes temporality=delta
point {} start=0 time=10 value=5
collected 20 0
collected 20 0
",
        ..OWN
    },
    Case {
        turns: 1,
        exporter: Exporter::Text(None, true),
        told: "([2, 0, 0, 0, 0], None, false)
collected 10 1
stream reader=\"d\" meter=\"m\" version=\"\" schema=\"\" name=\"hits\" unit=\"\" description=\"\" kind=sum monotonic=yes temporality=delta
point {} start=0 time=10 value=5
collected 10 0
",
        ..OWN
    },
    Case {
        turns: 0,
        exporter: Exporter::Text(None, true),
        told: "([1, 0, 0, 0, 0], None, false)
collected 0 1
stream reader=\"d\" meter=\"m\" version=\"\" schema=\"\" name=\"hits\" unit=\"\" description=\"\" kind=sum monotonic=yes temporality=delta
point {} start=0 time=0 value=5
",
        ..OWN
    },
    Case {
        ticks: STOP,
        exporter: Exporter::Text(None, true),
        told: "([1, 0, 0, 0, 0], Some(Clock), false)
collected 10 1
stream reader=\"d\" meter=\"m\" version=\"\" schema=\"\" name=\"hits\" unit=\"\" description=\"\" kind=sum monotonic=yes temporality=delta
point {} start=0 time=10 value=5
",
        ..OWN
    },
    Case {
        exporter: Exporter::Text(None, false),
        told: "([1, 3, 0, 0, 2], Some(Flag), false)
collected 10 1
stream reader=\"d\" meter=\"m\" version=\"\" schema=\"\" name=\"hits\" unit=\"\" description=\"\" kind=sum monotonic=yes temporality=delta
point {} start=0 time=10 value=5
",
        ..OWN
    },
    Case {
        exporter: Exporter::Text(Some(20), true),
        told: "([0, 4, 0, 0, 2], Some(Flag), false)
collected 10 1
strea",
        ..OWN
    },
    // A provider refuses the reader, at once or half way.
    Case {
        of: Of::Elsewhere,
        exporter: Exporter::Text(None, true),
        told: "([0, 0, 0, 3, 0], Some(Flag), true)
",
        ..OWN
    },
    Case {
        of: Of::Half,
        exporter: Exporter::Text(None, true),
        told: "([3, 0, 0, 3, 0], Some(Flag), true)
collected 10 1
stream reader=\"d\" meter=\"m\" version=\"\" schema=\"\" name=\"A\" unit=\"\" description=\"\" kind=sum monotonic=yes temporality=delta
point {} start=0 time=10 value=3
collected 20 0
collected 30 0
",
        ..OWN
    },
    // An exporter of a user's own that failed goes on.
    Case {
        exporter: Exporter::Failing(&[]),
        told: "([3, 0, 0, 0, 0], Some(Flag), false)
[(10, 1), (20, 0), (30, 0)]
",
        ..OWN
    },
    Case {
        exporter: Exporter::Failing(&[1]),
        told: "([2, 1, 0, 0, 0], Some(Flag), false)
[(20, 0), (30, 0)]
",
        ..OWN
    },
    Case {
        exporter: Exporter::Failing(&[2]),
        told: "([2, 1, 0, 0, 0], Some(Flag), false)
[(10, 1), (30, 0)]
",
        ..OWN
    },
    Case {
        exporter: Exporter::Failing(&[3]),
        told: "([2, 1, 0, 0, 0], Some(Flag), false)
[(10, 1), (20, 0)]
",
        ..OWN
    },
    // Each count is told in its place.
    Case {
        ticks: MANY_TICKS,
        exporter: Exporter::Unsteady,
        told: "([3, 2, 1, 0, 5], Some(Flag), false)
[(10, 1), (20, 0), (30, 0)]
",
        ..OWN
    },
    Case {
        of: Of::Elsewhere,
        ticks: MANY_TICKS,
        exporter: Exporter::Unsteady,
        told: "([0, 0, 0, 6, 5], Some(Flag), true)
[]
",
        ..OWN
    },
];

// A counter after a recording of 3, in a plan of two.
fn pair_after_hit<R: Abort + Wait>(rt: &R, alloc: Global, instrument: u32) -> Service {
    let mut service = Service::new(rt, alloc, PAIR, DELTA, 1);
    service.record(rt, instrument, &[], 3);
    service
}

// A provider with its seats, and the delta reader's seat that collects of it.
fn served<R: Abort + Wait>(rt: &R, alloc: Global, of: Of) -> (Service, Collector) {
    let mut own = match of {
        Of::Half => pair_after_hit(rt, alloc, 1),
        _ => hit_once(rt, alloc, 70),
    };
    let mut reader = own.readers.pop().expect(rt, "no reader");
    match of {
        Of::Own => (own, reader),
        Of::Elsewhere => (hit_once(rt, alloc, 71), reader),
        Of::Half => {
            reader.collect(rt, alloc, &own.provider, 1, 0).or_fail(rt);
            (pair_after_hit(rt, alloc, 0), reader)
        }
    }
}

// Runs a delta reader, and writes what became of its batches, as its end tells it; other threads read the same counts.
fn run<R: Abort + Wait, E: MetricExporter + Drop>(
    page: &mut Page<'_, R>,
    case: &Case,
    exporter: E,
) -> E {
    let (service, reader) = served(page.rt, page.alloc, case.of);
    let mut ticker = ListTicker::new(case.ticks);
    let counts = RunningCounts::new();
    let end = Periodic::new(exporter, case.turns).run_counted(
        page.rt,
        page.alloc,
        &service.provider,
        reader,
        &mut ticker,
        &counts,
    );
    let running = [
        counts.exported(),
        counts.failed(),
        counts.delayed(),
        counts.refused(),
        counts.unflushed(),
    ];
    let ended = [
        end.exported,
        end.failed,
        end.delayed,
        end.refused,
        end.unflushed,
    ];
    assert_equal(page.rt, running, ended);
    page.tell((ended, end.stopped, end.kept.is_some()));
    end.exporter
}

// The same of the provider's own reader, for an exporter that may be lent.
fn run_own<R: Abort + Wait, E: MetricExporter + Drop>(page: &mut Page<'_, R>, exporter: E) -> E {
    let case = OWN;
    run(page, &case, exporter)
}

fn tell_queue<R: Abort + Wait>(page: &mut Page<'_, R>, most: usize, fails_at: &'static [u64]) {
    let mut queue = Queued::new(page.alloc, failing_at(page.alloc, fails_at), most);
    let _lent = run_own(page, &mut queue);
    let kept = queue.kept().len() as u64;
    page.tell([queue.sent(), kept, queue.dropped(), queue.unkept()]);
    page.tell(queue.inner().taken.as_slice())
}

// Writes the times of batches, each with its points.
fn tell_batches<R: Abort>(page: &mut Page<'_, R>, batches: &[Batch]) {
    for batch in batches {
        page.tell((batch.time, points_of(batch)));
    }
}

// The run of which nobody reads the counts meanwhile.
fn run_alone<R: Abort + Wait, E: MetricExporter + Drop>(page: &mut Page<'_, R>, exporter: E) -> E {
    let case = OWN;
    let (service, reader) = served(page.rt, page.alloc, case.of);
    let mut ticker = ListTicker::new(case.ticks);
    let periodic = Periodic::new(exporter, case.turns);
    let end = periodic.run(page.rt, page.alloc, &service.provider, reader, &mut ticker);
    page.tell([end.exported, end.failed, end.delayed]);
    end.exporter
}

fn tell_keeping<R: Abort + Wait>(page: &mut Page<'_, R>) {
    let mut keeping = KeepingExporter::new(page.alloc);
    let _lent = run_alone(page, &mut keeping);
    tell_batches(page, keeping.batches())
}

// Opens sinks in memory with room for so many bytes, one after the other, and then none.
#[derive(Drop)]
struct Rooms {
    alloc: Global,
    rooms: &'static [usize],
}

impl OpenSink<CutSink> for Rooms {
    ghost opens = { λ _ _ _. Unit {0} };

    fn open(&mut self) -> Result<CutSink, Broken> {
        let Some((room, later)) = self.rooms.split_first() else {
            return Err(Broken);
        };
        self.rooms = later;
        Ok(CutSink::new(self.alloc, Some(*room)))
    }
}

// Writes what the last sink of an exporter holds.
fn tell_last<R: Abort, E: Encoding + Drop>(
    page: &mut Page<'_, R>,
    exporter: ReopeningExporter<Rooms, CutSink, E>,
) {
    let (_opener, sink) = exporter.into_parts();
    if let Some(sink) = &sink {
        page.push(str::from_utf8(sink.taken()).or_fail(page.rt));
    }
}

// Writes what the sink of an exporter holds.
fn tell_sink<R: Abort, E: Encoding + Drop>(
    page: &mut Page<'_, R>,
    exporter: TextExporter<CutSink, E>,
) {
    page.push(str::from_utf8(exporter.sink().taken()).or_fail(page.rt))
}

// An encoding by which a batch is one point.
#[derive(Drop)]
struct Dots;

impl Encoding for Dots {
    ghost text = { λ _ _ _. 46 ∷ [] };

    fn takes(&self, _plan: u64, _reader: u32) -> bool {
        true
    }

    fn push(
        &self,
        _alloc: Global,
        out: &mut Vec<u8>,
        _plan: &Plan,
        _batch: &Batch,
    ) -> Result<(), AllocError> {
        Ok(out.push(b'.')?)
    }
}

fn tell_case<R: Abort + Wait>(page: &mut Page<'_, R>, case: &Case) {
    let alloc = page.alloc;
    match case.exporter {
        Exporter::Queue(most, fails_at) => tell_queue(page, most, fails_at),
        Exporter::KeepingLent => tell_keeping(page),
        Exporter::Keeping => {
            let keeping = run(page, case, KeepingExporter::new(alloc));
            tell_batches(page, keeping.into_batches().as_slice())
        }
        Exporter::Rooms(rooms) => {
            let exporter = ReopeningExporter::new(Rooms { alloc, rooms });
            let queue = run(page, case, Queued::new(alloc, exporter, 4));
            let (exporter, _kept) = queue.into_parts();
            tell_last(page, exporter)
        }
        Exporter::Dots => {
            let exporter = run(
                page,
                case,
                TextExporter::of(Dots, CutSink::new(alloc, None)),
            );
            tell_sink(page, exporter)
        }
        Exporter::DotsIn(rooms) => {
            let exporter = run(
                page,
                case,
                ReopeningExporter::of(Dots, Rooms { alloc, rooms }),
            );
            tell_last(page, exporter)
        }
        Exporter::Text(room, flushes) => {
            let exporter = run(page, case, TextExporter::new(sink_of(alloc, room, flushes)));
            tell_sink(page, exporter)
        }
        Exporter::Failing(fails_at) => {
            let exporter = run(page, case, failing_at(alloc, fails_at));
            page.tell(exporter.taken.as_slice())
        }
        Exporter::Unsteady => {
            let exporter = run(page, case, unsteady(alloc));
            page.tell(exporter.taken.as_slice())
        }
    }
}

fn assert_told<R: Abort + Wait>(rt: &R, alloc: Global, cases: &[Case]) {
    for case in cases {
        let mut page = Page::new(rt, alloc);
        tell_case(&mut page, case);
        page.assert(case.told);
    }
}

#[test]
fn batches_are_kept_and_tried_again(rt: HostRuntime) {
    assert_told(&rt, rt.alloc(), KEPT);
}

#[test]
fn batches_are_exported(rt: HostRuntime) {
    assert_told(&rt, rt.alloc(), EXPORTED);
}

// Wakes the reader, waits until it has exported a batch, and stops it.
fn wake_and_stop<R: Wait>(rt: &R, flag: &StopFlag, counts: &RunningCounts) {
    flag.wake(rt);
    for _turn in 0..u64::MAX {
        if counts.exported() > 0 {
            break;
        }
        thread::yield_now();
    }
    flag.set(rt);
}

// How many batches a reader exports that is to tick every hour, and is woken once before it is stopped.
fn exported_by_waking<R: Abort + Threads + Wait + Clock + Sync>(
    rt: &R,
    alloc: Global,
) -> (u64, u64) {
    let mut service = hit_once(rt, alloc, 72);
    let reader = service.readers.pop().expect(rt, "no reader");
    let provider = &service.provider;
    let flag = StopFlag::new();
    let counts = RunningCounts::new();
    let exporter = KeepingExporter::new(alloc);
    let (exported, ()) = join(
        rt,
        || {
            let mut ticker = ClockTicker::new(3_600_000, 9, &flag);
            Periodic::new(exporter, 9)
                .run_counted(rt, alloc, provider, reader, &mut ticker, &counts)
                .exported
        },
        || wake_and_stop(rt, &flag, &counts),
    );
    (exported, counts.exported())
}

#[test]
fn a_woken_reader_exports_at_once(rt: HostRuntime) {
    let exported = exported_by_waking(&rt, rt.alloc());
    assert_equal(&rt, exported, (2, 2));
}
