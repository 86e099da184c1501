//! Calls on exporters, one by one: what each answers, and what the exporter then tells.
use crate::asserted::OrFail;
use crate::failing::{Failing, failing_at, sink_of};
use crate::page::Page;
use crate::services::{DELTA, GERMAN, ORDERS, REFUNDS, Service};
use metric_handles::value_of;
use metric_sdk::{
    Batch, Broken, CutSink, KeepingExporter, MetricExporter, OpenSink, Plan, QueueCounts, Queued,
    ReopeningExporter, TextExporter, ToldQueue, write_batch,
};
use std::alloc::Global;
use std::process::Abort;
use std::sync::Wait;

/// A call on an exporter.
#[derive(Clone, Copy)]
pub(crate) enum Call {
    /// An export of a batch by its plan: the first, the second, or that of another plan.
    First,
    Second,
    Other,
    /// An export of the first batch by the other plan.
    Crossed,
    /// A retry by the plan of the first batch, or by the other plan.
    Retry,
    RetryOther,
    Flush,
    ShutDown,
}

/// What calls are passed: two plans, two batches of the first plan, and one of the other.
#[derive(Clone, Copy)]
pub(crate) struct Lent<'a> {
    pub(crate) plan: &'a Plan,
    pub(crate) other_plan: &'a Plan,
    pub(crate) first: &'a Batch,
    pub(crate) second: &'a Batch,
    pub(crate) other: &'a Batch,
}

/// Makes a call, and writes the answer.
pub(crate) fn make<R: Abort, E: MetricExporter>(
    page: &mut Page<'_, R>,
    exporter: &mut E,
    lent: Lent<'_>,
    call: &Call,
) {
    let (plan, batch) = match call {
        Call::Second => (lent.plan, lent.second),
        Call::Other => (lent.other_plan, lent.other),
        Call::Crossed | Call::RetryOther => (lent.other_plan, lent.first),
        _ => (lent.plan, lent.first),
    };
    let answer = match call {
        Call::Retry | Call::RetryOther => exporter.retry(page.alloc, plan),
        Call::Flush => exporter.force_flush(),
        Call::ShutDown => exporter.shutdown(),
        _ => exporter.export(page.alloc, plan, batch),
    };
    page.answer(answer)
}

// What is called, and how it begins.
enum Exporter {
    // A queue of so many batches at most over an exporter that fails at these calls.
    Queue(usize, &'static [u64]),
    // A queue of four over such an exporter that is begun with what another one kept.
    Begun(&'static [u64]),
    // A queue of four over a queue of four over such an exporter.
    Twice(&'static [u64]),
    // Queues of which other threads read the counts, the same ones, one after the other.
    Told(&'static [Queue]),
    // An exporter that opens anew a sink whose flushes fail; and one whose sink is let go after these calls, and then
    // takes the first batch.
    Reopening,
    Reopened,
    Keeping,
    // An exporter of texts to a sink that has so much room, and of which flushes work or not.
    Text(Option<usize>, bool),
}

// How many batches a queue keeps at most, which calls of the exporter below it fail, and the calls of the queue.
type Queue = (usize, &'static [u64], &'static [Call]);

struct Case {
    exporter: Exporter,
    calls: &'static [Call],
    // Of each call the answer, and of a queue how many batches were sent, are kept, were dropped, were not kept, and
    // how many calls were made below. In the end, the times of the batches that were taken, each with its points; of an
    // exporter of texts its state, and what its sink holds.
    told: &'static str,
}

const CASES: &[Case] = &[
    // The pause between tries grows. Of ten exports in a row those make calls of an exporter that takes nothing that
    // come first, and then after a pause of 1 and 3 exports; the next pause is of 7.
    Case {
        exporter: Exporter::Queue(100, &[1, 2, 3]),
        calls: &[
            Call::First,
            Call::First,
            Call::First,
            Call::First,
            Call::First,
            Call::First,
            Call::First,
            Call::First,
            Call::First,
            Call::First,
            Call::Retry,
        ],
        told: "4 Kept
[0, 1, 0, 0, 1]
4 Kept
[0, 2, 0, 0, 1]
4 Kept
[0, 3, 0, 0, 2]
4 Kept
[0, 4, 0, 0, 2]
4 Kept
[0, 5, 0, 0, 2]
4 Kept
[0, 6, 0, 0, 2]
4 Kept
[0, 7, 0, 0, 3]
4 Kept
[0, 8, 0, 0, 3]
4 Kept
[0, 9, 0, 0, 3]
4 Kept
[0, 10, 0, 0, 3]
done
[10, 0, 0, 0, 13]
[(10, 1), (10, 1), (10, 1), (10, 1), (10, 1), (10, 1), (10, 1), (10, 1), (10, 1), (10, 1)]
",
    },
    // A batch goes out by its own plan, and a queue serves one plan as long as it keeps something.
    Case {
        exporter: Exporter::Queue(4, &[1]),
        calls: &[
            Call::First,
            Call::Other,
            Call::Crossed,
            Call::RetryOther,
            Call::Retry,
            Call::Other,
        ],
        told: "4 Kept
[0, 1, 0, 0, 1]
5 OtherPlan
[0, 1, 0, 0, 1]
5 OtherPlan
[0, 1, 0, 0, 1]
5 OtherPlan
[0, 1, 0, 0, 1]
done
[1, 0, 0, 0, 2]
done
[2, 0, 0, 0, 3]
[(10, 1), (20, 0)]
",
    },
    // A queue is begun with kept batches.
    Case {
        exporter: Exporter::Begun(&[1]),
        calls: &[Call::Second],
        told: "4 Kept
done
[2, 0, 0, 0, 2]
[(10, 1), (20, 0)]
",
    },
    // What the lower queue keeps the upper one does not keep too: how many batches each keeps.
    Case {
        exporter: Exporter::Twice(&[1]),
        calls: &[
            Call::First,
            Call::Retry,
            Call::ShutDown,
            Call::First,
            Call::Retry,
        ],
        told: "4 Kept
(0, 1)
done
(0, 0)
done
(0, 0)
2 ShutDown
(0, 0)
2 ShutDown
(0, 0)
[(10, 1)]
",
    },
    // A queue tells its counts while it runs: what other threads read, sent, delayed, dropped and unkept.
    Case {
        exporter: Exporter::Told(&[
            (1, &[1], &[Call::First, Call::First, Call::Retry]),
            (0, &[1], &[Call::First]),
        ]),
        calls: &[],
        told: "4 Kept
[0, 1, 0, 0]
4 Kept
[0, 1, 1, 0]
done
[1, 0, 1, 0]
3 Memory
[0, 0, 0, 1]
",
    },
    // A sink that fails to flush is let go.
    Case {
        exporter: Exporter::Reopening,
        calls: &[
            Call::Flush,
            Call::First,
            Call::Flush,
            Call::First,
            Call::ShutDown,
            Call::Flush,
        ],
        told: "done
done
1 Write
done
1 Write
2 ShutDown
",
    },
    // A sink that is let go is followed by a new one, as where a file is renamed between two collections: it has what
    // came later alone.
    Case {
        exporter: Exporter::Reopened,
        calls: &[Call::First],
        told: "done
done
done
collected 10 1
stream reader=\"d\" meter=\"shop\" version=\"\" schema=\"\" name=\"orders\" unit=\"\" description=\"\" kind=sum monotonic=yes temporality=delta
point {\"country\"=\"de\"} start=0 time=10 value=42
",
    },
    // Batches are kept of their own plans, by which their points are found, and written by them alone.
    Case {
        exporter: Exporter::Keeping,
        calls: &[Call::Crossed, Call::First],
        told: "5 OtherPlan
done
Some(Sum(42))
None
5 OtherPlan
[]
",
    },
    // Batches are written as texts, until a write or a flush fails.
    Case {
        exporter: Exporter::Text(None, true),
        calls: &[
            Call::First,
            Call::Flush,
            Call::ShutDown,
            Call::First,
            Call::ShutDown,
            Call::Flush,
        ],
        told: "done
done
done
2 ShutDown
2 ShutDown
2 ShutDown
ShutDown
collected 10 1
stream reader=\"d\" meter=\"shop\" version=\"\" schema=\"\" name=\"orders\" unit=\"\" description=\"\" kind=sum monotonic=yes temporality=delta
point {\"country\"=\"de\"} start=0 time=10 value=42
",
    },
    Case {
        exporter: Exporter::Text(Some(20), true),
        calls: &[Call::First, Call::First, Call::Flush],
        told: "1 Write
1 Write
1 Write
Broken
collected 10 1
strea",
    },
    Case {
        exporter: Exporter::Text(None, false),
        calls: &[Call::First, Call::Flush, Call::First],
        told: "done
1 Write
1 Write
Broken
collected 10 1
stream reader=\"d\" meter=\"shop\" version=\"\" schema=\"\" name=\"orders\" unit=\"\" description=\"\" kind=sum monotonic=yes temporality=delta
point {\"country\"=\"de\"} start=0 time=10 value=42
",
    },
    Case {
        exporter: Exporter::Text(Some(0), false),
        calls: &[Call::ShutDown, Call::First],
        told: "1 Write
2 ShutDown
ShutDown
",
    },
];

// The services of two catalogues with what they collected: of the first one a batch with a point at 10 and one without
// at 20, and of the other one without points at 20.
#[derive(Drop)]
struct Sources {
    own: Service,
    other: Service,
    batches: [Batch; 3],
}

fn make_sources<R: Abort + Wait>(rt: &R, alloc: Global) -> Sources {
    let mut own = Service::new(rt, alloc, ORDERS, DELTA, 1);
    let mut other = Service::new(rt, alloc, REFUNDS, DELTA, 2);
    own.record(rt, 0, &GERMAN, 42);
    let batches = [
        own.collect(rt, alloc, 0, 10),
        own.collect(rt, alloc, 0, 20),
        other.collect(rt, alloc, 0, 20),
    ];
    Sources {
        own,
        other,
        batches,
    }
}

impl Sources {
    fn lent(&self) -> Lent<'_> {
        let [first, second, other] = &self.batches;
        Lent {
            plan: self.own.provider.plan(),
            other_plan: self.other.provider.plan(),
            first,
            second,
            other,
        }
    }
}

// Makes calls of a queue.
fn tell_queue<R: Abort>(
    page: &mut Page<'_, R>,
    queue: &mut Queued<Failing>,
    lent: Lent<'_>,
    calls: &[Call],
) {
    for call in calls {
        make(page, queue, lent, call);
        let kept = queue.kept().len() as u64;
        page.tell([
            queue.sent(),
            kept,
            queue.dropped(),
            queue.unkept(),
            queue.inner().number,
        ]);
    }
    page.tell(queue.inner().taken.as_slice())
}

// Makes calls of a queue that is begun with what another one keeps of the first batch.
fn tell_begun<R: Abort>(
    page: &mut Page<'_, R>,
    lent: Lent<'_>,
    fails_at: &'static [u64],
    calls: &[Call],
) {
    let mut first = Queued::new(page.alloc, failing_at(page.alloc, fails_at), 4);
    make(page, &mut first, lent, &Call::First);
    let (_lost, kept) = first.into_parts();
    let mut next = Queued::with_kept(failing_at(page.alloc, &[]), kept, 4);
    tell_queue(page, &mut next, lent, calls);
    drop(next)
}

fn tell_twice<R: Abort>(
    page: &mut Page<'_, R>,
    lent: Lent<'_>,
    fails_at: &'static [u64],
    calls: &[Call],
) {
    let lower = Queued::new(page.alloc, failing_at(page.alloc, fails_at), 4);
    let mut upper = Queued::new(page.alloc, lower, 4);
    for call in calls {
        make(page, &mut upper, lent, call);
        page.tell((upper.kept().len(), upper.inner().kept().len()));
    }
    page.tell(upper.inner().inner().taken.as_slice());
    drop(upper)
}

fn tell_counts<R: Abort>(page: &mut Page<'_, R>, lent: Lent<'_>, queues: &[Queue]) {
    let counts = QueueCounts::new();
    for (most, fails_at, calls) in queues {
        let queue = Queued::new(page.alloc, failing_at(page.alloc, fails_at), *most);
        let mut queue = ToldQueue::new(queue, &counts);
        for call in *calls {
            make(page, &mut queue, lent, call);
            page.tell([
                counts.sent(),
                counts.delayed(),
                counts.dropped(),
                counts.unkept(),
            ]);
        }
        drop(queue)
    }
}

// Opens sinks in memory, of which each flush works or not.
#[derive(Drop)]
struct Sinks {
    alloc: Global,
    flushes: bool,
}

impl OpenSink<CutSink> for Sinks {
    ghost opens = { λ _ _ _. Unit {0} };

    fn open(&mut self) -> Result<CutSink, Broken> {
        Ok(sink_of(self.alloc, None, self.flushes))
    }
}

// Makes calls of an exporter that opens its sinks anew.
fn tell_reopening<R: Abort>(
    page: &mut Page<'_, R>,
    lent: Lent<'_>,
    flushes: bool,
    calls: &[Call],
) -> ReopeningExporter<Sinks, CutSink> {
    let alloc = page.alloc;
    let mut exporter = ReopeningExporter::new(Sinks { alloc, flushes });
    for call in calls {
        make(page, &mut exporter, lent, call);
    }
    exporter
}

// The same, and then lets the sink go, exports the first batch, and writes what the new sink holds.
fn tell_reopened<R: Abort>(page: &mut Page<'_, R>, lent: Lent<'_>, calls: &[Call]) {
    let mut exporter = tell_reopening(page, lent, true, calls);
    page.answer(exporter.reopen());
    make(page, &mut exporter, lent, &Call::First);
    let (_opener, sink) = exporter.into_parts();
    if let Some(sink) = &sink {
        page.push(str::from_utf8(sink.taken()).or_fail(page.rt));
    }
}

// Makes calls of an exporter that keeps batches, and writes what is found in them, and what is answered where the first
// batch is to be written by the other plan.
fn tell_keeping<R: Abort>(page: &mut Page<'_, R>, lent: Lent<'_>, calls: &[Call]) {
    let mut keeping = KeepingExporter::new(page.alloc);
    for call in calls {
        make(page, &mut keeping, lent, call);
    }
    for (plan, name) in [(lent.plan, "orders"), (lent.other_plan, "refunds")] {
        page.tell(value_of(plan, keeping.batches(), name, &GERMAN));
    }
    let mut sink = CutSink::new(page.alloc, None);
    let written = write_batch(page.alloc, &mut sink, lent.other_plan, lent.first);
    page.answer(written);
    page.tell(sink.taken())
}

// Makes calls of an exporter of texts, and writes its state and what its sink holds.
fn tell_text<R: Abort>(page: &mut Page<'_, R>, lent: Lent<'_>, sink: CutSink, calls: &[Call]) {
    let mut exporter = TextExporter::new(sink);
    for call in calls {
        make(page, &mut exporter, lent, call);
    }
    page.tell(exporter.state());
    let sink = exporter.into_inner();
    page.push(str::from_utf8(sink.taken()).or_fail(page.rt))
}

fn tell_case<R: Abort>(page: &mut Page<'_, R>, lent: Lent<'_>, case: &Case) {
    let calls = case.calls;
    match case.exporter {
        Exporter::Queue(most, fails_at) => {
            let mut queue = Queued::new(page.alloc, failing_at(page.alloc, fails_at), most);
            tell_queue(page, &mut queue, lent, calls);
            drop(queue)
        }
        Exporter::Begun(fails_at) => tell_begun(page, lent, fails_at, calls),
        Exporter::Twice(fails_at) => tell_twice(page, lent, fails_at, calls),
        Exporter::Told(queues) => tell_counts(page, lent, queues),
        Exporter::Reopening => {
            let _exporter = tell_reopening(page, lent, false, calls);
        }
        Exporter::Reopened => tell_reopened(page, lent, calls),
        Exporter::Keeping => tell_keeping(page, lent, calls),
        Exporter::Text(room, flushes) => {
            tell_text(page, lent, sink_of(page.alloc, room, flushes), calls)
        }
    }
}

#[test]
fn each_call_of_an_exporter_is_answered(rt: HostRuntime) {
    let sources = make_sources(&rt, rt.alloc());
    for case in CASES {
        let mut page = Page::new(&rt, rt.alloc());
        tell_case(&mut page, sources.lent(), case);
        page.assert(case.told);
    }
    drop(sources)
}
