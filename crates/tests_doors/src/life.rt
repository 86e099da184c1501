//! Tests of a service from its two files to its totals.
use crate::asserted::{OrFail, assert_equal};
use crate::ends::{end, export_left, runs_after};
use crate::failing::sink_of;
use crate::page::Page;
use crate::services::{DELTA, HITS, Seats, Service};
use metric_sdk::{
    Catalogue, Config, CutSink, KeepingExporter, MeterProvider, NamedText, QueueCounts, Queued,
    Recorder, Runs, Service as Whole, SetupFault, StopFlag, TextExporter, ToldQueue, Work,
    diagnosed, live, make, now, open, open_certified, open_with_lanes,
};
use std::alloc::Global;
use std::process::Abort;
use std::sync::Wait;
use std::thread::{self, Threads};
use std::time::Clock;

// Two counters of two recorders, who may both record on each: on the first one by its spare.
const CATALOGUE: &str = "format = 2
[[meter]]
name = 'm'
instrument = [
    { name = 'A', kind = 'counter', range = [0, 3], spare = 1 },
    { name = 'B', kind = 'counter', range = [0, 3] },
]
[[recorder]]
name = 'r0'
budget = [{ instrument = 0, amount = 2 }, { instrument = 1, amount = 1 }]
[[recorder]]
name = 'r1'
budget = [{ instrument = 1, amount = 2 }]
";

// A cumulative and a delta reader.
const CONFIG: &str = "format = 1
[[reader]]
name = 'C'
[[reader]]
name = 'D'
temporality = { counter = 'delta' }
";

// Ten recordings of the greatest value come to a sum beyond 64 bits.
const HIGH: &str = "format = 1
[[meter]]
name = 'm'
[[meter.instrument]]
name = 'c'
kind = 'counter'
range = [0, 1000000000000000000]
[[recorder]]
name = 'r'
budget = [{ instrument = 0, amount = 10 }]
";

// By what a service is opened: with so many lanes, by the certificate that is made for the first two texts, or by a
// text that is none.
enum By {
    Lanes(u32),
    Certificate,
    NoCertificate,
}

// The seats that serve a run of the first two texts, and the lanes of its instruments, of which it has two.
const SEATS: &str = "recorder 0
recorder 1
reader 0
reader 1
[1, 1, 0]
";

// The same with lanes.
const SEATS_IN_LANES: &str = "recorder 0
recorder 1
reader 0
reader 1
[2, 2, 0]
";

// Catalogues and configs, by what they are opened, and what they come to.
const OPENED: &[(&str, &str, By, &str)] = &[
    (CATALOGUE, CONFIG, By::Lanes(1), SEATS),
    (CATALOGUE, CONFIG, By::Lanes(2), SEATS_IN_LANES),
    (CATALOGUE, CONFIG, By::Lanes(9), SEATS_IN_LANES),
    ("=", "=", By::Lanes(1), "catalogue 1 NotToml\n"),
    ("=", "=", By::Lanes(2), "catalogue 1 NotToml\n"),
    (CATALOGUE, "=", By::Lanes(1), "config 1 NotToml\n"),
    (CATALOGUE, "=", By::Lanes(2), "config 1 NotToml\n"),
    (
        HITS,
        "format = 1\n[[reader]]\n",
        By::Lanes(1),
        "config 2 MissingField at reader 0\n",
    ),
    (HIGH, CONFIG, By::Lanes(1), "make 4 SumHigh\n"),
    (HIGH, CONFIG, By::Lanes(2), "make 4 SumHigh\n"),
    (CATALOGUE, CONFIG, By::Certificate, SEATS),
    ("=", CONFIG, By::Certificate, "catalogue 1 NotToml\n"),
    (CATALOGUE, "=", By::Certificate, "config 1 NotToml\n"),
    (HIGH, CONFIG, By::Certificate, "check 6 StreamStrange\n"),
    (
        CATALOGUE,
        CONFIG,
        By::NoCertificate,
        "certificate 1 NotToml\n",
    ),
];

// What is told of two files in words.
const WORDS: &[(&str, &str, &str)] = &[
    (
        "=",
        CONFIG,
        "catalogue.toml:1:1: not valid TOML: invalid key, expected letters, numbers, `-`, `_` or a quoted key\n",
    ),
    (
        CATALOGUE,
        "=",
        "config.toml:1:1: not valid TOML: invalid key, expected letters, numbers, `-`, `_` or a quoted key\n",
    ),
    (
        HIGH,
        CONFIG,
        "catalogue.toml:4:1: instrument 0 \"c\": its budgets and its spare are 10 recordings together, and at most 9 are safe: a sum may rise to 10000000000000000000, above 9223372036854775807\n",
    ),
];

fn named<'a>(name: &'a str, text: &'a str) -> NamedText<'a> {
    NamedText { name, text }
}

#[test]
fn what_is_not_opened_is_put_into_words(rt: HostRuntime) {
    for (catalogue, config, words) in WORDS {
        let mut page = Page::new(&rt, rt.alloc());
        let opened = open(&rt, rt.alloc(), catalogue, config, 5, &mut Runs::new());
        let texts = [
            named("catalogue.toml", catalogue),
            named("config.toml", config),
        ];
        page.answer(diagnosed(rt.alloc(), texts, opened).map(|_| ()));
        page.assert(words);
    }
}

fn opened<R: Wait>(
    rt: &R,
    alloc: Global,
    (catalogue, config, by, _): &(&str, &str, By, &str),
    certificate: &str,
    runs: &mut Runs,
) -> Result<Seats, SetupFault> {
    let certificate = match by {
        By::Lanes(lanes) => {
            return open_with_lanes(rt, alloc, catalogue, config, *lanes, 5, runs);
        }
        By::Certificate => certificate,
        By::NoCertificate => "=",
    };
    open_certified(rt, alloc, catalogue, config, certificate, 5, runs)
}

// Writes the numbers of the seats that serve the run, and how many lanes instruments have.
fn tell_seats<R: Abort>(page: &mut Page<'_, R>, service: &Service) {
    for seat in &service.recorders {
        if seat.admits(&service.provider, 0, &[], 0).is_ok() {
            page.push("recorder ");
            page.tell(seat.number());
        }
    }
    for seat in &service.readers {
        page.push("reader ");
        page.tell(seat.number());
    }
    let provider = &service.provider;
    page.tell([provider.lanes(0), provider.lanes(1), provider.lanes(2)]);
}

// The text of the certificate that is made for a catalogue and a config.
fn certificate_for<R: Abort>(rt: &R, alloc: Global, catalogue: &str, config: &str) -> String {
    let catalogue = Catalogue::read(alloc, catalogue).or_fail(rt);
    let config = Config::read(alloc, config).or_fail(rt);
    make(alloc, &catalogue, &config)
        .or_fail(rt)
        .write(alloc)
        .or_fail(rt)
}

#[test]
fn two_texts_are_opened(rt: HostRuntime) {
    let mut runs = Runs::new();
    let certificate = certificate_for(&rt, rt.alloc(), CATALOGUE, CONFIG);
    for case in OPENED {
        let mut page = Page::new(&rt, rt.alloc());
        match opened(&rt, rt.alloc(), case, certificate.as_str(), &mut runs) {
            Ok(seats) => tell_seats(&mut page, &Service::of(seats)),
            Err(fault) => page.say(fault),
        }
        page.assert(case.3);
    }
}

#[test]
fn runs_are_counted(rt: HostRuntime) {
    let mut runs = Runs::new();
    let given = [runs.next(), runs.next(), runs.next()];
    assert_equal(&rt, given, [1, 2, 3]);
    // The second of September 2020, and thereafter.
    let moment = now(&rt).or_fail(&rt);
    assert!(rt; moment > 1_599_000_000_000_000_000);
}

// What happens to a service.
enum Step {
    // Each recorder records 3 on the instrument of its number, for which it has a budget.
    Record,
    // It goes over into a run of this number at 100.
    RollOver(u64),
    // So many seats of recorders are kept.
    Keep(usize),
}

// Whether a service is opened by a certificate that somebody else made, what happens to it, how much room the sink of
// its last exporter has and whether flushes work, and what is told: the answers, the totals or what is left, what the
// exporter answers to what is handed back and to a retry, and what the sink holds.
struct Case {
    is_certified: bool,
    steps: &'static [Step],
    room: Option<usize>,
    flushes: bool,
    told: &'static str,
}

const CASES: &[Case] = &[
    // A service goes over into its next run.
    Case {
        is_certified: false,
        steps: &[
            Step::Record,
            Step::Record,
            Step::Record,
            Step::RollOver(1),
            Step::RollOver(2),
            Step::Record,
        ],
        room: None,
        flushes: true,
        told: "done
done
done
done
9 Budget
9 Budget
the next run has the number of this one
2
[Total { count: 2, sum: 6 }, Total { count: 2, sum: 6 }]
done
done
[Total { count: 1, sum: 3 }, Total { count: 1, sum: 3 }]
collected 200 1
stream reader=\"C\" meter=\"m\" version=\"\" schema=\"\" name=\"A\" unit=\"\" description=\"\" kind=sum monotonic=yes temporality=cumulative
point {} start=100 time=200 value=3
collected 200 1
stream reader=\"C\" meter=\"m\" version=\"\" schema=\"\" name=\"B\" unit=\"\" description=\"\" kind=sum monotonic=yes temporality=cumulative
point {} start=100 time=200 value=3
collected 200 1
stream reader=\"D\" meter=\"m\" version=\"\" schema=\"\" name=\"A\" unit=\"\" description=\"\" kind=sum monotonic=yes temporality=delta
point {} start=100 time=200 value=3
collected 200 1
stream reader=\"D\" meter=\"m\" version=\"\" schema=\"\" name=\"B\" unit=\"\" description=\"\" kind=sum monotonic=yes temporality=delta
point {} start=100 time=200 value=3
",
    },
    // An end tells each cause.
    Case {
        is_certified: true,
        steps: &[Step::Record],
        room: Some(0),
        flushes: false,
        told: "done
done
ended; reader 0, 2 batches not exported: 1 Write, not flushed: 1 Write; reader 1, 2 batches not exported: 1 Write, not flushed: 1 Write
[Total { count: 1, sum: 3 }, Total { count: 1, sum: 3 }]
1 Write
1 Write
done
1 Write
1 Write
done
",
    },
    Case {
        is_certified: true,
        steps: &[Step::Record],
        room: None,
        flushes: false,
        told: "done
done
ended; reader 0, not flushed: 1 Write; reader 1, not flushed: 1 Write
[Total { count: 1, sum: 3 }, Total { count: 1, sum: 3 }]
done
done
collected 200 1
stream reader=\"C\" meter=\"m\" version=\"\" schema=\"\" name=\"A\" unit=\"\" description=\"\" kind=sum monotonic=yes temporality=cumulative
point {} start=5 time=200 value=3
collected 200 1
stream reader=\"C\" meter=\"m\" version=\"\" schema=\"\" name=\"B\" unit=\"\" description=\"\" kind=sum monotonic=yes temporality=cumulative
point {} start=5 time=200 value=3
collected 200 1
stream reader=\"D\" meter=\"m\" version=\"\" schema=\"\" name=\"A\" unit=\"\" description=\"\" kind=sum monotonic=yes temporality=delta
point {} start=5 time=200 value=3
collected 200 1
stream reader=\"D\" meter=\"m\" version=\"\" schema=\"\" name=\"B\" unit=\"\" description=\"\" kind=sum monotonic=yes temporality=delta
point {} start=5 time=200 value=3
",
    },
    Case {
        is_certified: true,
        steps: &[Step::Record, Step::Keep(1)],
        room: Some(0),
        flushes: false,
        told: "done
done
not ended: 1 RecorderMissing: r1; reader 0, 2 batches not exported: 1 Write, not flushed: 1 Write; reader 1, 2 batches not exported: 1 Write, not flushed: 1 Write
1
",
    },
];

fn begun<R: Abort + Wait>(rt: &R, alloc: Global, is_certified: bool) -> Service {
    let mut runs = Runs::new();
    let opened = if is_certified {
        let certificate = certificate_for(rt, alloc, CATALOGUE, CONFIG);
        open_certified(
            rt,
            alloc,
            CATALOGUE,
            CONFIG,
            certificate.as_str(),
            5,
            &mut runs,
        )
    } else {
        open(rt, alloc, CATALOGUE, CONFIG, 5, &mut runs)
    };
    Service::of(opened.or_fail(rt))
}

fn record<R: Abort + Wait>(page: &mut Page<'_, R>, service: &mut Service) {
    for seat in &mut service.recorders {
        let answer = seat.record(page.rt, &service.provider, seat.number(), &[], 3);
        page.answer(answer);
    }
}

// What the batches of a reader are written to.
type Lines = TextExporter<CutSink>;

// Goes over into another run, and writes the totals of this one, or why it goes on.
fn rolled<R: Abort + Wait>(page: &mut Page<'_, R>, service: Service, run: u64) -> Service {
    let (provider, recorders, readers) = service.into_seats();
    match provider.roll_over(page.rt, page.alloc, recorders, 100, run) {
        Ok(next) => {
            page.tell(next.totals.instruments.as_slice());
            drop(next.totals);
            Service::of((next.provider, next.recorders, next.collectors))
        }
        Err((provider, recorders, fault)) => {
            page.say(fault);
            page.tell(recorders.len());
            Service::of((provider, recorders, readers))
        }
    }
}

fn tell_case<R: Abort + Wait>(page: &mut Page<'_, R>, case: &Case) {
    let mut service = begun(page.rt, page.alloc, case.is_certified);
    for step in case.steps {
        match step {
            Step::Record => record(page, &mut service),
            Step::RollOver(run) => service = rolled(page, service, *run),
            Step::Keep(kept) => service.recorders.truncate(*kept),
        }
    }
    let (mut first, mut second) = (exporter(page.alloc, case), exporter(page.alloc, case));
    end_both(page, service, &mut first, &mut second);
    for exporter in [&first, &second] {
        page.push(str::from_utf8(exporter.sink().taken()).or_fail(page.rt))
    }
}

fn exporter(alloc: Global, case: &Case) -> Lines {
    TextExporter::new(sink_of(alloc, case.room, case.flushes))
}

// Ends a service whose two readers have an exporter each, and exports by the plan what they hand back.
fn end_both<R: Abort + Wait>(
    page: &mut Page<'_, R>,
    service: Service,
    first: &mut Lines,
    second: &mut Lines,
) {
    let (provider, recorders, readers) = service.into_seats();
    let service = Whole::builder(provider, readers, runs_after(9));
    let service = service.tell(page.alloc, "C", &mut *first, 1);
    let service = service.or_fail(page.rt);
    let service = service.tell(page.alloc, "D", &mut *second, 1);
    let service = service.or_fail(page.rt).build().or_fail(page.rt);
    if let Some((ends, plan)) = end(page, service, recorders, 200) {
        for end in &ends {
            let exporter = if end.reader == 0 {
                &mut *first
            } else {
                &mut *second
            };
            export_left(page, &plan, end, exporter);
        }
    }
}

#[test]
fn a_service_ends_with_its_totals_or_each_cause(rt: HostRuntime) {
    for case in CASES {
        let mut page = Page::new(&rt, rt.alloc());
        tell_case(&mut page, case);
        page.assert(case.told);
    }
}

// What a worker waits for: that its reader exports.
#[derive(Drop)]
struct Waking<'a> {
    flag: &'a StopFlag,
    counts: &'a QueueCounts,
}

impl Work<Recorder, MeterProvider> for Waking<'_> {
    // Records, lets all outlets make a turn, and goes on when a batch has gone out.
    fn work<R: Wait + Clock>(&self, rt: &R, provider: &MeterProvider, worker: &mut Recorder) {
        let _ = worker.record(rt, provider, 0, &[], 5);
        self.flag.wake(rt);
        for _turn in 0..u64::MAX {
            if self.counts.sent() > 0 {
                break;
            }
            thread::yield_now();
        }
    }
}

// How many batches the reader of a service exports that is to turn every hour, while its worker waits for one.
fn exported_while_working<R>(rt: &R, alloc: Global) -> u64
where
    R: Abort + Threads + Wait + Clock + Sync + AllocGlobal,
{
    let (provider, recorders, readers) = Service::new(rt, alloc, HITS, DELTA, 1).into_seats();
    let (flag, counts) = (StopFlag::new(), QueueCounts::new());
    let queue = Queued::new(alloc, KeepingExporter::new(alloc), 9);
    let queue = ToldQueue::new(queue, &counts);
    let service = Whole::builder(provider, readers, runs_after(1));
    let service = service.tell(alloc, "d", queue, 3_600_000).or_fail(rt);
    let work = Waking {
        flag: &flag,
        counts: &counts,
    };
    let service = service.build().or_fail(rt);
    let (service, _workers) = live(rt, service, recorders, &flag, &work);
    let exported = service.outlets().1.exported();
    drop(service);
    exported
}

#[test]
fn a_service_exports_while_its_workers_record(rt: HostRuntime) {
    let exported = exported_while_working(&rt, rt.alloc());
    assert_equal(&rt, exported, 1);
}
