//! Tests of batches that leave: in the OpenTelemetry protocol, as the lines of a page, and as pages that are replaced
//! after each collection.
ghost use Rattle.std.specs.Prelude.{None};

use crate::asserted::{OrFail, assert_equal};
use crate::calls::{Call, Lent, make};
use crate::ends::runs_after;
use crate::page::Page;
use crate::services::Service;
use metric_sdk::{
    Attr, Batch, Broken, CutSink, Dialect, Encoding, ExportFault, Exposition, KeepingExporter,
    MetricExporter, OpenSink, OtlpBytes, OtlpLines, OutletFault, PageExporter, Pages, Plan, Queued,
    ReopeningExporter, Resource, ResourceFault, Runs, Service as Whole, Sink, TextExporter,
    certified_plan, open,
};
use std::alloc::Global;
use std::process::Abort;
use std::sync::{Mutex, Wait};

// The keys of a resource's attributes, and what is told of them.
const RESOURCES: &[(&[&str], Option<ResourceFault>)] = &[
    (&[], None),
    (&["service.name", "service.version"], None),
    (&["service.name", ""], Some(ResourceFault::EmptyKey)),
    (
        &["host", "service.name", "host"],
        Some(ResourceFault::RepeatedKey),
    ),
    (&["host"; 65], Some(ResourceFault::TooMany)),
];

#[test]
fn a_resource_has_each_key_once(rt: HostRuntime) {
    for (keys, fault) in RESOURCES {
        let mut attributes = Vec::new(rt.alloc());
        for key in *keys {
            attributes.push(Attr::text(key, "till")).or_fail(&rt);
        }
        let told = Resource::new(rt.alloc(), attributes.as_slice()).err();
        assert_equal(&rt, told, *fault);
    }
}

const CATALOGUE: &str = "format = 1
[[meter]]
name = 'm'
[[meter.instrument]]
name = 'hits'
kind = 'counter'
range = [0, 100]
[[meter.instrument]]
name = 'size'
unit = 'By'
kind = 'histogram'
range = [0, 100]
boundaries = [10]
[[recorder]]
name = 'r'
budget = [{ instrument = 0, amount = 9 }, { instrument = 1, amount = 9 }]
";

const CONFIG: &str = "format = 1\n[[reader]]\nname = 'prom'\n";

const TARGET: &str = "# HELP target_info Target metadata
# TYPE target_info gauge
target_info{service_name=\"till\"} 1
";

const HITS: &str = "# HELP hits_total 
# TYPE hits_total counter
hits_total{otel_scope_name=\"m\"} 7
";

const SIZES: &str = "# HELP size_bytes 
# TYPE size_bytes histogram
size_bytes_bucket{otel_scope_name=\"m\",le=\"10.0\"} 1
size_bytes_bucket{otel_scope_name=\"m\",le=\"+Inf\"} 2
size_bytes_sum{otel_scope_name=\"m\"} 33
size_bytes_count{otel_scope_name=\"m\"} 2
";

// The line of a counter that was 7 between the start 5 and the time 10.
const LINE: &str =
    "{\"resourceMetrics\":[{\"resource\":{\"attributes\":[{\"key\":\"service.name\",\"value\":{\"stringValue\":\"till\"}}]},\"scopeMetrics\":[{\"scope\":{\"name\":\"m\"},\"metrics\":[{\"name\":\"hits\",\"sum\":{\"dataPoints\":[{\"startTimeUnixNano\":\"5\",\"timeUnixNano\":\"10\",\"asInt\":\"7\"}],\"aggregationTemporality\":2,\"isMonotonic\":true}}]}]}]}\n";

// What the batch of the counter is written as: a line, a message, and lines of a page.
const ENCODED: &[&str] = &[
    "done\n",
    LINE,
    "done\n",
    "\x0aL\x0a\x18\x0a\x16\x0a\x0cservice.name\x12\x06\x0a\x04ti",
    "ll\x120\x0a\x03\x0a\x01m\x12)\x0a\x04hits:!\x0a\x1b\x11\x05\x00\x00\x00",
    "\x00\x00\x00\x00\x19\x0a\x00\x00\x00\x00\x00\x00\x001\x07\x00\x00\x00\x00\x00\x00\x00\x10\x02\x18\x01",
    "\n",
    "done\n",
    HITS,
];

// Takes the last page, but for the second one that it is handed.
#[derive(Drop)]
struct Shelf {
    page: Vec<u8>,
    calls: u32,
}

impl Pages for Shelf {
    ghost replaces = { λ _ _ _ _. Unit {0} };

    fn replace(&mut self, page: &[u8]) -> Result<(), Broken> {
        self.calls = self.calls.saturating_add(1);
        if self.calls == 2 {
            return Err(Broken);
        }
        self.page.clear();
        match self.page.extend_from_slice(page) {
            Ok(()) => Ok(()),
            Err(_) => Err(Broken),
        }
    }
}

// A service with what it collected of both instruments.
#[derive(Drop)]
struct Sources {
    service: Service,
    hits: Batch,
    sizes: Batch,
}

fn make_sources<R: Abort + Wait>(rt: &R, alloc: Global) -> Sources {
    let opened = open(rt, alloc, CATALOGUE, CONFIG, 5, &mut Runs::new());
    let mut service = Service::of(opened.or_fail(rt));
    for (instrument, value) in [(0, 7), (1, 10), (1, 23)] {
        service.record(rt, instrument, &[], value);
    }
    let hits = service.collect(rt, alloc, 0, 10);
    let sizes = service.collect(rt, alloc, 1, 10);
    Sources {
        service,
        hits,
        sizes,
    }
}

impl Sources {
    // The batch of the histogram, and then that of the counter.
    fn lent(&self) -> Lent<'_> {
        let plan = self.service.provider.plan();
        Lent {
            plan,
            other_plan: plan,
            first: &self.sizes,
            second: &self.hits,
            other: &self.hits,
        }
    }
}

fn resource<R: Abort>(rt: &R, alloc: Global) -> Resource {
    let attr = Attr::text("service.name", "till");
    Resource::new(alloc, &[attr]).or_fail(rt)
}

// Exports the batch of the counter in an encoding, and writes what the sink then has.
fn tell_encoded<R: Abort, E: Encoding + Drop>(page: &mut Page<'_, R>, encoding: E, lent: Lent<'_>) {
    let mut exporter = TextExporter::of(encoding, CutSink::new(page.alloc, None));
    make(page, &mut exporter, lent, &Call::Second);
    let sink = exporter.into_inner();
    page.push(str::from_utf8(sink.taken()).or_fail(page.rt))
}

#[test]
fn batches_leave_in_each_encoding(rt: HostRuntime) {
    let alloc = rt.alloc();
    let sources = make_sources(&rt, alloc);
    let mut page = Page::new(&rt, alloc);
    let plan = sources.service.provider.plan();
    let lines = OtlpLines::new(plan, 0, resource(&rt, alloc)).or_fail(&rt);
    tell_encoded(&mut page, lines, sources.lent());
    let bytes = OtlpBytes::new(plan, 0, resource(&rt, alloc)).or_fail(&rt);
    tell_encoded(&mut page, bytes, sources.lent());
    page.push("\n");
    let lines = Exposition::new(Dialect::Text);
    tell_encoded(&mut page, lines, sources.lent());
    drop(sources);
    page.assert(ENCODED.concat(alloc).or_fail(&rt).as_str());
}

// The calls of an exporter of pages, each with its answer and the last page that was taken.
const PAGES: &[(Call, &[&str])] = &[
    (Call::First, &["done\n"]),
    (Call::Flush, &["done\n", TARGET, SIZES]),
    (Call::Second, &["done\n", TARGET, SIZES]),
    (Call::Flush, &["1 Write\n", TARGET, SIZES]),
    (Call::ShutDown, &["done\n", TARGET, HITS, SIZES]),
    (Call::Flush, &["2 ShutDown\n", TARGET, HITS, SIZES]),
];

// An exporter of pages for a reader.
fn pages_of<R: Abort>(
    rt: &R,
    alloc: Global,
    plan: &Plan,
    reader: u32,
) -> Result<PageExporter<Shelf>, OutletFault> {
    pages_in(rt, alloc, plan, reader, Dialect::Text)
}

fn pages_in<R: Abort>(
    rt: &R,
    alloc: Global,
    plan: &Plan,
    reader: u32,
    dialect: Dialect,
) -> Result<PageExporter<Shelf>, OutletFault> {
    let shelf = Shelf {
        page: Vec::new(alloc),
        calls: 0,
    };
    let till = resource(rt, alloc);
    PageExporter::new(alloc, plan, reader, dialect, &till, shelf)
}

// Makes a call, and writes the answer and the last page.
fn tell_page<R: Abort>(
    page: &mut Page<'_, R>,
    exporter: &mut PageExporter<Shelf>,
    lent: Lent<'_>,
    call: &Call,
) {
    make(page, exporter, lent, call);
    page.push(str::from_utf8(exporter.pages().page.as_slice()).or_fail(page.rt))
}

#[test]
fn a_page_is_handed_on_after_each_collection(rt: HostRuntime) {
    let alloc = rt.alloc();
    let sources = make_sources(&rt, alloc);
    let lent = sources.lent();
    let mut exporter = pages_of(&rt, alloc, lent.plan, 0).or_fail(&rt);
    for (call, wanted) in PAGES {
        let mut page = Page::new(&rt, alloc);
        tell_page(&mut page, &mut exporter, lent, call);
        page.assert(wanted.concat(alloc).or_fail(&rt).as_str());
    }
    drop(exporter);
    drop(sources)
}

// A delta reader, and a cumulative one.
const BOTH: &str = "format = 1
[[reader]]
name = 'new'
temporality = { counter = 'delta', histogram = 'delta' }
[[reader]]
name = 'all'
";

// Why no page is made for the delta reader, nor for a third; why the second one's is not the first one's; and why a
// service is not begun while that one has none, nor is one told twice.
const TAKEN: &str = "2 Exposed: 1 Delta of stream 0
1 UnknownReader
the exporter was made for another reader
reader 0 has no exporter, and is not ignored
no such reader, or it has its exporter
";

#[test]
fn an_output_takes_the_batches_of_its_reader(rt: HostRuntime) {
    let alloc = rt.alloc();
    let mut page = Page::new(&rt, alloc);
    let mut service = Service::new(&rt, alloc, CATALOGUE, BOTH, 1);
    service.record(&rt, 0, &[], 7);
    let plan = service.provider.plan();
    for reader in [0, 2] {
        let Err(fault) = pages_of(&rt, alloc, plan, reader) else {
            panic!(rt; "made");
        };
        page.say(fault);
    }
    let made = pages_of(&rt, alloc, plan, 1).or_fail(&rt);
    let (provider, _recorders, readers) = service.into_seats();
    let service = Whole::builder(provider, readers, Runs::new());
    let Err(left) = service.tell(alloc, "new", made, 1) else {
        panic!(rt; "told");
    };
    page.say(left.fault);
    let service = left.builder.tell(alloc, "all", left.exporter, 1);
    let Err(untold) = service.or_fail(&rt).build() else {
        panic!(rt; "built");
    };
    page.say(&untold);
    let mut service = untold.builder;
    assert!(rt; service.ignore("new") && !service.ignore("new"));
    let Err(left) = service.tell(alloc, "all", KeepingExporter::new(alloc), 1) else {
        panic!(rt; "told again");
    };
    page.say(&left.fault);
    drop(left);
    page.assert(TAKEN);
}

// A batch of the first reader is not written as a line for the second.
#[test]
fn lines_are_of_their_reader(rt: HostRuntime) {
    let alloc = rt.alloc();
    let mut service = Service::new(&rt, alloc, CATALOGUE, BOTH, 1);
    let batch = service.collect(&rt, alloc, 0, 10);
    let plan = service.provider.plan();
    let lines = OtlpLines::new(plan, 1, resource(&rt, alloc)).or_fail(&rt);
    let mut exporter = TextExporter::of(lines, CutSink::new(alloc, None));
    let told = exporter.export(alloc, plan, &batch);
    drop(exporter);
    assert_equal(&rt, told, Err(ExportFault::OtherReader));
}

// A counter and two levels.
const LEVELS: &str = "format = 1
[[meter]]
name = 'm'
instrument = [
    { name = 'hits', kind = 'counter', range = [0, 100] },
    { name = 'inside', kind = 'up_down_counter', range = [-9, 9] },
    { name = 'heat', kind = 'gauge', range = [0, 100] },
]
[[recorder]]
name = 'r'
budget = [{ instrument = 0, amount = 1 }, { instrument = 1, amount = 1 }, { instrument = 2, amount = 1 }]
";

// What is recorded of each instrument in a run, and what its page then says of them: no count falls but where its
// `_created` rises, and no level of an ended run stays.
type Lived = ([Option<i64>; 3], &'static [&'static str]);

const RUNS: &[Lived] = &[
    (
        [Some(5), Some(2), Some(30)],
        &[
            "hits_total{otel_scope_name=\"m\"} 5\n",
            "hits_created{otel_scope_name=\"m\"} 0.000000000\n",
            "inside{otel_scope_name=\"m\"} 2\n",
            "heat{otel_scope_name=\"m\"} 30\n",
        ],
    ),
    (
        [Some(7), None, None],
        &[
            "hits_total{otel_scope_name=\"m\"} 7\n",
            "hits_created{otel_scope_name=\"m\"} 0.000000020\n",
        ],
    ),
    (
        [None, None, Some(10)],
        &["heat{otel_scope_name=\"m\"} 10\n"],
    ),
    (
        [Some(3), Some(-1), None],
        &[
            "hits_total{otel_scope_name=\"m\"} 3\n",
            "hits_created{otel_scope_name=\"m\"} 0.000000060\n",
            "inside{otel_scope_name=\"m\"} -1\n",
        ],
    ),
    (
        [Some(4), None, None],
        &[
            "hits_total{otel_scope_name=\"m\"} 4\n",
            "hits_created{otel_scope_name=\"m\"} 0.000000080\n",
        ],
    ),
];

// What was written, and how often; the writes of these numbers, from 1 on, take nothing.
#[derive(Drop)]
struct Device {
    written: Mutex<(Vec<u8>, u64)>,
    fails_at: &'static [u64],
}

// A way to a device.
#[derive(Drop)]
struct Wire<'a, R> {
    rt: &'a R,
    device: &'a Device,
    failures: u64,
}

fn wire_to<'a, R>(rt: &'a R, device: &'a Device) -> Wire<'a, R> {
    Wire {
        rt,
        device,
        failures: 0,
    }
}

impl<R: Wait> Sink for Wire<'_, R> {
    ghost contents = { λ _. None };

    ghost failures = { λ s. s.failures };

    fn write(&mut self, buf: &[u8]) -> Result<usize, Broken> {
        let mut written = self.device.written.lock(self.rt);
        written.1 = written.1.saturating_add(1);
        let fails = self.device.fails_at.contains(&written.1);
        if fails || buf.is_empty() || written.0.extend_from_slice(buf).is_err() {
            self.failures = self.failures.saturating_add(1);
            return Err(Broken);
        }
        Ok(buf.len())
    }

    fn flush(&mut self) -> Result<(), Broken> {
        Ok(())
    }
}

impl<'a, R: Wait> OpenSink<Wire<'a, R>> for Wire<'a, R> {
    ghost opens = { λ _ _ _. Unit {0} };

    fn open(&mut self) -> Result<Wire<'a, R>, Broken> {
        Ok(wire_to(self.rt, self.device))
    }
}

// What a decoder of lines adds up of the counter, whose batches are deltas.
fn decoded<R: Abort>(rt: &R, lines: &[u8]) -> i64 {
    let mut sum: i64 = 0;
    for line in str::from_utf8(lines).or_fail(rt).lines() {
        if line.contains("\"name\":\"hits\"") {
            for point in line.split("\"asInt\":\"").skip(1) {
                let (value, _) = point.split_once('"').expect(rt, "no value");
                sum = sum.saturating_add(value.parse().or_fail(rt));
            }
        }
    }
    sum
}

// Lives all runs, of which each begins at 0, 20, 40 ..: a delta reader's batches go to an exporter, a cumulative one
// has a page. Ends where that is not what a run is to say.
fn live_runs<R: Abort + Wait, E: MetricExporter>(rt: &R, alloc: Global, lines: &mut E) {
    let (provider, mut recorders, readers) = Service::new(rt, alloc, LEVELS, BOTH, 1).into_seats();
    let service = Whole::builder(provider, readers, runs_after(1));
    let pages = pages_in(rt, alloc, service.plan(), 1, Dialect::OpenMetricsCreated);
    let service = service.tell(alloc, "new", lines, 1).or_fail(rt);
    let service = service.tell(alloc, "all", pages.or_fail(rt), 1);
    let mut service = service.or_fail(rt).build().or_fail(rt);
    let mut now: u64 = 0;
    for (values, wanted) in RUNS {
        let recorder = recorders.first_mut().expect(rt, "no recorder");
        for (instrument, value) in (0..3).zip(values) {
            if let Some(value) = value {
                let answer = recorder.record(rt, service.provider(), instrument, &[], *value);
                answer.or_fail(rt);
            }
        }
        service.force_flush(rt, alloc, now.saturating_add(10));
        assert_shows(rt, alloc, service.outlets().1.exporter(), wanted);
        now = now.saturating_add(20);
        let next = service.roll_over(rt, alloc, recorders, now).or_fail(rt);
        drop(next.totals);
        (service, recorders) = (next.service, next.recorders);
        // Until the next run has something to say, a page is as it was.
        assert_shows(rt, alloc, service.outlets().1.exporter(), wanted);
    }
    drop(service.end(rt, alloc, recorders, now).or_fail(rt))
}

// Ends the test where a page says something else of its instruments.
fn assert_shows<R: Abort>(rt: &R, alloc: Global, exporter: &PageExporter<Shelf>, wanted: &[&str]) {
    let mut page = Page::new(rt, alloc);
    let text = str::from_utf8(exporter.pages().page.as_slice()).or_fail(rt);
    for line in text.lines() {
        if !line.starts_with('#') && !line.starts_with("target") {
            page.push(line);
            page.push("\n");
        }
    }
    page.assert(wanted.concat(alloc).or_fail(rt).as_str());
}

// Over four roll-overs, while exports fail, each recording of a delta reader leaves once.
#[test]
fn each_reader_has_its_own_way_out(rt: HostRuntime) {
    let device = Device {
        written: Mutex::new((Vec::new(rt.alloc()), 0)),
        fails_at: &[1, 4, 5, 6, 9, 12],
    };
    let plan = certified_plan(rt.alloc(), LEVELS, BOTH).or_fail(&rt);
    let lines = OtlpLines::new(&plan, 0, resource(&rt, rt.alloc())).or_fail(&rt);
    let lines = ReopeningExporter::of(lines, wire_to(&rt, &device));
    let mut queue = Queued::new(rt.alloc(), lines, 99);
    live_runs(&rt, rt.alloc(), &mut queue);
    assert_equal(&rt, (queue.kept().len(), queue.dropped()), (0, 0));
    drop(queue);
    let written = device.written.lock(&rt);
    assert_equal(&rt, decoded(&rt, written.0.as_slice()), 19);
}
