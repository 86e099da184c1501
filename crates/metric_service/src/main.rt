//! A service to copy from: workers record in threads of their own, while two readers export. What the one named `all`
//! collects is added to a file of lines that the OpenTelemetry Collector reads; what is `new` is written as lines of
//! JSON, by an exporter of the service's own (`json_lines`). What the workers do is in `shop`. `metric_service CATALOGUE
//! CONFIG FILE` starts only where the two texts are safe together, and fails where the totals at its end are not what
//! the workers counted.
#![tactic(auto)]

mod bound;
mod json;
mod json_lines;
mod shop;

use anyhow::{Context, Result, bail, ensure};
use bound::Shop;
use json::Times;
use json_lines::JsonLines;
use metric_sdk::{
    Attr, Marked, NamedText, NoGate, OtlpLines, Plan, Recorder, Resource, Runs, Service,
    ServiceBuilder, StdSink, StopFlag, TextExporter, Totals, diagnosed, live, now, open_with_lanes,
};
use shop::{Served, counted, hired};
use std::env;
use std::fs::{self, File};
use std::rt::{Env, Files};
use std::sync::Wait;
use std::time::Clock;

fn main(rt: HostRuntime) -> Result<()> {
    let alloc = rt.alloc();
    let (service, recorders, file) = opened(&rt)?;
    // No lines are made where a boundary would leave as another one: the protocol has doubles for them.
    let all = service.reader("all").context("no reader \"all\"")?;
    let resource = Resource::new(alloc, &[Attr::text("service.name", "shop")])?;
    let lines = OtlpLines::new(service.plan(), all, resource)?;
    let lines = TextExporter::of(lines, StdSink::new(file));
    let service = service.tell(alloc, "all", lines, 10_000)?;
    // What takes the service's own lines stamps each one.
    let own = JsonLines::new(StdSink::new(rt.stdout()), Times::LeftOut);
    let service = service.tell(alloc, "new", own, 60_000)?.build()?;
    let shop = Shop::of(service.plan())?;
    let workers = hired(alloc, service.plan(), recorders)?;
    let (service, workers) = live(&rt, service, workers, &StopFlag::new(), &shop);
    let counts = counted(alloc, workers.as_slice())?;
    let seats = workers.into_iter().map(|(seat, _)| seat.into_seat());
    let ended = service.end(&rt, alloc, seats.collect(alloc)?, now(&rt)?)?;
    settle(&rt, &ended.plan, &ended.totals, counts)?;
    let ((_, all), new) = &ended.outlets;
    let failed = (all.failed(), new.failed());
    println!(rt; "failed exports by reader: {failed:?}")?;
    Ok(())
}

// Opens the two texts, with a lane for each worker, so that none waits for another; then the file. Tells what is wrong
// with the texts, and where.
fn opened<R: Env + Files<File = File> + Wait + Clock + AllocGlobal>(
    rt: &R,
) -> Result<(ServiceBuilder<(), Marked, NoGate>, Vec<Recorder>, File)> {
    let (alloc, start, mut runs) = (rt.alloc(), now(rt)?, Runs::new());
    let words: Vec<String> = env::args(rt)?.collect(alloc)?;
    let [_, catalogue, config, file] = words.as_slice() else {
        bail!("usage: metric_service CATALOGUE CONFIG FILE");
    };
    let first = fs::read_to_string(rt, catalogue)?;
    let second = fs::read_to_string(rt, config)?;
    let opened = open_with_lanes(rt, alloc, &first, &second, 4, start, &mut runs);
    let texts = [named(catalogue, &first), named(config, &second)];
    let (provider, recorders, readers) = diagnosed(alloc, texts, opened)?;
    let file = File::options().append(true).create(true).open(rt, file)?;
    Ok((Service::builder(provider, readers, runs), recorders, file))
}

fn named<'a>(name: &'a str, text: &'a str) -> NamedText<'a> {
    NamedText { name, text }
}

// Tells what each instrument came to. Fails where that is not what the workers counted.
fn settle<R: Print>(
    rt: &R,
    plan: &Plan,
    totals: &Totals,
    counts: (Served, [u64; 7]),
) -> Result<()> {
    let (served, refused) = counts;
    let totals = totals.instruments.iter().zip(refused);
    for (instrument, (total, refused)) in plan.catalogue().instruments().iter().zip(totals) {
        let (name, count, sum) = (instrument.name.get().as_str(), total.count, total.sum);
        println!(rt; "{name}: {count} recordings, sum {sum}, {refused} refused")?;
        let is_counted = count.saturating_add(refused) == served.recorded;
        ensure!(is_counted, "{name} is not what the workers counted");
    }
    let Served { recorded, unknown } = served;
    println!(rt; "requests: {recorded}, and {unknown} of routes that are not declared")?;
    Ok(())
}
