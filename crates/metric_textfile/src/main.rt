//! A job to copy from: what a nightly backup has done is written as a page that the textfile collector of node_exporter
//! reads, and Prometheus scrapes with it. `metric_textfile FILE` replaces FILE, whose name has to end with `.prom`, and
//! prints what it holds.
#![tactic(auto)]

use anyhow::{Context, Result, bail};
use metric_sdk::{
    AnySeat, Attr, Dialect, MeterProvider, PageExporter, PageFile, Pages, Recorder, Resource, Runs,
    Service, counter, gauge, histogram, open, up_down_counter,
};
use std::alloc::Global;
use std::sync::Wait;
use std::time::Clock;
use std::{env, fs};

const CATALOGUE: &str = "format = 1
[[meter]]
name = 'backup'
[[meter.instrument]]
name = 'files'
kind = 'counter'
description = 'Files, by what became of them'
range = [1, 1000000]
key = [{ name = 'result', values = ['copied', 'failed'] }]
[[meter.instrument]]
name = 'file.size'
kind = 'histogram'
unit = 'By'
description = 'How large the copied files are'
range = [0, 1000000000000]
boundaries = [1024, 1048576]
[[meter.instrument]]
name = 'last.success'
kind = 'gauge'
unit = 's'
description = 'When a backup last ended well'
range = [0, 100000000000]
[[meter.instrument]]
name = 'duration'
kind = 'histogram'
unit = 's'
description = 'How long backups take'
range = [0, 86400]
boundaries = [60, 3600]
[[meter.instrument]]
name = 'running'
kind = 'up_down_counter'
description = 'Backups that are under way'
range = [-1, 1]
[[recorder]]
name = 'job'
budget = [
    { instrument = 0, amount = 9 },
    { instrument = 1, amount = 9 },
    { instrument = 2, amount = 1 },
    { instrument = 3, amount = 1 },
    { instrument = 4, amount = 2 },
]
";

const CONFIG: &str = "format = 1\n[[reader]]\nname = 'textfile'\n";

// The files of this night: what became of them, and their sizes in bytes.
const FILES: [(&str, i64); 4] = [
    ("copied", 800),
    ("copied", 700_000),
    ("failed", 90),
    ("copied", 5_000_000),
];

fn main(rt: HostRuntime) -> Result<()> {
    let words: Vec<String> = env::args(&rt)?.collect(rt.alloc())?;
    let [_, path] = words.as_slice() else {
        bail!("usage: metric_textfile FILE.prom");
    };
    let file = PageFile::new(&rt, rt.alloc(), path.as_str())?;
    run(&rt, rt.alloc(), file)?;
    print!(rt; "{}", fs::read_to_string(&rt, path.as_str())?)?;
    Ok(())
}

// Does the night's work, and writes what it recorded.
fn run<R: Wait + Clock, P: Pages + Drop>(rt: &R, alloc: Global, pages: P) -> Result<()> {
    let mut runs = Runs::new();
    let (provider, mut recorders, readers) = open(rt, alloc, CATALOGUE, CONFIG, 0, &mut runs)?;
    let service = Service::builder(provider, readers, runs);
    let reader = service.reader("textfile").context("no reader")?;
    let resource = Resource::new(alloc, &[Attr::text("service.name", "backup")])?;
    // Before anything is recorded: none is made unless a server would hold each sample.
    let page = PageExporter::new(
        alloc,
        service.plan(),
        reader,
        Dialect::Text,
        &resource,
        pages,
    )?;
    let service = service.tell(alloc, "textfile", page, 60_000)?.build()?;
    let recorder = recorders.first_mut().context("no recorder")?;
    back_up(rt, service.provider(), recorder)?;
    service.end(rt, alloc, recorders, 1_000)?;
    Ok(())
}

// Backs up the files of the night: a backup that is counted while it is under way, and timed.
fn back_up<R: Wait + Clock>(
    rt: &R,
    provider: &MeterProvider,
    recorder: &mut Recorder,
) -> Result<()> {
    let plan = provider.plan();
    let running = up_down_counter(plan, "backup", "running", &[])?.bind(plan, &[])?;
    let took = histogram(plan, "backup", "duration", &[])?.bind(plan, &[])?;
    let took = took.timer(plan)?;
    let mut at = recorder.at(rt, provider);
    let (work, counted) = at.during(&running, |recorder| {
        let mut at = recorder.at(rt, provider);
        at.timed(&took, |recorder| copy_all(rt, provider, recorder))
    });
    let (copied, timed) = work;
    copied?;
    timed?;
    counted?;
    let ended = gauge(plan, "backup", "last.success", &[])?;
    at.record(&ended, &[], 1_764_288_000)?;
    Ok(())
}

// Counts the files of the night.
fn copy_all<R: Wait>(rt: &R, provider: &MeterProvider, recorder: &mut Recorder) -> Result<()> {
    let files = counter(provider.plan(), "backup", "files", &["result"])?;
    let sizes = histogram(provider.plan(), "backup", "file.size", &[])?;
    let mut at = recorder.at(rt, provider);
    for (result, bytes) in FILES {
        at.add(&files, &[Attr::text("result", result)], 1)?;
        if result == "copied" {
            at.record(&sizes, &[], bytes)?;
        }
    }
    Ok(())
}

#[cfg(test)]
mod tests {
    use super::*;
    use metric_sdk::{PointValue, value_of};

    #[test]
    fn each_copied_file_is_counted(rt: HostRuntime) -> Result<()> {
        let mut runs = Runs::new();
        let opened = open(&rt, rt.alloc(), CATALOGUE, CONFIG, 0, &mut runs)?;
        let (provider, mut recorders, mut readers) = opened;
        back_up(
            &rt,
            &provider,
            recorders.first_mut().context("no recorder")?,
        )?;
        let reader = readers.first_mut().context("no reader")?;
        let batches = reader.collect_all(&rt, rt.alloc(), &provider, 1_000)?;
        let copied = [Attr::text("result", "copied")];
        let counted = value_of(provider.plan(), &batches, "files", &copied);
        assert!(rt; matches!(counted, Some(PointValue::Sum(3))));
        Ok(())
    }
}
