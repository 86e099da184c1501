//! A service that lives long, to copy from: budgets with a spare that seats ask for, runs that roll over, and a queue
//! that outlives them over an exporter whose device is out for a while. What was exported adds up to what was recorded:
//! no window is lost, and none is exported twice. What the workers do is in `workers`, the exporter in `ledger`.
#![tactic(auto)]

mod ledger;
mod workers;

use anyhow::{Result, ensure};
use ledger::{Device, Ledger};
use metric_sdk::{
    Marked, NextRun, NoGate, Outlet, Outlets, Plan, Queued, Recorder, Runs, Service, StopFlag,
    Totals, headrooms, live, now, open,
};
use std::alloc::Global;
use std::sync::Wait;
use std::thread::Threads;
use std::time::Clock;
use workers::{Jobs, hired, seats_of};

// Each worker has a budget of 2 recordings in a run; 10 more are granted to whoever asks.
const CATALOGUE: &str = "format = 2
[[meter]]
name = 'office'
[[meter.instrument]]
name = 'pages'
kind = 'counter'
range = [1, 9]
spare = 10
key = [{ name = 'kind', values = ['mail', 'print'] }]
[[recorder]]
name = 'first'
budget = [{ instrument = 0, amount = 2 }]
[[recorder]]
name = 'second'
budget = [{ instrument = 0, amount = 2 }]
";

const CONFIG: &str = "format = 1
[[reader]]
name = 'new'
temporality = { counter = 'delta' }
";

// A service whose queue keeps what the device does not take.
type Office<'a> = Service<((), Outlet<Queued<Ledger<'a>>>), Marked, NoGate>;

fn main(rt: HostRuntime) -> Result<()> {
    let (device, mut recorded) = (Device::new(), 0i128);
    let (mut office, mut recorders) = opened(&rt, rt.alloc(), &device)?;
    for is_out in [false, true, false] {
        device.set_out(is_out);
        let next = live_once(&rt, office, recorders)?;
        recorded = recorded.saturating_add(sum_of(&next.totals));
        (office, recorders) = (next.service, next.recorders);
        let waits = !office.outlets().1.exporter().kept().is_empty();
        println!(rt; "recorded: {recorded}, some waits in the queue: {waits}")?;
    }
    let ended = office.end(&rt, rt.alloc(), recorders, now(&rt)?)?;
    tell_exported(&rt, ended.outlets.1.exporter(), recorded)
}

// The office in its first run, with the seats of its recorders. Its reader exports every millisecond.
fn opened<'a, R: Wait + Clock + Print>(
    rt: &R,
    alloc: Global,
    device: &'a Device,
) -> Result<(Office<'a>, Vec<Recorder>)> {
    let (start, mut runs) = (now(rt)?, Runs::new());
    let (provider, recorders, readers) = open(rt, alloc, CATALOGUE, CONFIG, start, &mut runs)?;
    let queue = Queued::new(alloc, Ledger::new(device), 1_000);
    let office = Service::builder(provider, readers, runs).tell(alloc, "new", queue, 1)?;
    tell_headroom(rt, alloc, office.plan())?;
    Ok((office.build()?, recorders))
}

// How many recordings the budgets and the spare allow in a run, and up to how many they could be raised.
fn tell_headroom<R: Print>(rt: &R, alloc: Global, plan: &Plan) -> Result<()> {
    for headroom in headrooms(alloc, plan.catalogue(), plan.config())?.as_slice() {
        let (total, most) = (headroom.total, headroom.most);
        println!(rt; "recordings in a run: {total}, safe up to {most}")?;
    }
    Ok(())
}

// One run: the workers record while the outlets export. Tells what they left, and begins the next run.
fn live_once<R, O>(
    rt: &R,
    service: Service<O, Marked, NoGate>,
    recorders: Vec<Recorder>,
) -> Result<NextRun<O, Marked, NoGate>>
where
    R: Threads + Wait + Clock + Print + Sync + AllocGlobal,
    O: Outlets + Drop + Send,
{
    let (alloc, jobs) = (rt.alloc(), Jobs::new(service.plan())?);
    let workers = hired(alloc, service.plan(), recorders)?;
    let (service, workers) = live(rt, service, workers, &StopFlag::new(), &jobs);
    jobs.tell_left(rt, service.provider(), workers.as_slice())?;
    let seats = seats_of(alloc, workers)?;
    Ok(service.roll_over(rt, alloc, seats, now(rt)?)?)
}

// What was recorded in a run.
fn sum_of(totals: &Totals) -> i128 {
    match totals.instruments.as_slice() {
        [pages] => pages.sum,
        _ => 0,
    }
}

// Tells what was exported. Fails where that is not all that was recorded, once.
fn tell_exported<R: Print>(rt: &R, queue: &Queued<Ledger<'_>>, recorded: i128) -> Result<()> {
    let (exported, gaps) = (queue.inner().sum(), queue.inner().gaps());
    let (kept, lost) = (queue.kept().len(), queue.dropped());
    println!(rt; "exported: {exported}, gaps {gaps}, kept {kept}, lost {lost}")?;
    let is_all = i128::from(exported) == recorded;
    ensure!(is_all, "not all was exported once");
    Ok(())
}
