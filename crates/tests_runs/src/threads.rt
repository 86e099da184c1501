//! What recorders and readers do in threads at once, audited after they have ended.
use crate::asserted::{OrFail, assert_equal};
use crate::plans::certified_plan;
use metric_audit::{Audited, audit};
use metric_base::Items;
use metric_history::{Batch, Entry, Slip};
use metric_kit_program::{SeatsRun, ThreadsOptions, run_seats};
use metric_plan::Plan;
use metric_provider::Totals;
use std::alloc::Global;
use std::process::Abort;
use std::sync::Wait;
use std::thread::Threads;

// Two counters; three more, each with one allowed combination: the first values of the required keys, their last
// values, and the first values of all keys. Two recorders with ten recordings of each.
const CATALOGUE: &str = "format = 2
[[meter]]
name = 'm'
instrument = [
    { name = 'A', kind = 'counter', range = [0, 3] },
    { name = 'B', kind = 'counter', range = [0, 3] },
    { name = 'first', kind = 'counter', range = [0, 3], allowed = [[1, 0, 1]], key = [{ name = 'a', values = ['x', 'y'] }, { name = 'b', values = ['p'], optional = true }, { name = 'c', values = [7, true] }] },
    { name = 'last', kind = 'counter', range = [0, 3], allowed = [[2, 0, 2]], key = [{ name = 'a', values = ['x', 'y'] }, { name = 'b', values = ['p'], optional = true }, { name = 'c', values = [7, true] }] },
    { name = 'all', kind = 'counter', range = [0, 3], allowed = [[1, 1, 1]], key = [{ name = 'a', values = ['x', 'y'] }, { name = 'b', values = ['p'], optional = true }, { name = 'c', values = [7, true] }] },
]
[[recorder]]
name = 'r0'
budget = [{ instrument = 0, amount = 10 }, { instrument = 1, amount = 10 }, { instrument = 2, amount = 10 }, { instrument = 3, amount = 10 }, { instrument = 4, amount = 10 }]
[[recorder]]
name = 'r1'
budget = [{ instrument = 0, amount = 10 }, { instrument = 1, amount = 10 }, { instrument = 2, amount = 10 }, { instrument = 3, amount = 10 }, { instrument = 4, amount = 10 }]
";

// A cumulative reader and a delta reader.
const CONFIG: &str = "format = 1
[[reader]]
name = 'C'
[[reader]]
name = 'D'
temporality = { counter = 'delta' }
";

// Two recordings more than a budget has.
const TWELVE_EACH: ThreadsOptions = ThreadsOptions { each: 12 };

// How often the threads run.
const RUNS: u32 = 200;

// What each instrument comes to: its recordings, the times of the batches that the readers were told, those of one
// reader after those of the other, and what its audit answers.
const TOLD: &str = "20 recordings of 60, batches at 1 2 3 4 5 6 7 8 1 2 3 4 5 6 7 8: done
20 recordings of 60, batches at 1 2 3 4 5 6 7 8 1 2 3 4 5 6 7 8: done
20 recordings of 60, batches at 1 2 3 4 5 6 7 8 1 2 3 4 5 6 7 8: done
0 recordings of 0, batches at 1 2 3 4 5 6 7 8 1 2 3 4 5 6 7 8: done
0 recordings of 0, batches at 1 2 3 4 5 6 7 8 1 2 3 4 5 6 7 8: done
";

// What the threads of a certified plan come to.
fn run_of<R: Abort + Threads + Wait + Sync>(rt: &R, alloc: Global, plan: Plan) -> SeatsRun {
    if !plan.is_certified() {
        panic!(rt; "a plan that is not certified");
    }
    run_seats::<R, Audited>(rt, alloc, TWELVE_EACH, plan).or_fail(rt)
}

// The batches of each of so many instruments, in their order.
fn by_instrument<R: Abort>(
    rt: &R,
    alloc: Global,
    batches: Vec<Batch>,
    count: u32,
) -> Vec<Vec<Batch>> {
    let mut lists: Vec<Vec<Batch>> = Vec::new(alloc);
    for _ in 0..count {
        lists.push(Vec::new(alloc)).or_fail(rt);
    }
    for batch in batches {
        if let Some(own) = lists.get_mut(batch.instrument as usize) {
            own.push(batch).or_fail(rt);
        }
    }
    lists
}

// Writes what an audit of an instrument answers.
fn write_audit<R: Abort>(
    out: &mut String,
    rt: &R,
    alloc: Global,
    plan: &Plan,
    instrument: u32,
    journal: &[Entry],
    slips: &[Items<Slip>],
    batches: &[Batch],
) {
    let is_one_each = slips.len() == plan.catalogue().recorders().len();
    if instrument as usize >= plan.all_facts().len() || !is_one_each {
        panic!(rt; "no such instrument");
    }
    match audit(alloc, plan, instrument, 0, journal, slips, batches) {
        Ok(()) => out.push_str("done\n").or_fail(rt),
        Err(fault) => writeln!(out, "{fault}").or_fail(rt),
    }
}

// Writes the times of batches, and a colon.
fn write_times<R: Abort>(out: &mut String, rt: &R, batches: &[Batch]) {
    for batch in batches {
        write!(out, " {}", batch.time).or_fail(rt);
    }
    out.push_str(": ").or_fail(rt);
}

// Writes what an instrument comes to, and its audit.
fn write_instrument<R: Abort>(
    out: &mut String,
    rt: &R,
    alloc: Global,
    plan: &Plan,
    instrument: u32,
    totals: &Totals,
    batches: &[Vec<Batch>],
) {
    let at = instrument as usize;
    let (Some(total), Some(journal), Some(slips), Some(batches)) = (
        totals.instruments.get(at),
        totals.journals.get(at),
        totals.slips.get(at),
        batches.get(at),
    ) else {
        panic!(rt; "no such instrument");
    };
    write!(
        out,
        "{} recordings of {}, batches at",
        total.count, total.sum
    )
    .or_fail(rt);
    write_times(out, rt, batches);
    let (journal, slips) = (journal.as_slice(), slips.as_slice());
    write_audit(out, rt, alloc, plan, instrument, journal, slips, batches);
}

fn write_run<R: Abort + Threads + Wait + Sync>(out: &mut String, rt: &R, alloc: Global) {
    let run = run_of(rt, alloc, certified_plan(rt, alloc, CATALOGUE, CONFIG));
    let SeatsRun { totals, batches } = run;
    let plan = certified_plan(rt, alloc, CATALOGUE, CONFIG);
    let count = plan.catalogue().instruments().len() as u32;
    let batches = by_instrument(rt, alloc, batches, count);
    for instrument in 0..count {
        write_instrument(out, rt, alloc, &plan, instrument, &totals, &batches);
    }
}

#[test]
fn what_threads_do_is_audited(rt: HostRuntime) {
    for run in 0..RUNS {
        let mut told = String::new(rt.alloc());
        write_run(&mut told, &rt, rt.alloc());
        assert_equal(&rt, (run, told.as_str()), (run, TOLD));
    }
}
