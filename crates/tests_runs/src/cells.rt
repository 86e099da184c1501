//! A cell by its own calls.
use crate::asserted::{OrFail, assert_equal};
use crate::plans::plan_of;
use metric_contents::Refusal;
use metric_core::Cell;
use metric_facts::is_allowed_set;
use metric_lines::push_batch;
use metric_marked::Marked;
use metric_plan::Plan;
use metric_text::push_text;
use std::alloc::Global;
use std::process::Abort;

const SHOP: &str = "format = 2
[[meter]]
name = 'm'
[[meter.instrument]]
name = 'level'
kind = 'gauge'
range = [-9, 9]
[[meter.instrument]]
name = 'hits'
kind = 'counter'
range = [2, 50]
spare = 3
[[recorder]]
name = 'r'
budget = [{ instrument = 1, amount = 3 }]
[[recorder]]
name = 's'
budget = [{ instrument = 1, amount = 1 }]
";

const CONFIG: &str = "format = 1
[[reader]]
name = 'C'
[[reader]]
name = 'D'
temporality = { counter = 'delta' }
[[view]]
instrument_name = 'hits'
[[view]]
instrument_name = 'hits'
stream_name = 'h'
aggregation = 'explicit_bucket_histogram'
boundaries = [5]
";

// What each batch covers with its text, and at last what the getters give and what grants were answered.
const TOLD: &str = "1 1 [0, 2, 100, 130]: collected 130 2
stream reader=\"D\" meter=\"m\" version=\"\" schema=\"\" name=\"hits\" unit=\"\" description=\"\" kind=sum monotonic=yes temporality=delta
point {} start=100 time=130 value=14
stream reader=\"D\" meter=\"m\" version=\"\" schema=\"\" name=\"h\" unit=\"\" description=\"\" kind=histogram bounds=[5] temporality=delta
point {} start=100 time=130 count=2 buckets=[1,1] sum=14 min=5 max=9
1 1 [2, 4, 130, 130]: collected 130 2
stream reader=\"D\" meter=\"m\" version=\"\" schema=\"\" name=\"hits\" unit=\"\" description=\"\" kind=sum monotonic=yes temporality=delta
point {} start=130 time=130 value=6
stream reader=\"D\" meter=\"m\" version=\"\" schema=\"\" name=\"h\" unit=\"\" description=\"\" kind=histogram bounds=[5] temporality=delta
point {} start=130 time=130 count=2 buckets=[2,0] sum=6 min=2 max=4
[1, 2, 20] [4, 2, 2, 0] [0, 4, 0] [0, 2, 0, 1]
[Err(NoSpare), Ok(()), Ok(())] Err(Closed)
";

// Makes a recording without attributes.
fn record<R: Abort>(rt: &R, cell: &mut Cell<Marked>, recorder: u32, value: i64) {
    let facts = cell.facts();
    let set = [0; 8];
    let is_known = (recorder as usize) < facts.budgets.len();
    if is_known && is_allowed_set(facts, &set) && facts.admits(&value) {
        cell.record(recorder, set, value).or_fail(rt)
    } else {
        panic!(rt; "not of this instrument")
    }
}

// Grants a recorder so many recordings.
fn grant(cell: &mut Cell<Marked>, recorder: u32, amount: u64) -> Result<(), Refusal> {
    if recorder as usize >= cell.facts().budgets.len() {
        return Err(Refusal::UnknownRecorder);
    }
    cell.grant(recorder, amount)
}

fn push_collected<R: Abort>(
    out: &mut Vec<u8>,
    rt: &R,
    alloc: Global,
    plan: &Plan,
    cell: &mut Cell<Marked>,
    now: u64,
) {
    if cell.facts().delta.len() < 2 {
        panic!(rt; "no such reader");
    }
    let batch = cell.collect(alloc, 1, now).or_fail(rt);
    let numbers = [batch.from, batch.mark, batch.start, batch.time];
    let covered = format!(in alloc; "{} {} {numbers:?}: ", batch.reader, batch.instrument);
    push_text(out, &covered.or_fail(rt)).or_fail(rt);
    push_batch(out, plan.catalogue(), plan.config(), plan.streams(), &batch).or_fail(rt);
}

// What the getters give; the numbers of other recorders and readers are 0.
fn getters_text<R: Abort>(rt: &R, alloc: Global, cell: &Cell<Marked>) -> String {
    let recorded = [cell.count(), cell.spent(0), cell.spent(1), cell.spent(2)];
    let marks = [cell.mark_of(0), cell.mark_of(1), cell.mark_of(2)];
    let own = [
        i128::from(cell.instrument()),
        i128::from(cell.lo()),
        cell.sum(),
    ];
    let granted = [
        cell.granted(0),
        cell.granted(1),
        cell.granted(2),
        cell.spare(),
    ];
    format!(in alloc; "{own:?} {recorded:?} {marks:?} {granted:?}\n").or_fail(rt)
}

fn push_calls<R: Abort>(
    out: &mut Vec<u8>,
    rt: &R,
    alloc: Global,
    plan: &Plan,
    cell: &mut Cell<Marked>,
) {
    record(rt, cell, 0, 5);
    record(rt, cell, 1, 9);
    push_collected(out, rt, alloc, plan, cell, 130);
    record(rt, cell, 0, 2);
    let open = [grant(cell, 1, 4), grant(cell, 1, 2), grant(cell, 1, 0)];
    record(rt, cell, 1, 4);
    cell.close().or_fail(rt);
    let closed = grant(cell, 0, 0);
    push_collected(out, rt, alloc, plan, cell, 120);
    push_text(out, &getters_text(rt, alloc, cell)).or_fail(rt);
    let grants = format!(in alloc; "{open:?} {closed:?}\n").or_fail(rt);
    push_text(out, &grants).or_fail(rt);
}

fn push_told<R: Abort>(out: &mut Vec<u8>, rt: &R, alloc: Global, plan: &Plan) {
    if plan.all_facts().len() < 2 {
        panic!(rt; "no such instrument");
    }
    let mut cell = Cell::new(alloc, plan, 1, 100).or_fail(rt);
    push_calls(out, rt, alloc, plan, &mut cell);
}

fn told<R: Abort>(rt: &R, alloc: Global) -> String {
    let plan = plan_of(rt, alloc, SHOP, CONFIG);
    let mut out = Vec::new(alloc);
    push_told(&mut out, rt, alloc, &plan);
    String::from_utf8(out).or_fail(rt)
}

#[test]
fn a_cell_answers_each_call(rt: HostRuntime) {
    assert_equal(&rt, told(&rt, rt.alloc()).as_str(), TOLD);
}
