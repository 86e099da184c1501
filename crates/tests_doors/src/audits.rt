//! Tests of the audit of a whole run, through the door.
use crate::asserted::OrFail;
use crate::page::Page;
use metric_sdk::{
    AuditedProvider, Batch, Collector, Entry, Extent, Items, Recorder, Runs, Slip, Totals,
    audit_run, certified_plan, counter, open_audited,
};
use std::alloc::Global;
use std::process::Abort;
use std::sync::Wait;

const SHOP: &str = "format = 1
[[meter]]
name = 'shop'
[[meter.instrument]]
name = 'orders'
kind = 'counter'
range = [1, 100]
[[meter.instrument]]
name = 'returns'
kind = 'counter'
range = [1, 9]
[[recorder]]
name = 'till'
budget = [{ instrument = 0, amount = 9 }, { instrument = 1, amount = 9 }]
";

const READERS: &str = "format = 1
[[reader]]
name = 'all'
[[reader]]
name = 'new'
temporality = { counter = 'delta' }
";

// What is changed of what a run handed out.
enum Change {
    // Nothing.
    None,
    // The batches stand the other way round.
    Reversed,
    // The last batch is not there.
    Last,
    // The first batch is of another plan, or of another instrument.
    Plan,
    Instrument(u32),
    // The first batch has another mark.
    Mark,
    // There are no slips of the last instrument, or not of its recorder; or the first is of another value.
    Lists,
    Recorder,
    Slip,
    // The first entry and its slip are out of range.
    Entry,
}

// How much of a run is to be told, and a change of it, each with what its audit answers. There are eight batches: of
// both readers, at two moments, of both instruments.
const AUDITS: &[(Extent, Change, &str)] = &[
    (Extent::Whole, Change::None, "done\n"),
    (Extent::Partial, Change::None, "done\n"),
    (
        Extent::Whole,
        Change::Last,
        "4 Uncovered by reader 1: instrument 1\n",
    ),
    (Extent::Partial, Change::Last, "done\n"),
    (Extent::Whole, Change::Plan, "1 Strange at 0\n"),
    (Extent::Whole, Change::Instrument(2), "1 Strange at 0\n"),
    (
        Extent::Whole,
        Change::Instrument(1),
        "3 Instrument 1: 2 Batch at 0\n",
    ),
    (
        Extent::Whole,
        Change::Mark,
        "3 Instrument 0: 2 Batch at 0\n",
    ),
    (
        Extent::Whole,
        Change::Reversed,
        "3 Instrument 0: 2 Batch at 0\n",
    ),
    (Extent::Whole, Change::Lists, "2 Lists of instrument 1\n"),
    (Extent::Whole, Change::Recorder, "2 Lists of instrument 1\n"),
    (
        Extent::Whole,
        Change::Slip,
        "3 Instrument 0: 1 Slips of recorder 0\n",
    ),
    (
        Extent::Whole,
        Change::Entry,
        "3 Instrument 0: 4 Entry at 0\n",
    ),
];

// What a run handed out.
struct Told {
    totals: Totals,
    batches: Vec<Batch>,
}

fn record<R: Abort + Wait>(
    rt: &R,
    provider: &AuditedProvider,
    seat: &mut Recorder,
    values: [i64; 2],
) {
    let plan = provider.plan();
    let [orders, returns] = values;
    let handle = counter(plan, "shop", "orders", &[]).or_fail(rt);
    handle.add(rt, provider, seat, &[], orders).or_fail(rt);
    let handle = counter(plan, "shop", "returns", &[]).or_fail(rt);
    handle.add(rt, provider, seat, &[], returns).or_fail(rt);
}

// Lets each reader collect both instruments.
fn collect<R: Abort + Wait>(
    rt: &R,
    alloc: Global,
    provider: &AuditedProvider,
    readers: &mut [Collector],
    now: u64,
    batches: &mut Vec<Batch>,
) {
    for reader in readers {
        for instrument in 0..2 {
            let batch = reader.collect(rt, alloc, provider, instrument, now);
            batches.push(batch.or_fail(rt)).or_fail(rt);
        }
    }
}

fn run<R: Abort + Wait>(rt: &R, alloc: Global) -> Told {
    let mut runs = Runs::new();
    let opened = open_audited(rt, alloc, SHOP, READERS, 5, &mut runs).or_fail(rt);
    let (provider, mut seats, mut readers) = opened;
    let mut batches = Vec::new(alloc);
    for (now, values) in [(10, [7, 1]), (20, [8, 2])] {
        let seat = seats.first_mut().expect(rt, "no recorder");
        record(rt, &provider, seat, values);
        collect(
            rt,
            alloc,
            &provider,
            readers.as_mut_slice(),
            now,
            &mut batches,
        );
    }
    match provider.finish(rt, alloc, seats) {
        Ok(totals) => Told { totals, batches },
        Err((_, _, fault)) => Err(fault).or_fail(rt),
    }
}

fn slip_of<R: Abort>(rt: &R, alloc: Global, values: &[i64]) -> Items<Slip> {
    let mut slips = Items::new(alloc);
    for value in values {
        slips
            .push(Slip {
                set: [0; 8],
                value: *value,
            })
            .or_fail(rt);
    }
    slips
}

// The journal and the slips of the first instrument, whose recorder made recordings of these values; the slips are of
// others.
fn tell<R: Abort>(rt: &R, alloc: Global, totals: &mut Totals, values: &[i64], slips: &[i64]) {
    let mut journal = Items::new(alloc);
    for value in values {
        let entry = Entry {
            recorder: 0,
            set: [0; 8],
            value: *value,
        };
        journal.push(entry).or_fail(rt);
    }
    let mut own = Items::new(alloc);
    own.push(slip_of(rt, alloc, slips)).or_fail(rt);
    *totals.journals.first_mut().expect(rt, "no journal") = journal;
    *totals.slips.first_mut().expect(rt, "no slips") = own;
}

fn change_batch(batches: &mut Vec<Batch>, change: &Change) {
    let Some(first) = batches.first_mut() else {
        return;
    };
    match change {
        Change::Plan => first.plan = first.plan.wrapping_add(1),
        Change::Instrument(number) => first.instrument = *number,
        Change::Mark => first.mark = 2,
        _ => {}
    }
}

fn make_change<R: Abort>(rt: &R, alloc: Global, told: &mut Told, change: &Change) {
    let Told { totals, batches } = told;
    change_batch(batches, change);
    match change {
        Change::Reversed => batches.as_mut_slice().reverse(),
        Change::Last => batches.truncate(7),
        Change::Lists => totals.slips.truncate(1),
        Change::Recorder => {
            totals.slips.truncate(1);
            totals.slips.push(Items::new(alloc)).or_fail(rt);
        }
        Change::Slip => tell(rt, alloc, totals, &[7, 8], &[7, 9]),
        Change::Entry => tell(rt, alloc, totals, &[101, 8], &[101, 8]),
        _ => {}
    }
}

// Writes what the audit of a run answers, of which so much is told after a change.
fn tell_audit<R: Abort + Wait>(page: &mut Page<'_, R>, extent: Extent, change: &Change) {
    let mut told = run(page.rt, page.alloc);
    make_change(page.rt, page.alloc, &mut told, change);
    let plan = certified_plan(page.alloc, SHOP, READERS).or_fail(page.rt);
    let Told { totals, batches } = told;
    page.answer(audit_run(page.alloc, &plan, &totals, 5, batches, extent));
    drop(totals)
}

#[test]
fn a_run_is_audited_as_a_whole(rt: HostRuntime) {
    for (extent, change, wanted) in AUDITS {
        let mut page = Page::new(&rt, rt.alloc());
        tell_audit(&mut page, *extent, change);
        page.assert(wanted);
    }
}
