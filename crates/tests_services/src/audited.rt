//! Runs of seats over books that keep their entries, audited at their end by the journals and slips that are handed
//! out.
use crate::agreement::script_of;
use crate::asserted::OrFail;
use crate::page::Page;
use crate::samples::{BOTH, PAIR};
use crate::seats::{BookSeats, Seats, seats_in_lanes, seats_of};
use metric_audit::{Audited, audit};
use metric_base::Items;
use metric_history::{Batch, Entry, Event, Reply, Slip};
use metric_plan::Plan;
use metric_provider::Totals;
use metric_sdk::certified_plan;
use std::alloc::Global;
use std::process::Abort;
use std::sync::Wait;

// An instrument, what happens on it, and what its audit tells: the entries by their recorders, the slips of both
// recorders, and the answer.
const SCRIPTS: &[(u32, &str, &str)] = &[
    (
        0,
        "%% catalogue
%% config
%% script
start 0
record 0 0 1
record 1 0 3
collect 1 0 10
record 1 0 2
record 0 0 1
collect 0 0 20
collect 1 0 30
",
        "(0, 1)
(1, 3)
(1, 2)
(0, 1)
slips
1
1
slips
3
2
done
",
    ),
    (
        1,
        "%% catalogue
%% config
%% script
start 0
record 1 1 2
close 1
record 0 1 2
collect 0 1 20
",
        "(1, 2)
slips
slips
2
done
",
    ),
];

// The batches among the answers to events.
fn batches_of<R: Abort + Wait>(
    rt: &R,
    alloc: Global,
    seats: &mut BookSeats<Audited>,
    events: &[Event],
) -> Vec<Batch> {
    let mut batches = Vec::new(alloc);
    for event in events {
        if let Reply::Collected(batch) = seats.answer(rt, alloc, event) {
            batches.push(batch).or_fail(rt);
        }
    }
    batches
}

// Writes what an audit of an instrument answers, since the start 0.
fn tell_audit<R: Abort>(
    page: &mut Page<'_, R>,
    plan: &Plan,
    instrument: u32,
    (journal, slips): (&[Entry], &[Items<Slip>]),
    batches: &[Batch],
) {
    let is_one_each = slips.len() == plan.catalogue().recorders().len();
    if instrument as usize >= plan.all_facts().len() || !is_one_each {
        panic!(page.rt; "no such instrument");
    }
    match audit(page.alloc, plan, instrument, 0, journal, slips, batches) {
        Ok(()) => page.push("done\n"),
        Err(fault) => page.say(fault),
    }
}

// Writes the entries and the slips of an instrument, and the answer of their audit.
fn tell_audited<R: Abort>(
    page: &mut Page<'_, R>,
    plan: &Plan,
    instrument: u32,
    totals: &Totals,
    batches: &[Batch],
) {
    let at = instrument as usize;
    let (Some(journal), Some(slips)) = (totals.journals.get(at), totals.slips.get(at)) else {
        panic!(page.rt; "no such journal");
    };
    for entry in journal.as_slice() {
        page.tell((entry.recorder, entry.value));
    }
    for own in slips.as_slice() {
        page.push("slips\n");
        for slip in own.as_slice() {
            page.tell(slip.value);
        }
    }
    let books = (journal.as_slice(), slips.as_slice());
    tell_audit(page, plan, instrument, books, batches)
}

// What the provider of a run comes to.
fn totals_of<R: Abort + Wait>(rt: &R, alloc: Global, seats: BookSeats<Audited>) -> Totals {
    let (provider, recorders, _) = seats.into_parts();
    match provider.finish(rt, alloc, recorders) {
        Ok(totals) => totals,
        Err(_) => panic!(rt; "not finished"),
    }
}

// Writes the audit of the instrument of this number after its script. Lanes are allowed, and there are none: of entries
// in several no order is known.
fn tell_run<R: Abort + Wait>(page: &mut Page<'_, R>, instrument: u32, script: &str) {
    let (rt, alloc) = (page.rt, page.alloc);
    let script = script_of(rt, alloc, script);
    let mut seats: BookSeats<Audited> = seats_in_lanes(rt, alloc, PAIR, BOTH, 0, (1, 2));
    let batches = batches_of(rt, alloc, &mut seats, script.events.as_slice());
    let totals = totals_of(rt, alloc, seats);
    let plan = certified_plan(alloc, PAIR, BOTH).or_fail(rt);
    tell_audited(page, &plan, instrument, &totals, &batches)
}

#[test]
fn a_run_is_audited_by_its_slips(rt: HostRuntime) {
    for (instrument, script, wanted) in SCRIPTS {
        let mut page = Page::new(&rt, rt.alloc());
        tell_run(&mut page, *instrument, script);
        page.assert(wanted);
    }
}

// Writes what the seats of another book answer to a recording of 1, and how many they are told of.
fn tell_crossed<R: Abort + Wait>(page: &mut Page<'_, R>) {
    let mut plain: Seats = seats_of(page.rt, page.alloc, PAIR, BOTH, 0, 1);
    let mut kept: BookSeats<Audited> = seats_of(page.rt, page.alloc, PAIR, BOTH, 0, 1);
    let plainly = plain.recorders.first_mut().expect(page.rt, "no seat");
    let keeping = kept.recorders.first_mut().expect(page.rt, "no seat");
    page.tell(plainly.record(page.rt, &kept.provider, 0, &[], 1));
    page.tell(plainly.accepted(0));
    page.tell(keeping.record(page.rt, &plain.provider, 0, &[], 1));
    page.tell((keeping.accepted(0), keeping.slips(0).len()))
}

const CROSSED: &str = "Err(Stranger)
Some(Told { count: 0, amount: 0 })
Ok(())
(Some(Told { count: 1, amount: 1 }), 0)
";

#[test]
fn a_seat_without_slips_is_a_stranger_where_entries_are_kept(rt: HostRuntime) {
    let mut page = Page::new(&rt, rt.alloc());
    tell_crossed(&mut page);
    page.assert(CROSSED);
}
