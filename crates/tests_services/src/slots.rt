//! A slot by its own calls, and what it comes to by the seats of recorders that were told of nothing.
ghost use Rattle.std.specs.Prelude.{◌≡◌, IsTrue, length};

use crate::asserted::OrFail;
use crate::page::Page;
use crate::samples::{HITS, MAIN};
use metric_facts::{Facts, is_allowed_set};
use metric_marked::Marked;
use metric_plan::Plan;
use metric_provider::{NoGate, OpenLanes, Recorder, Seen, Slot, Told, settle, start};
use metric_sdk::certified_plan;
use std::alloc::Global;
use std::process::Abort;
use std::sync::Wait;

// Writes the answer to a recording, and what its recorder was told.
fn tell_recorded<R: Abort>(page: &mut Page<'_, R>, slot: &mut Slot<Marked>, facts: &Facts) {
    let set = [0; 8];
    if !is_allowed_set(facts, &set) || facts.budgets.is_empty() || !facts.admits(&5) {
        panic!(page.rt; "no such recording");
    }
    let mut told = Told {
        count: 0,
        amount: 0,
    };
    let is_own = slot.is_of(facts);
    let answer = slot.record(is_own, facts, &mut told, 0, set, 5);
    page.tell((answer, told))
}

// Another start than the slot's with what was seen, and with its start another count and another time.
fn others_of(seen: Seen) -> [(u64, Seen); 3] {
    let (mark, time) = (seen.mark, seen.time);
    [
        (1, seen),
        (0, Seen { mark: 0, time }),
        (0, Seen { mark, time: 9 }),
    ]
}

// Writes the batch of the first reader, and what that has seen; then what it is told that has seen something else.
fn tell_collected<R: Abort>(page: &mut Page<'_, R>, slot: &mut Slot<Marked>, facts: &Facts) {
    if facts.delta.is_empty() {
        panic!(page.rt; "no reader");
    }
    let mut seen = Seen::nothing(0);
    page.collected(slot.collect(page.alloc, facts, 0, &mut seen, 0, 10));
    page.tell((seen.mark, slot.cell().count(), seen.time));
    for (start, seen) in others_of(seen) {
        let mut told = seen;
        let answer = slot.collect(page.alloc, facts, start, &mut told, 0, 20);
        page.tell((answer.err(), told == seen));
    }
}

// Writes what the recordings of a slot come to.
fn tell_settled<R: Abort>(
    page: &mut Page<'_, R>,
    plan: &Plan,
    slot: Slot<Marked>,
    recorders: &[Recorder],
)
    requires { length plan.now.facts.instruments ≡ 1 }
{
    let lanes = OpenLanes::one(page.alloc, slot).or_fail(page.rt);
    match settle(page.alloc, plan, std::slice::from_ref(&lanes), recorders) {
        Ok(totals) => page.tell(totals),
        Err(fault) => page.say(fault),
    }
}

// Writes what a slot of the only instrument answers to a recording, a collection and two ends, if it is called, and
// what it comes to.
fn tell_slot<R: Abort>(page: &mut Page<'_, R>, plan: &Plan, recorders: &[Recorder], is_called: bool)
    requires certified { IsTrue plan.now.is_certified }
    requires one { length plan.now.facts.instruments ≡ 1 }
{
    let mut slot: Slot<Marked> = Slot::new(page.alloc, plan, 0, 0).or_fail(page.rt);
    if is_called {
        tell_recorded(page, &mut slot, plan.facts(0));
        tell_collected(page, &mut slot, plan.facts(0));
        page.tell([slot.close(), slot.close()]);
    }
    tell_settled(page, plan, slot, recorders)
}

// Writes the same for the seats of a plan that are told of nothing.
fn tell_untold<R: Abort + Wait>(page: &mut Page<'_, R>, plan: Plan, is_called: bool)
    requires certified { IsTrue plan.is_certified }
    requires one { length plan.facts.instruments ≡ 1 }
{
    match start::<R, Marked, NoGate>(page.rt, page.alloc, plan, 0, 1, NoGate) {
        Ok((provider, recorders, _)) => tell_slot(page, provider.plan(), &recorders, is_called),
        Err((_, _, refused)) => Err(refused).or_fail(page.rt),
    }
}

// Whether the slot is called, and what is told.
const SLOTS: &[(bool, &str)] = &[
    (false, "[Total { count: 0, sum: 0 }]\n"),
    (
        true,
        "(Ok(()), Told { count: 1, amount: 5 })
0 0, 0 to 1, 0 to 10: stream 0 [0 0] 5
(1, 1, 10)
(Some(Stranger), true)
(Some(Stranger), true)
(Some(Stranger), true)
[Ok(()), Err(Closed)]
3 AuditMismatch
",
    ),
];

fn tell_case<R: Abort + Wait>(page: &mut Page<'_, R>, is_called: bool) {
    let plan = certified_plan(page.alloc, HITS, MAIN).or_fail(page.rt);
    if plan.all_facts().len() != 1 {
        panic!(page.rt; "not one instrument");
    }
    tell_untold(page, plan, is_called)
}

#[test]
fn a_slot_comes_to_what_seats_were_told(rt: HostRuntime) {
    for (is_called, wanted) in SLOTS {
        let mut page = Page::new(&rt, rt.alloc());
        tell_case(&mut page, *is_called);
        page.assert(wanted);
    }
}
