//! Work that is counted while it goes on.
ghost use Rattle.std.specs.Prelude.{◌≡◌, ◌-◌, IfErr, IfOk, OnOk, slice_index};
ghost use Rattle.std.specs.Fn.{FnOnceReturnsAtMut};
ghost use Rattle.metric_handles.specs.Calls.{MakesByBound};
ghost use Rattle.metric_handles.specs.Works.{Begins, ComesBack, HasRoomForBoth, HasWayBack, LacksBoth, LacksRoomForBoth, LacksWayBack, TakesBack};
ghost use Rattle.metric_seat.specs.Recordings.{told_at};

use crate::at::At;
use crate::bound::BoundUpDownCounter;
use crate::jobs::Need;
use crate::recorded::Recorded;
use crate::rooms::{Rooms, RoomsOf};
use metric_contents::Refusal;
use metric_facts::Facts;
use metric_history::Book;
use metric_plan::Plan;
use metric_provider::{Gate, Recorder};
use std::sync::Wait;

impl<R: Wait, S: Recorded, B: Book, G: Gate> At<'_, R, S, B, G> {
    /// Does some work, and counts it as under way meanwhile: 1 is added to an up-down counter before it, and taken
    /// away after it, whatever the work gave (Metrics API, UpDownCounter). The work is lent the seat. A `?` inside the
    /// work ends the work alone, so no way out of it leaves the count behind. The work is done whatever is refused;
    /// with what it gave comes the first refusal.
    ///
    /// Nothing is added where it could not be taken away again: where the instrument's range has no -1
    /// (`ValueRange`), and where the recorder has no room for both recordings (`Budget`), once the seat has made room
    /// for both ([`Recorded::make_room`]). The seat is not called then, so a [`Counted`](crate::Counted) one counts
    /// nothing. What the work itself records on the instrument takes of the same room, and an instrument that is closed
    /// meanwhile keeps the count: the refusal tells.
    pub fn during<T, F: FnOnce(&mut S) -> T>(
        &mut self,
        active: &BoundUpDownCounter,
        work: F,
    ) -> (T, Result<(), Refusal>)
        requires { F.IsAlwaysCallable work }
        ensures same { self.new.seat.ghost_name ≡ self.old.seat.ghost_name }
        ensures provider { self.new.provider.now ≡ self.old.provider.now }
        ensures counted { let p = self.old.provider.now in
            let makes = MakesByBound B.KEEPS_ENTRIES B.spares_memory S.seat S.notes S.records_set p
            active.now in
            ComesBack S.seat (S.makes_room p) makes (FnOnceReturnsAtMut F.FnOnce work) p active.now
            self.old.seat.now self.new.seat.now result.0 result.1 }
    {
        let began = self.begin(active);
        let done = work(self.seat);
        match began {
            Ok(()) => {
                let ended = active.add(self.rt, self.provider, self.seat, -1);
                (done, ended)
            }
            Err(refusal) => (done, Err(refusal)),
        }
    }

    // Adds 1, where it can be taken away again, once the seat has made room for both.
    fn begin(&mut self, active: &BoundUpDownCounter) -> Result<(), Refusal>
        ensures same { self.new.seat.ghost_name ≡ self.old.seat.ghost_name }
        ensures provider { self.new.provider.now ≡ self.old.provider.now }
        ensures begins { let p = self.old.provider.now in
            let makes = MakesByBound B.KEEPS_ENTRIES B.spares_memory S.seat S.notes S.records_set p
            active.now in
            Begins S.seat (S.makes_room p) makes p active.now self.old.seat.now self.new.seat.now
            result }
    {
        let facts = takes_back(self.provider.plan(), active)?;
        self.seat
            .make_room(self.rt, self.provider, active.number(), 2);
        self.has_both(active, facts)?;
        active.add(self.rt, self.provider, self.seat, 1)
    }

    // Whether there is room for what is added and for what is taken away.
    #[tactic(auto, using(crate::proofs::WayLaws::has_way))]
    fn has_both(&self, active: &BoundUpDownCounter, facts: &Facts) -> Result<(), Refusal>
        requires { TakesBack self.now.provider.now.plan active.now facts.now }
        ensures ok { let p = self.now.provider.now in let seat = S.seat self.now.seat.now in
            OnOk result (HasWayBack p.plan seat active.now.instrument) }
        ensures err { let p = self.now.provider.now in let seat = S.seat self.now.seat.now in
            IfErr result (LacksBoth p seat active.now) }
    {
        let recorder = self.seat.recorder();
        let rooms = RoomsOf {
            recorder,
            rt: self.rt,
            provider: self.provider,
        };
        let both = Need {
            plan: active.plan(),
            instrument: active.number(),
            count: 2,
        };
        has_room(&rooms, &both, left_in(facts, recorder, both.instrument))
    }
}

// The facts of the instrument that attributes are bound to, where its range has -1.
#[tactic(auto, using(crate::proofs::WayLaws::lacks_range))]
fn takes_back<'a>(plan: &'a Plan, active: &BoundUpDownCounter) -> Result<&'a Facts, Refusal>
    ensures ok { IfOk result (λ facts. TakesBack plan.now active.now facts.now) }
    ensures err { IfErr result (LacksWayBack plan.now active.now) }
{
    let number = active.number();
    if active.plan() != plan.fingerprint() {
        return Err(Refusal::Stranger);
    }
    if number as usize >= plan.all_facts().len() {
        return Err(Refusal::UnknownInstrument);
    }
    let facts = plan.facts(number);
    if !facts.admits(&-1) {
        return Err(Refusal::ValueRange);
    }
    Ok(facts)
}

// Whether there is room for two recordings, where so many are left of the budget alone. The lock is taken only where
// these are not enough.
fn has_room<M: Rooms>(rooms: &M, both: &Need, left: u64) -> Result<(), Refusal>
    ensures ok { OnOk result (HasRoomForBoth (M.tells rooms.now both.now) left) }
    ensures err { IfErr result (LacksRoomForBoth (M.tells rooms.now both.now) left) }
{
    if left >= 2 {
        return Ok(());
    }
    match rooms.room(both) {
        Ok(room) if room >= 2 => Ok(()),
        Ok(_) => Err(Refusal::Budget),
        Err(_) => Err(Refusal::Stranger),
    }
}

// How many recordings of its budget a recorder was not told of yet.
fn left_in(facts: &Facts, recorder: &Recorder, number: u32) -> u64
    ensures { let declared = slice_index facts.now.budgets recorder.now.number in
        result ≡ declared - (told_at recorder.now number).count }
{
    declared_for(facts, recorder.number()).saturating_sub(told_count(recorder, number))
}

fn declared_for(facts: &Facts, recorder: u32) -> u64
    ensures { result ≡ slice_index facts.now.budgets recorder }
{
    let budgets = facts.budgets.as_slice();
    budgets.get(recorder as usize).copied().unwrap_or(0)
}

/// How many recordings on the instrument of a number a recorder was told of.
#[tactic(auto, using(crate::proofs::WayLaws::told_some, crate::proofs::WayLaws::told_none))]
pub(crate) fn told_count(recorder: &Recorder, number: u32) -> u64
    ensures { result ≡ (told_at recorder.now number).count }
{
    match recorder.accepted(number) {
        Some(told) => told.count,
        None => 0,
    }
}
