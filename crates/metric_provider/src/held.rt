//! An instrument behind its lock.
ghost use Rattle.std.specs.Prelude.{◌≡◌, ◌↔◌, ◌<◌, ℕ, All, IsTrue, Result, Some, length, IfErr, OnErr, OnOk};
ghost use Rattle.metric_contents.specs.declared.refusal.Refusal.{Refusal as refusals};
ghost use Rattle.metric_facts.specs.declared.facts.Facts.{Facts as declared_facts};
ghost use Rattle.metric_core.specs.CellAnswers.{GainsEntry, with_grant};
ghost use Rattle.metric_provider.specs.Gains.{GainsAll, entry_by, made_of};
ghost use Rattle.metric_provider.specs.Granting.{AnswersGrant};
ghost use Rattle.metric_seat.specs.KeyRecordings.{IsRecordable, IsRefusedUnder, told_each};
ghost use Rattle.metric_seat.specs.Recordings.{RefusesRecording};
ghost use Rattle.metric_slot.specs.Tellings.{told_more};

use crate::collecting::collect_all;
use crate::gate::Gate;
use crate::governing::{Asked, close_all, grant_in};
use crate::lanes::Lanes;
use crate::row::{Question, Rack, Silent};
use metric_contents::Refusal;
use metric_facts::Facts;
use metric_history::{Batch, Book};
use metric_seat::{Collected, Held, Measurement, SetsFault};
use metric_slot::{Seen, Slot, Told};
use std::alloc::Global;
use std::sync::{Mutex, Wait};

/// An instrument whose budgets and end a provider has in hand. As a trait, so that a provider cannot but call it.
pub(crate) trait Governed {
    // What a grant comes to: the instrument before and after it, the facts that are brought, the recorder's number, the
    // amount, and its answer.
    ghost grants: { Self → Self → declared_facts → ℕ → ℕ → Result (Unit {0}) refusals → Type 0 };

    // What the end comes to: the instrument before and after it, and its answer.
    ghost closes: { Self → Self → Result (Unit {0}) refusals → Type 0 };

    /// Grants a recorder recordings beside its budget.
    fn grant(&mut self, facts: &Facts, recorder: u32, amount: u64) -> Result<(), Refusal>
        requires { recorder < length facts.now.budgets }
        ensures answer { AnswersGrant (Some facts.now) recorder amount result }
        ensures made { grants self.old self.new facts.now recorder amount result };

    /// Ends the recordings.
    fn close(&mut self) -> Result<(), Refusal>
        ensures answer { IfErr result (λ refusal. refusal ≡ Refusal.Closed) }
        ensures made { closes self.old self.new result };
}

/// A provider's instrument of some number: its lanes behind their locks, if the provider has it, and the gate.
#[derive(Drop)]
pub(crate) struct Inside<'a, R, B: Book, G> {
    pub rt: &'a R,
    pub lanes: Option<&'a Lanes<B>>,
    pub gate: &'a G,
    pub instrument: u32,
}

impl<'a, R, B: Book, G: Gate> Inside<'a, R, B, G> {
    // All lanes of the instrument, if the provider has it.
    pub(crate) fn rack(&self) -> Option<Rack<'a, B, G>> {
        let gate: &'a G = self.gate;
        let lanes: &'a Lanes<B> = self.lanes?;
        Some(Rack { lanes, gate })
    }
}

// A recording takes the lock of its recorder's lane; a grant and the end take the locks of all lanes. Each step is made
// once, and the gate is called before a lock is let go. What becomes of a slot is known of no lock; tests see it.
impl<R: Wait, B: Book, G: Gate> Held<B> for Inside<'_, R, B, G> {
    ghost records = { λ _ _ _ _ _ _ _. Unit {0} };

    // Inlined down to the slot, as are the calls of a seat that lead here: a list of one is then no loop.
    #[inline(always)]
    fn record_each(
        &mut self,
        facts: &Facts,
        told: &mut Told,
        recorder: u32,
        all: &[Measurement],
    ) -> Result<(), SetsFault> {
        let Some(lanes) = self.lanes else {
            return Err(SetsFault {
                place: 0,
                refusal: Refusal::Stranger,
            });
        };
        let slot: &Mutex<Slot<B>> = lanes.lane_of(recorder);
        let mut guard = slot.lock(self.rt);
        record_each(self.rt, self.gate, &mut guard, facts, told, recorder, all)
    }
}

impl<R: Wait, B: Book, G: Gate> Governed for Inside<'_, R, B, G> {
    ghost grants = { λ _ _ _ _ _ _. Unit {0} };

    ghost closes = { λ _ _ _. Unit {0} };

    fn grant(&mut self, facts: &Facts, recorder: u32, amount: u64) -> Result<(), Refusal> {
        let Some(rack) = self.rack() else {
            return Err(Refusal::Closed);
        };
        let asked = Asked {
            facts,
            recorder,
            amount,
        };
        grant_in(self.rt, &rack, &asked, &mut Silent)
    }

    fn close(&mut self) -> Result<(), Refusal> {
        let Some(rack) = self.rack() else {
            return Err(Refusal::Closed);
        };
        close_all(self.rt, &rack, self.instrument, &mut Silent)
    }
}

impl<R: Wait, B: Book, G: Gate> Collected for Inside<'_, R, B, G> {
    ghost collects = { λ _ _ _ _ _ _ _ _. Unit {0} };

    fn collect(
        &mut self,
        alloc: Global,
        facts: &Facts,
        start: u64,
        seen: &mut Seen,
        reader: u32,
        now: u64,
    ) -> Result<Batch, Refusal> {
        let Some(rack) = self.rack() else {
            return Err(Refusal::Stranger);
        };
        let question = Question {
            alloc,
            facts,
            asked: metric_lanes::Asked { start, reader, now },
        };
        collect_all(self.rt, &rack, &question, seen, &mut Silent)
    }
}

/// Grants a recorder recordings of a slot. One with other facts takes no recordings of the plan's recorders, so that to
/// them it is closed.
pub(crate) fn grant<B: Book>(
    slot: &mut Slot<B>,
    facts: &Facts,
    recorder: u32,
    amount: u64,
) -> Result<(), Refusal>
    requires { recorder < length facts.now.budgets }
    ensures answer { AnswersGrant (Some facts.now) recorder amount result }
    ensures new { OnOk result (slot.new ≡ with_grant slot.old recorder amount) }
    ensures err { OnErr result (slot.new ≡ slot.old) }
{
    // For the proof alone: what a cell keeps.
    let _ = slot.cell();
    match slot.grant(facts, recorder, amount) {
        Err(Refusal::Stranger) => Err(Refusal::Closed),
        answer => answer,
    }
}

// Makes recordings, one after the other, and tells their recorder of each, up to the first that is refused. The slot's
// facts are compared once for all of them.
#[inline(always)]
fn record_each<R: Wait, B: Book, G: Gate>(
    rt: &R,
    gate: &G,
    slot: &mut Slot<B>,
    facts: &Facts,
    told: &mut Told,
    recorder: u32,
    all: &[Measurement],
) -> Result<(), SetsFault>
    requires recorder { recorder < length facts.now.budgets }
    requires each { All (IsRecordable facts.now) all.now }
    ensures told { OnOk result (told.new ≡ told_each told.old facts.now.lo all.now) }
    ensures refused { IfErr result (λ fault.
        IsRefusedUnder B.spares_memory facts.now recorder told.old told.new all.now fault) }
    ensures gains { GainsAll B.stands slot.old slot.new recorder (made_of all.now result) }
{
    let is_own = slot.is_of(facts);
    for (place, one) in all.iter().enumerate() {
        let answer = record_one(slot, is_own, facts, told, recorder, one);
        gate.inside(rt, facts.instrument);
        match answer {
            Ok(()) => {}
            Err(refusal) => return Err(SetsFault { place, refusal }),
        }
    }
    Ok(())
}

// Makes a recording, and tells its recorder of it.
#[inline(always)]
fn record_one<B: Book>(
    slot: &mut Slot<B>,
    is_own: bool,
    facts: &Facts,
    told: &mut Told,
    recorder: u32,
    one: &Measurement,
) -> Result<(), Refusal>
    requires own { IsTrue is_own ↔ (slot.old.facts ≡ facts.now) }
    requires recorder { recorder < length facts.now.budgets }
    requires one { IsRecordable facts.now one.now }
    ensures facts { slot.new.facts ≡ slot.old.facts }
    ensures told { OnOk result (told.new ≡ told_more told.old facts.now.lo one.now.value) }
    ensures refused { IfErr result (λ refusal.
        RefusesRecording B.spares_memory facts.now recorder told.old refusal) }
    ensures gains { OnOk result (
        GainsEntry B.stands slot.old slot.new (entry_by recorder one.now)) }
    ensures err { OnErr result (slot.new ≡ slot.old) }
    ensures told_err { OnErr result (told.new ≡ told.old) }
{
    slot.record(is_own, facts, told, recorder, one.set, one.value)
}
