//! The instruments of a plan behind their locks.
ghost use Rattle.std.specs.Prelude.{◌≡◌, ◌<◌, ◌↔◌, IsTrue, length, slice_get, vec_len};
ghost use Rattle.metric_provider.specs.Closing.{AnswersClosing, HandsClosing};
ghost use Rattle.metric_provider.specs.Granting.{AnswersGrant, HandsGrant};
ghost use Rattle.metric_provider.specs.Providers.{IsProvider};
ghost use Rattle.metric_seat.specs.Seats.{provider_of};
ghost use Rattle.metric_slot.specs.Slots.{AreCertified};

use crate::gate::Gate;
use crate::held::{Governed, Inside};
use crate::lanes::Lanes;
use metric_contents::Refusal;
use metric_history::Book;
use metric_plan::Plan;
use metric_seat::RunId;
use metric_slot::certified_facts_are_safe;
use std::marker::Model;
use std::sync::Wait;

/// The instruments of a certified plan, each behind locks of its own (Metrics SDK, meter provider). Threads share it
/// by reference, and record and collect with their seats, the [`Recorder`](crate::Recorder)s and
/// [`Collector`](crate::Collector)s.
///
/// Contracts see the plan and the run. What is behind a lock is what its type keeps: the instrument of a
/// certified plan, with its recordings within the budgets.
pub struct Provider<B: Book, G: Gate> {
    plan: Plan,
    run: RunId,
    gate: G,
    slots: Vec<Lanes<B>>,
    // How many lanes an instrument may have.
    most: u32,
}

impl<B: Book, G: Gate> Drop for Provider<B, G> {
    // A call of its own, so that what owns a provider does not carry the steps of dropping each part.
    fn drop(self) {
        let Provider {
            plan: _plan,
            run: _,
            gate: _gate,
            slots: _slots,
            most: _,
        } = self;
    }
}

impl<B: Book, G: Gate> Model for Provider<B, G> {
    ghost use Rattle.std.specs.Prelude.{vec_len};
    ghost use Rattle.metric_provider.specs.Providers.{IsProvider};
    ghost use Rattle.metric_seat.specs.Seats.{ProviderValue};

    ghost Value = { ProviderValue };

    ghost view = { λ p. record { plan = p.plan; run = p.run } };

    ghost invariant = { λ p. IsProvider p.plan (vec_len p.slots) };
}

impl<B: Book, G: Gate> Provider<B, G> {
    // The provider of a certified plan with the slots of its instruments.
    pub(crate) fn from_slots(
        plan: Plan,
        run: RunId,
        gate: G,
        slots: Vec<Lanes<B>>,
        most: u32,
    ) -> Provider<B, G>
        requires { IsProvider plan (vec_len slots) }
        ensures { result ≡ provider_of plan run }
    {
        Provider {
            plan,
            run,
            gate,
            slots,
            most,
        }
    }

    // The plan, the run, the gate, the slots, and how many lanes an instrument may have.
    pub(crate) fn into_slots(self) -> (Plan, RunId, G, Vec<Lanes<B>>, u32)
        ensures value { provider_of result.0 result.1 ≡ self }
        ensures kept { IsProvider result.0 (vec_len result.3) }
    {
        let Provider {
            plan,
            run,
            gate,
            slots,
            most,
        } = self;
        (plan, run, gate, slots, most)
    }

    /// The plan.
    pub fn plan(&self) -> &Plan
        ensures { result.now ≡ self.now.plan }
    {
        &self.plan
    }

    /// How many lanes an instrument has ([`start_with_lanes`](crate::start_with_lanes)): none where the plan has no
    /// instrument of this number.
    pub fn lanes(&self, instrument: u32) -> usize
        ensures { (0 < result) ↔ (instrument < length self.now.plan.facts.instruments) }
    {
        match self.slots.get(instrument as usize) {
            Some(lanes) => lanes.all().len(),
            None => 0,
        }
    }

    // For proofs alone: the facts of each instrument are those of a certified plan. The function does nothing.
    pub(crate) fn is_vouched_for(&self)
        ensures { AreCertified self.now.plan.facts.instruments }
    {
        certified_facts_are_safe(&self.plan);
    }

    // The instruments behind their locks, in order.
    pub(crate) fn slots(&self) -> &[Lanes<B>]
        ensures { length result.now ≡ length self.now.plan.facts.instruments }
    {
        self.slots.as_slice()
    }

    // How many lanes an instrument may have.
    pub(crate) fn most(&self) -> u32 {
        self.most
    }

    // The run.
    pub(crate) fn run(&self) -> RunId
        ensures { result ≡ self.now.run }
    {
        self.run
    }

    /// Ends the recordings of an instrument. `UnknownInstrument` comes exactly where the plan has no instrument of this
    /// number, else the only refusal is `Closed`.
    pub fn close<R: Wait>(&self, rt: &R, instrument: u32) -> Result<(), Refusal>
        ensures { let known = slice_get self.now.plan.facts.instruments instrument in
            AnswersClosing known result }
    {
        close_held(&mut self.inside(rt, instrument), &self.plan, instrument)
    }

    /// Grants a recorder so many recordings on an instrument beside its budget, of what is left of the instrument's
    /// spare budget. Whoever has the provider may call it for any recorder. Allocates no memory.
    ///
    /// # Errors
    ///
    /// `UnknownInstrument` exactly where the plan has no instrument of this number, else `UnknownRecorder` exactly
    /// where it has no such recorder; else, under the instrument's lock, `Closed`, or `NoSpare` where more is asked for
    /// than is left. A grant of 0 is made also where nothing is left.
    pub fn grant<R: Wait>(
        &self,
        rt: &R,
        recorder: u32,
        instrument: u32,
        amount: u64,
    ) -> Result<(), Refusal>
        ensures { let known = slice_get self.now.plan.facts.instruments instrument in
            AnswersGrant known recorder amount result }
    {
        let mut held = self.inside(rt, instrument);
        grant_held(&mut held, &self.plan, recorder, instrument, amount)
    }

    // The instrument of a number behind its locks.
    pub(crate) fn inside<'a, R>(&'a self, rt: &'a R, instrument: u32) -> Inside<'a, R, B, G> {
        Inside {
            rt,
            lanes: self.slots.get(instrument as usize),
            gate: &self.gate,
            instrument,
        }
    }
}

// Ends the recordings of the plan's instrument of a number, which is held like this.
fn close_held<H: Governed>(held: &mut H, plan: &Plan, instrument: u32) -> Result<(), Refusal>
    ensures answer { let known = slice_get plan.now.facts.instruments instrument in
        AnswersClosing known result }
    ensures made { let known = slice_get plan.now.facts.instruments instrument in
        HandsClosing H.closes known held.old held.new result }
{
    if instrument as usize >= plan.all_facts().len() {
        return Err(Refusal::UnknownInstrument);
    }
    held.close()
}

// Grants a recorder recordings on the plan's instrument of a number, which is held like this.
fn grant_held<H: Governed>(
    held: &mut H,
    plan: &Plan,
    recorder: u32,
    instrument: u32,
    amount: u64,
) -> Result<(), Refusal>
    ensures answer { let known = slice_get plan.now.facts.instruments instrument in
        AnswersGrant known recorder amount result }
    ensures made { let known = slice_get plan.now.facts.instruments instrument in
        HandsGrant H.grants known recorder amount held.old held.new result }
{
    if instrument as usize >= plan.all_facts().len() {
        return Err(Refusal::UnknownInstrument);
    }
    let facts = plan.facts(instrument);
    if recorder as usize >= facts.budgets.len() {
        return Err(Refusal::UnknownRecorder);
    }
    held.grant(facts, recorder, amount)
}
