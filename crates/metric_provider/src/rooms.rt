//! How many recordings are left to a recorder, and of a spare.
ghost use Rattle.std.specs.Prelude.{◌≡◌, ◌<◌, ◌+◌, ◌-◌, ◌^◌, ℕ, Some, Result, true, length, slice_get};
ghost use Rattle.metric_contents.specs.declared.refusal.Refusal.{Refusal as refusals};
ghost use Rattle.metric_facts.specs.declared.facts.Facts.{Facts as declared_facts};
ghost use Rattle.metric_provider.specs.Rooms.{AnswersRoom, AnswersSpare, AsksRoom, AsksSpare, TellsRoom, TellsSpare};
ghost use Rattle.metric_seat.specs.Recordings.{told_at};
ghost use Rattle.metric_seat.specs.Seats.{is_recorder_of};
ghost use Rattle.metric_slot.specs.declared.told.Told.{Told as tellings};

use crate::gate::Gate;
use crate::governing::spare_of_all;
use crate::held::Inside;
use crate::provider::Provider;
use crate::recorder::Recorder;
use crate::row::Silent;
use metric_contents::Refusal;
use metric_facts::Facts;
use metric_history::Book;
use metric_plan::Plan;
use metric_seat::Tells;
use metric_slot::{Slot, Told};
use std::sync::{Mutex, Wait};

/// An instrument whose budgets are asked. As a trait, so that a provider cannot but ask it.
pub(crate) trait Budgeted {
    // What the room of a recorder comes to: the instrument, the facts that are brought, the recorder's number, what
    // it was told, and the answer.
    ghost tells_room: { Self → declared_facts → ℕ → tellings → Result ℕ refusals → Type 0 };

    // What the spare comes to: the instrument, the facts that are brought, and the answer.
    ghost tells_spare: { Self → declared_facts → Result ℕ refusals → Type 0 };

    /// How many recordings are left to a recorder that was told of its earlier ones.
    fn room(&self, facts: &Facts, recorder: u32, told: &Told) -> Result<u64, Refusal>
        requires { recorder < length facts.now.budgets }
        ensures answer { AnswersRoom true (Some facts.now) recorder told.now result }
        ensures tells { tells_room self.now facts.now recorder told.now result };

    /// How many recordings may still be granted.
    fn spare_left(&self, facts: &Facts) -> Result<u64, Refusal>
        ensures answer { AnswersSpare (Some facts.now) result }
        ensures tells { tells_spare self.now facts.now result };
}

impl<B: Book> Budgeted for Slot<B> {
    ghost tells_room = { λ slot own recorder told result. TellsRoom slot own recorder told result };

    ghost tells_spare = { λ slot own result. TellsSpare slot own result };

    #[tactic(auto, using(crate::proofs::RoomLaws::room_fits, crate::proofs::RoomLaws::room_most))]
    fn room(&self, facts: &Facts, recorder: u32, told: &Told) -> Result<u64, Refusal> {
        // What a cell keeps is also for the proof: the sum is a u64.
        let cell = self.cell();
        if !self.is_of(facts) || cell.spent(recorder) != told.count {
            return Err(Refusal::Stranger);
        }
        let declared = facts.budgets.as_slice()[recorder as usize];
        Ok(left_of(declared, cell.granted(recorder), told.count))
    }

    fn spare_left(&self, facts: &Facts) -> Result<u64, Refusal> {
        if !self.is_of(facts) {
            return Err(Refusal::Stranger);
        }
        Ok(self.cell().spare())
    }
}

// A recorder's room is asked under the lock of its lane, the spare under those of all lanes; the gate is called before
// they are let go. What a slot is then is known of no lock; tests see it.
impl<R: Wait, B: Book, G: Gate> Budgeted for Inside<'_, R, B, G> {
    ghost tells_room = { λ _ _ _ _ _. Unit {0} };

    ghost tells_spare = { λ _ _ _. Unit {0} };

    fn room(&self, facts: &Facts, recorder: u32, told: &Told) -> Result<u64, Refusal> {
        let Some(lanes) = self.lanes else {
            return Err(Refusal::Stranger);
        };
        let slot: &Mutex<Slot<B>> = lanes.lane_of(recorder);
        let guard = slot.lock(self.rt);
        let slot: &Slot<B> = &guard;
        let answer = Budgeted::room(slot, facts, recorder, told);
        self.gate.inside(self.rt, self.instrument);
        answer
    }

    fn spare_left(&self, facts: &Facts) -> Result<u64, Refusal> {
        let Some(rack) = self.rack() else {
            return Err(Refusal::Stranger);
        };
        spare_of_all(self.rt, &rack, facts, &mut Silent)
    }
}

impl Recorder {
    /// How many recordings the recorder may still make on an instrument: by its budget and what it was granted beside
    /// it, less what the seat was told of. Others can make it more, by [`Provider::grant`]; the seat's own recordings
    /// alone make it less. A closed instrument takes none of these. Allocates no memory.
    ///
    /// # Errors
    ///
    /// `Stranger` where the seat is none of the provider's, else `UnknownInstrument`. Then, under the instrument's
    /// lock, `Stranger` where what is found there is not what the seat was told.
    pub fn room<R: Wait, B: Book, G: Gate>(
        &self,
        rt: &R,
        provider: &Provider<B, G>,
        instrument: u32,
    ) -> Result<u64, Refusal>
        ensures { let known = slice_get provider.now.plan.facts.instruments instrument in
            let is_own = is_recorder_of provider.now self.now in
            AnswersRoom is_own known self.now.number (told_at self.now instrument) result }
    {
        if !self.is_of(provider.plan(), provider.run()) {
            return Err(Refusal::Stranger);
        }
        let held = provider.inside(rt, instrument);
        let told = self.told_at(instrument);
        room_in(&held, provider.plan(), instrument, self.number(), &told)
    }
}

impl<B: Book, G: Gate> Provider<B, G> {
    /// How many recordings of an instrument's spare budget may still be granted. Allocates no memory.
    ///
    /// # Errors
    ///
    /// `UnknownInstrument` exactly where the plan has no instrument of this number.
    pub fn spare_left<R: Wait>(&self, rt: &R, instrument: u32) -> Result<u64, Refusal>
        ensures { let known = slice_get self.now.plan.facts.instruments instrument in
            AnswersSpare known result }
    {
        spare_in(&self.inside(rt, instrument), self.plan(), instrument)
    }
}

// How many recordings are left to a recorder of the plan on the instrument of a number, which is held like this.
fn room_in<H: Budgeted>(
    held: &H,
    plan: &Plan,
    instrument: u32,
    recorder: u32,
    told: &Told,
) -> Result<u64, Refusal>
    ensures answer { let known = slice_get plan.now.facts.instruments instrument in
        AnswersRoom true known recorder told.now result }
    ensures asked { let known = slice_get plan.now.facts.instruments instrument in
        AsksRoom H.tells_room known recorder told.now held.now result }
{
    if instrument as usize >= plan.all_facts().len() {
        return Err(Refusal::UnknownInstrument);
    }
    let facts = plan.facts(instrument);
    if recorder as usize >= facts.budgets.len() {
        return Err(Refusal::UnknownRecorder);
    }
    held.room(facts, recorder, told)
}

// How many recordings of the spare of the plan's instrument of a number may still be granted, which is held like
// this.
fn spare_in<H: Budgeted>(held: &H, plan: &Plan, instrument: u32) -> Result<u64, Refusal>
    ensures answer { let known = slice_get plan.now.facts.instruments instrument in
        AnswersSpare known result }
    ensures asked { let known = slice_get plan.now.facts.instruments instrument in
        AsksSpare H.tells_spare known held.now result }
{
    if instrument as usize >= plan.all_facts().len() {
        return Err(Refusal::UnknownInstrument);
    }
    held.spare_left(plan.facts(instrument))
}

// What is left of a budget and of what was granted beside it.
fn left_of(declared: u64, granted: u64, told: u64) -> u64
    requires { declared + granted < 2 ^ 64 }
    ensures { result ≡ declared + granted - told }
{
    (declared + granted).saturating_sub(told)
}
