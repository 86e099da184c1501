//! The lanes of an instrument, as a step over all of them calls them.
ghost use Rattle.std.specs.Prelude.{◌≡◌, ◌<◌, ◌-◌, ℕ, Some, IfErr, IfOk, OnOk, length};
ghost use Rattle.metric_contents.specs.declared.refusal.Refusal.{Refusal as refusals};
ghost use Rattle.metric_facts.specs.declared.facts.Facts.{Facts as declared_facts};
ghost use Rattle.metric_provider.specs.Granting.{AnswersGrant};
ghost use Rattle.metric_provider.specs.Steps.{IsGathered, Step};
ghost use Rattle.metric_provider.specs.Steps.Step.{Advance, Close, Grant, Granted, Inside, Lock, MayGrant, Report, Unlock};
ghost use Rattle.metric_seat.specs.Collections.{RefusesCollection};

use crate::gate::Gate;
use crate::held::grant;
use crate::lanes::Lanes;
use crate::rooms::Budgeted;
use metric_contents::Refusal;
use metric_facts::Facts;
use metric_history::Book;
use metric_lanes::{Asked, Gathered};
use metric_slot::Slot;
use std::alloc::Global;
use std::sync::{Mutex, MutexGuard, Wait};

/// What the lanes are asked: the facts that each has to have, and what a reader asks of them.
#[derive(Clone, Copy)]
pub(crate) struct Question<'a> {
    pub(crate) alloc: Global,
    pub(crate) facts: &'a Facts,
    pub(crate) asked: Asked,
}

/// The lanes of an instrument behind their locks. As a trait with a diary, so that a step over all of them is known by
/// its calls: each call writes a line of the diary, of which nobody else has a pen, and what is held of a lane can be
/// let go by [`Row::unlock`] alone.
pub(crate) trait Row: Drop {
    /// What is held of a locked lane.
    type Held;

    /// What is written down; it has no bytes.
    type Diary: Drop;

    // The diary before and after a call.
    ghost does: { Self.Diary → Self.Diary → Step Self.Held → Type 0 };

    // How many lanes there are.
    ghost count: { Self → ℕ };

    // The lane of a recorder is at this place.
    ghost is_place: { Self → ℕ → ℕ → Type 0 };

    // What is held is a lane of the instrument with these facts.
    ghost has: { Self.Held → declared_facts → Type 0 };

    /// How many lanes there are.
    fn count(&self) -> usize
        ensures { result ≡ count self.now };

    /// The place of the lane of a recorder.
    fn place_of(&self, recorder: u32) -> usize
        ensures place { is_place self.now recorder result }
        ensures within { result < count self.now };

    /// Takes the lock of one.
    fn lock<R: Wait>(&self, rt: &R, at: usize, diary: &mut Self::Diary) -> Self::Held
        requires { at < count self.now }
        ensures { does diary.old diary.new (Lock at result) };

    /// Lets a lock go.
    fn unlock(held: Self::Held, diary: &mut Self::Diary)
        ensures { does diary.old diary.new (Unlock held) };

    /// Calls the gate.
    fn inside<R: Wait>(&self, rt: &R, instrument: u32, diary: &mut Self::Diary)
        ensures { does diary.old diary.new Inside };

    /// What the lane reports to a reader.
    fn report(
        held: &Self::Held,
        question: &Question<'_>,
        diary: &mut Self::Diary,
    ) -> Result<Gathered, Refusal>
        requires { question.now.asked.reader < length question.now.facts.now.delta }
        ensures does { does diary.old diary.new
            (Report held.now question.now.facts.now question.now.asked result) }
        ensures gathered { IfOk result (IsGathered question.now.facts.now question.now.asked) }
        ensures own { OnOk result (has held.now question.now.facts.now) }
        ensures refused { IfErr result (λ refusal. RefusesCollection refusal) };

    /// The reader has what the lane reported.
    fn advance(held: &mut Self::Held, question: &Question<'_>, time: u64, diary: &mut Self::Diary)
        requires reader { question.now.asked.reader < length question.now.facts.now.delta }
        requires own { has held.old question.now.facts.now }
        ensures { does diary.old diary.new
            (Advance held.old held.new question.now.asked.reader time) };

    /// Ends the recordings.
    fn close(held: &mut Self::Held, diary: &mut Self::Diary) -> Result<(), Refusal>
        ensures does { does diary.old diary.new (Close held.old held.new result) }
        ensures refused { IfErr result (λ refusal. refusal ≡ Refusal.Closed) };

    /// What the lane has granted of the spare; `Stranger` where it is another instrument's.
    fn granted(held: &Self::Held, facts: &Facts, diary: &mut Self::Diary) -> Result<u64, Refusal>
        ensures does { does diary.old diary.new (Granted held.now facts.now result) }
        ensures refused { IfErr result (λ refusal. refusal ≡ Refusal.Stranger) };

    /// What the lane has granted of the spare, where it may grant the recorder more; `Closed` where it is closed, or
    /// another instrument's.
    fn may_grant(
        held: &mut Self::Held,
        facts: &Facts,
        recorder: u32,
        diary: &mut Self::Diary,
    ) -> Result<u64, Refusal>
        requires { recorder < length facts.now.budgets }
        ensures does { does diary.old diary.new
            (MayGrant held.old held.new facts.now recorder result) }
        ensures refused { IfErr result (λ refusal. refusal ≡ Refusal.Closed) };

    /// Grants a recorder recordings beside its budget.
    fn grant(
        held: &mut Self::Held,
        facts: &Facts,
        recorder: u32,
        amount: u64,
        diary: &mut Self::Diary,
    ) -> Result<(), Refusal>
        requires { recorder < length facts.now.budgets }
        ensures does { does diary.old diary.new
            (Grant held.old held.new facts.now recorder amount result) }
        ensures answer { AnswersGrant (Some facts.now) recorder amount result };
}

/// A diary in which nothing stands.
#[derive(Drop)]
pub(crate) struct Silent;

/// The lanes of a provider's instrument, and the gate.
#[derive(Drop)]
pub(crate) struct Rack<'a, B: Book, G> {
    pub(crate) lanes: &'a Lanes<B>,
    pub(crate) gate: &'a G,
}

// What a slot is then is known of no lock; tests see it.
impl<'a, B: Book, G: Gate> Row for Rack<'a, B, G> {
    type Held = MutexGuard<'a, Slot<B>>;

    type Diary = Silent;

    ghost does = { λ _ _ _. Unit {0} };

    ghost count = { λ rack. rack.lanes.now };

    ghost is_place = { λ _ _ _. Unit {0} };

    ghost has = { λ held own. held.value.facts ≡ own };

    #[inline(always)]
    fn count(&self) -> usize {
        self.lanes.all().len()
    }

    #[inline(always)]
    fn place_of(&self, recorder: u32) -> usize {
        self.lanes.place_of(recorder)
    }

    #[inline(always)]
    fn lock<R: Wait>(&self, rt: &R, at: usize, _diary: &mut Silent) -> MutexGuard<'a, Slot<B>> {
        let lanes: &'a Lanes<B> = self.lanes;
        let lane: &'a Mutex<Slot<B>> = &lanes.all()[at];
        lane.lock(rt)
    }

    #[inline(always)]
    fn unlock(held: MutexGuard<'a, Slot<B>>, _diary: &mut Silent) {
        drop(held);
    }

    #[inline(always)]
    fn inside<R: Wait>(&self, rt: &R, instrument: u32, _diary: &mut Silent) {
        self.gate.inside(rt, instrument);
    }

    #[inline(always)]
    fn report(
        held: &MutexGuard<'a, Slot<B>>,
        question: &Question<'_>,
        _diary: &mut Silent,
    ) -> Result<Gathered, Refusal> {
        let slot: &Slot<B> = held;
        report_of(slot, question)
    }

    #[inline(always)]
    fn advance(
        held: &mut MutexGuard<'a, Slot<B>>,
        question: &Question<'_>,
        time: u64,
        _diary: &mut Silent,
    ) {
        held.advance(question.asked.reader, time);
    }

    #[inline(always)]
    fn close(held: &mut MutexGuard<'a, Slot<B>>, _diary: &mut Silent) -> Result<(), Refusal> {
        held.close()
    }

    #[inline(always)]
    fn granted(
        held: &MutexGuard<'a, Slot<B>>,
        facts: &Facts,
        _diary: &mut Silent,
    ) -> Result<u64, Refusal> {
        let slot: &Slot<B> = held;
        granted_of(slot, facts)
    }

    #[inline(always)]
    fn may_grant(
        held: &mut MutexGuard<'a, Slot<B>>,
        facts: &Facts,
        recorder: u32,
        _diary: &mut Silent,
    ) -> Result<u64, Refusal> {
        let slot: &mut Slot<B> = held;
        may_grant(slot, facts, recorder)
    }

    #[inline(always)]
    fn grant(
        held: &mut MutexGuard<'a, Slot<B>>,
        facts: &Facts,
        recorder: u32,
        amount: u64,
        _diary: &mut Silent,
    ) -> Result<(), Refusal> {
        let slot: &mut Slot<B> = held;
        grant(slot, facts, recorder, amount)
    }
}

// What a lane reports.
fn report_of<B: Book>(slot: &Slot<B>, question: &Question<'_>) -> Result<Gathered, Refusal>
    requires { question.now.asked.reader < length question.now.facts.now.delta }
    ensures gathered { IfOk result (IsGathered question.now.facts.now question.now.asked) }
    ensures own { OnOk result (slot.now.facts ≡ question.now.facts.now) }
    ensures refused { IfErr result (λ refusal. RefusesCollection refusal) }
{
    let asked = question.asked;
    let batch = slot.report(
        question.alloc,
        question.facts,
        asked.start,
        asked.reader,
        asked.now,
    )?;
    // For the proof alone: what a slot keeps.
    let _certified = slot.cell();
    Ok(Gathered::of_lane(slot, asked, batch))
}

// What a lane with these facts has granted of the spare.
fn granted_of<B: Book>(slot: &Slot<B>, facts: &Facts) -> Result<u64, Refusal>
    ensures granted { IfOk result (λ granted. granted ≡ facts.now.spare - slot.now.spare) }
    ensures refused { IfErr result (λ refusal. refusal ≡ Refusal.Stranger) }
{
    match Budgeted::spare_left(slot, facts) {
        Ok(left) => Ok(facts.spare.saturating_sub(left)),
        Err(refusal) => Err(refusal),
    }
}

// The same where the lane is open. A grant of nothing changes nothing, and is refused where it is closed.
fn may_grant<B: Book>(slot: &mut Slot<B>, facts: &Facts, recorder: u32) -> Result<u64, Refusal>
    requires { recorder < length facts.now.budgets }
    ensures granted { IfOk result (λ granted. granted ≡ facts.now.spare - slot.new.spare) }
    ensures refused { IfErr result (λ refusal. refusal ≡ Refusal.Closed) }
{
    match grant(slot, facts, recorder, 0) {
        Ok(()) => Ok(facts.spare.saturating_sub(slot.cell().spare())),
        Err(_) => Err(Refusal::Closed),
    }
}
