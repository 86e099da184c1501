//! Grants, the spare and the end of an instrument, over all its lanes. Their locks are taken in ascending order, each by
//! a call of its own, which holds it until the step is made: so no other step comes between.
ghost use Rattle.std.specs.Prelude.{◌≡◌, ◌<◌, ◌≤◌, Err, Some, IfErr, IfOk, OnErr, OnOk, length};
ghost use Rattle.metric_provider.specs.Granting.{AnswersGrant, IsGranted};
ghost use Rattle.metric_provider.specs.Rooms.{AnswersSpare};
ghost use Rattle.metric_provider.specs.Steps.{Closes, Grants, GrantsIn, GrantsNothing, Spares};

use crate::row::Row;
use metric_contents::Refusal;
use metric_facts::Facts;
use std::sync::Wait;

/// What is asked for a recorder.
#[derive(Clone, Copy)]
pub(crate) struct Asked<'a> {
    pub(crate) facts: &'a Facts,
    pub(crate) recorder: u32,
    pub(crate) amount: u64,
}

/// Ends the recordings in all lanes. They are ended together, so that each answers what the first one does.
pub(crate) fn close_all<R: Wait, L: Row>(
    rt: &R,
    row: &L,
    instrument: u32,
    diary: &mut L::Diary,
) -> Result<(), Refusal>
    ensures closes { Closes L.does diary.old 0 (L.count row.now) result diary.new }
    ensures refused { IfErr result (λ refusal. refusal ≡ Refusal.Closed) }
{
    close_from(rt, row, instrument, 0, diary)
}

// Ends the recordings in each lane from the one of this place on.
fn close_from<R: Wait, L: Row>(
    rt: &R,
    row: &L,
    instrument: u32,
    at: usize,
    diary: &mut L::Diary,
) -> Result<(), Refusal>
    requires { at ≤ L.count row.now }
    ensures closes { Closes L.does diary.old at (L.count row.now) result diary.new }
    ensures refused { IfErr result (λ refusal. refusal ≡ Refusal.Closed) }
{
    if at == row.count() {
        row.inside(rt, instrument, diary);
        return Ok(());
    }
    let mut held = row.lock(rt, at, diary);
    let answer = L::close(&mut held, diary);
    let _same = close_from(rt, row, instrument, at + 1, diary);
    L::unlock(held, diary);
    answer
}

/// Grants a recorder recordings in its lane, where so many are left of the spare.
pub(crate) fn grant_in<R: Wait, L: Row>(
    rt: &R,
    row: &L,
    asked: &Asked<'_>,
    diary: &mut L::Diary,
) -> Result<(), Refusal>
    requires { asked.now.recorder < length asked.now.facts.now.budgets }
    ensures grants { OnOk result (GrantsIn L.does L.count L.is_place diary.old row.now
        asked.now.facts.now asked.now.recorder asked.now.amount diary.new) }
    ensures nothing { OnErr result (GrantsNothing L.does diary.old 0 asked.now.facts.now
        asked.now.recorder asked.now.amount diary.new) }
    ensures answer { AnswersGrant (Some asked.now.facts.now)
        asked.now.recorder asked.now.amount result }
{
    let lane = row.place_of(asked.recorder);
    grant_from(rt, row, asked, lane, 0, asked.facts.spare, diary)
}

// Grants a recorder recordings in its lane, where so many are left of the spare without what the lanes from the one of
// this place on have granted.
fn grant_from<R: Wait, L: Row>(
    rt: &R,
    row: &L,
    asked: &Asked<'_>,
    lane: usize,
    at: usize,
    left: u64,
    diary: &mut L::Diary,
) -> Result<(), Refusal>
    requires at { at ≤ L.count row.now }
    requires recorder { asked.now.recorder < length asked.now.facts.now.budgets }
    ensures grants { OnOk result (Grants L.does diary.old at (L.count row.now) asked.now.facts.now
        left lane asked.now.recorder asked.now.amount diary.new) }
    ensures nothing { OnErr result (GrantsNothing L.does diary.old at asked.now.facts.now
        asked.now.recorder asked.now.amount diary.new) }
    ensures made { OnOk result (at ≤ lane → lane < L.count row.now
        → IsGranted asked.now.facts.now asked.now.recorder asked.now.amount) }
    ensures refused { IfErr result (λ refusal. AnswersGrant (Some asked.now.facts.now)
        asked.now.recorder asked.now.amount (Err refusal)) }
{
    if at == row.count() {
        row.inside(rt, asked.facts.instrument, diary);
        return enough(asked.amount, left);
    }
    let mut held = row.lock(rt, at, diary);
    let granted = match L::may_grant(&mut held, asked.facts, asked.recorder, diary) {
        Ok(granted) => granted,
        Err(refusal) => {
            row.inside(rt, asked.facts.instrument, diary);
            L::unlock(held, diary);
            return Err(refusal);
        }
    };
    let left = left.saturating_sub(granted);
    match grant_from(rt, row, asked, lane, at + 1, left, diary) {
        Ok(()) => {}
        Err(refusal) => {
            L::unlock(held, diary);
            return Err(refusal);
        }
    }
    if at != lane {
        L::unlock(held, diary);
        return Ok(());
    }
    let own = L::grant(&mut held, asked.facts, asked.recorder, asked.amount, diary);
    L::unlock(held, diary);
    own
}

// Whether so many are left.
fn enough(amount: u64, left: u64) -> Result<(), Refusal>
    ensures enough { OnOk result (amount ≤ left) }
    ensures refused { IfErr result (λ refusal. (refusal ≡ Refusal.NoSpare) × (left < amount)) }
{
    if left < amount {
        return Err(Refusal::NoSpare);
    }
    Ok(())
}

/// How many recordings may still be granted.
pub(crate) fn spare_of_all<R: Wait, L: Row>(
    rt: &R,
    row: &L,
    facts: &Facts,
    diary: &mut L::Diary,
) -> Result<u64, Refusal>
    ensures spares { IfOk result (λ left. Spares L.does diary.old 0 (L.count row.now) facts.now
        facts.now.spare left diary.new) }
    ensures answer { AnswersSpare (Some facts.now) result }
{
    spare_from(rt, row, facts, 0, facts.spare, diary)
}

// How many recordings may still be granted, where so many may without what the lanes from the one of this place on have
// granted.
fn spare_from<R: Wait, L: Row>(
    rt: &R,
    row: &L,
    facts: &Facts,
    at: usize,
    left: u64,
    diary: &mut L::Diary,
) -> Result<u64, Refusal>
    requires at { at ≤ L.count row.now }
    requires left { left ≤ facts.now.spare }
    ensures spares { IfOk result (λ rest.
        Spares L.does diary.old at (L.count row.now) facts.now left rest diary.new) }
    ensures answer { AnswersSpare (Some facts.now) result }
{
    if at == row.count() {
        row.inside(rt, facts.instrument, diary);
        return Ok(left);
    }
    let held = row.lock(rt, at, diary);
    let granted = match L::granted(&held, facts, diary) {
        Ok(granted) => granted,
        Err(refusal) => {
            row.inside(rt, facts.instrument, diary);
            L::unlock(held, diary);
            return Err(refusal);
        }
    };
    let left = left.saturating_sub(granted);
    let answer = spare_from(rt, row, facts, at + 1, left, diary);
    L::unlock(held, diary);
    answer
}
