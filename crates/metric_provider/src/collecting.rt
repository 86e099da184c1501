//! A collection of all lanes of an instrument. Their locks are taken in ascending order, each by a call of its own,
//! which holds it until all lanes have reported: so a collection is one step. Refused, no lane has changed.
ghost use Rattle.std.specs.Prelude.{◌≡◌, ◌<◌, ◌≤◌, None, IfErr, IfOk, IfSome, OnErr, length};
ghost use Rattle.metric_lanes.specs.Gathering.{IsTold};
ghost use Rattle.metric_provider.specs.Steps.{Collects, IsBatchOf, IsGathered, JoinsAnswer, TakesNothing};
ghost use Rattle.metric_seat.specs.Collections.{RefusesCollection};
ghost use Rattle.metric_slot.specs.Sightings.{seen_of};

use crate::row::{Question, Row};
use metric_contents::Refusal;
use metric_history::Batch;
use metric_lanes::Gathered;
use metric_slot::Seen;
use std::sync::Wait;

/// Collects of all lanes; the reader has then seen the batch.
pub(crate) fn collect_all<R: Wait, L: Row>(
    rt: &R,
    row: &L,
    question: &Question<'_>,
    seen: &mut Seen,
    diary: &mut L::Diary,
) -> Result<Batch, Refusal>
    requires { question.now.asked.reader < length question.now.facts.now.delta }
    ensures collects { IfOk result (λ batch. Collects L.does diary.old 0 (L.count row.now)
        question.now.facts.now question.now.asked None batch diary.new) }
    ensures nothing { OnErr result (TakesNothing L.does diary.old 0
        question.now.facts.now question.now.asked diary.new) }
    ensures told { IfOk result (IsTold question.now.facts.now question.now.asked seen.old) }
    ensures seen { IfOk result (λ batch. seen.new ≡ seen_of batch) }
    ensures refused { IfErr result (λ refusal. RefusesCollection refusal) }
    ensures seen_err { OnErr result (seen.new ≡ seen.old) }
{
    collect_from(rt, row, question, seen, 0, None, diary)
}

// Collects of the lanes from the one of this place on, with what those before it report.
fn collect_from<R: Wait, L: Row>(
    rt: &R,
    row: &L,
    question: &Question<'_>,
    seen: &mut Seen,
    at: usize,
    before: Option<Gathered>,
    diary: &mut L::Diary,
) -> Result<Batch, Refusal>
    requires at { at ≤ L.count row.now }
    requires reader { question.now.asked.reader < length question.now.facts.now.delta }
    requires before { IfSome before (IsGathered question.now.facts.now question.now.asked) }
    ensures collects { IfOk result (λ batch. Collects L.does diary.old at (L.count row.now)
        question.now.facts.now question.now.asked before batch diary.new) }
    ensures nothing { OnErr result (TakesNothing L.does diary.old at
        question.now.facts.now question.now.asked diary.new) }
    ensures told { IfOk result (IsTold question.now.facts.now question.now.asked seen.old) }
    ensures seen { IfOk result (λ batch. seen.new ≡ seen_of batch) }
    ensures refused { IfErr result (λ refusal. RefusesCollection refusal) }
    ensures seen_err { OnErr result (seen.new ≡ seen.old) }
{
    if at == row.count() {
        row.inside(rt, question.facts.instrument, diary);
        return told(question, before, seen);
    }
    let mut held = row.lock(rt, at, diary);
    let own = L::report(&held, question, diary);
    let all = match joined(question, before, own) {
        Ok(all) => all,
        Err(refusal) => {
            row.inside(rt, question.facts.instrument, diary);
            L::unlock(held, diary);
            return Err(refusal);
        }
    };
    let batch = match collect_from(rt, row, question, seen, at + 1, Some(all), diary) {
        Ok(batch) => batch,
        Err(refusal) => {
            L::unlock(held, diary);
            return Err(refusal);
        }
    };
    L::advance(&mut held, question, batch.time, diary);
    L::unlock(held, diary);
    Ok(batch)
}

// What a lane reports, behind those before it.
fn joined(
    question: &Question<'_>,
    before: Option<Gathered>,
    own: Result<Gathered, Refusal>,
) -> Result<Gathered, Refusal>
    requires before { IfSome before (IsGathered question.now.facts.now question.now.asked) }
    requires own { IfOk own (IsGathered question.now.facts.now question.now.asked) }
    requires refused { IfErr own (λ refusal. RefusesCollection refusal) }
    ensures joins { IfOk result (JoinsAnswer before own) }
    ensures gathered { IfOk result (IsGathered question.now.facts.now question.now.asked) }
    ensures refused { IfErr result (λ refusal. RefusesCollection refusal) }
{
    let own = own?;
    match before {
        Some(before) => before.with(question.alloc, question.facts, &own),
        None => Ok(own),
    }
}

// What all lanes report, if there are any, as the reader is told of it.
fn told(
    question: &Question<'_>,
    before: Option<Gathered>,
    seen: &mut Seen,
) -> Result<Batch, Refusal>
    requires { IfSome before (IsGathered question.now.facts.now question.now.asked) }
    ensures batch { IfOk result (IsBatchOf before) }
    ensures told { IfOk result (IsTold question.now.facts.now question.now.asked seen.old) }
    ensures seen { IfOk result (λ batch. seen.new ≡ seen_of batch) }
    ensures refused { IfErr result (λ refusal. RefusesCollection refusal) }
    ensures seen_err { OnErr result (seen.new ≡ seen.old) }
{
    match before {
        Some(all) => all.finish(seen),
        None => Err(Refusal::Stranger),
    }
}
