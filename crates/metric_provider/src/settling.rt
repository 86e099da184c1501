//! The instruments compared with what their recorders were told.
ghost use Rattle.std.specs.Prelude.{◌≡◌, ◌↔◌, All, IsTrue, true, IfNone, IfOk, IfErr, IfSome, OnOk, OnSome, Some, length, slice_get};
ghost use Rattle.metric_history.specs.Slips.{slip_of, slips_of};
ghost use Rattle.metric_core.specs.Cells.{CellKept};
ghost use Rattle.metric_provider.specs.Lanes.{kept_by};
ghost use Rattle.metric_seat.specs.Settlements.{IsToldBy, has_each, told_total};
ghost use Rattle.metric_provider.specs.Totals.{AreNoted, AreSettled, IsSettled, IsToldJournal, KeepToldJournals, RefusesTotals, number_of, told_on, told_totals};

use crate::journals::journal_of;
use crate::lanes::OpenLanes;
use crate::recorder::Recorder;
use crate::together::{Together, is_counted};
use metric_facts::Facts;
use metric_history::{Book, Entry, Slip};
use metric_plan::Plan;
use metric_seat::{FinishFault, Tally, Total, has_each, total_of_all, total_of_some};
use metric_slot::Slot;
use std::alloc::Global;

/// What recorders were told of each instrument, where its lanes have the facts of the plan for its place, their numbers
/// together are what the recorders were told, and the entries that their books keep are those of which they have slips;
/// else `AuditMismatch`. The only other fault is `Memory`. Where a recorder of the plan has no seat among them, nothing
/// is known of what it was told, and the counts and sums of the instruments are compared with nothing.
pub fn settle<B: Book>(
    alloc: Global,
    plan: &Plan,
    unlocked: &[OpenLanes<B>],
    recorders: &[Recorder],
) -> Result<Vec<Total>, FinishFault>
    requires { length unlocked.now ≡ length plan.now.facts.instruments }
    ensures totals { IfOk result (λ totals.
        totals.items ≡ told_totals recorders.now 0 plan.now.facts.instruments) }
    ensures settled { let instruments = plan.now.facts.instruments in
        let whole = has_each number_of recorders.now (length plan.now.facts.contents.recorders) in
        OnOk result (AreSettled whole B.kept instruments unlocked.now recorders.now) }
    ensures journals { let instruments = plan.now.facts.instruments in
        let whole = has_each number_of recorders.now (length plan.now.facts.contents.recorders) in
        OnOk result (whole ≡ true →
        KeepToldJournals B.kept B.KEEPS_ENTRIES instruments unlocked.now recorders.now) }
    ensures refused { let instruments = plan.now.facts.instruments in
        let whole = has_each number_of recorders.now (length plan.now.facts.contents.recorders) in
        IfErr result (RefusesTotals whole B.kept instruments unlocked.now recorders.now) }
{
    let whole = has_all(plan, recorders);
    let count = plan.catalogue().instruments().len() as u32;
    let mut totals = Vec::with_capacity(alloc, unlocked.len())?;
    for instrument in 0..count {
        let facts = plan.facts(instrument);
        let lanes = unlocked[instrument as usize].slots();
        let journal = journal_of(alloc, lanes)?;
        match settled(
            whole,
            facts,
            lanes,
            journal.as_slice(),
            recorders,
            instrument,
        ) {
            Some(total) => totals.push_reserved(total),
            None => return Err(FinishFault::AuditMismatch),
        }
    }
    Ok(totals)
}

/// Whether there is a seat for each recorder of the plan.
pub(crate) fn has_all(plan: &Plan, recorders: &[Recorder]) -> bool
    ensures { let numbers = length plan.now.facts.contents.recorders in
        result ≡ has_each number_of recorders.now numbers }
{
    has_each(recorders, plan.catalogue().recorders().len())
}

// What recorders, all or some, were told of an instrument, where its lanes have these facts, their numbers are by what
// they were told, and the entries that their books keep are those of which they have slips.
fn settled<B: Book>(
    whole: bool,
    facts: &Facts,
    lanes: &[Slot<B>],
    journal: &[Entry],
    recorders: &[Recorder],
    instrument: u32,
) -> Option<Total>
    requires journal { journal.now ≡ kept_by B.kept lanes.now }
    requires kept { All (CellKept B.stands) lanes.now }
    ensures told { OnSome result (
        IsSettled whole B.kept facts.now lanes.now recorders.now instrument) }
    ensures journal { let entries = kept_by B.kept lanes.now in
        OnSome result (whole ≡ true →
        IsToldJournal B.KEEPS_ENTRIES facts.now recorders.now instrument entries) }
    ensures total { IfSome result (λ total.
        total ≡ told_total (told_on instrument) facts.now.lo recorders.now) }
    ensures other { IfNone result (
        IsSettled whole B.kept facts.now lanes.now recorders.now instrument → ⊥) }
{
    if !are_of(lanes, facts) || !is_counted(lanes) {
        return None;
    }
    let together = Together { facts, lanes };
    let total = total_by(whole, &together, recorders, instrument)?;
    if !are_noted(journal, recorders, instrument) {
        return None;
    }
    Some(total)
}

// Whether the lanes have these facts.
fn are_of<B: Book>(lanes: &[Slot<B>], facts: &Facts) -> bool
    ensures { IsTrue result ↔ All (λ c. c.facts ≡ facts.now) lanes.now }
{
    lanes.iter().all(|slot| slot.is_of(facts))
}

// What they were told, where the instrument's numbers are by that.
fn total_by<C: Tally>(
    whole: bool,
    counted: &C,
    recorders: &[Recorder],
    instrument: u32,
) -> Option<Total>
    ensures told { OnSome result (
        IsToldBy whole number_of (told_on instrument) (C.numbers counted.now) recorders.now) }
    ensures total { IfSome result (λ total.
        total ≡ told_total (told_on instrument) (C.numbers counted.now).lo recorders.now) }
    ensures other { IfNone result (
        IsToldBy whole number_of (told_on instrument) (C.numbers counted.now) recorders.now → ⊥) }
{
    if whole {
        total_of_all(counted, recorders, instrument)
    } else {
        total_of_some(counted, recorders, instrument)
    }
}

// Whether the slips of each seat are the entries of its recorder.
pub(crate) fn are_noted(entries: &[Entry], recorders: &[Recorder], instrument: u32) -> bool
    ensures { IsTrue result ↔ AreNoted recorders.now instrument entries.now }
{
    recorders.iter().all(|seat| are_slips(seat.slips(instrument), entries, seat.number()))
}

// Whether the entries of a recorder are these slips.
fn are_slips(slips: &[Slip], entries: &[Entry], recorder: u32) -> bool
    ensures { IsTrue result ↔ (slips.now ≡ slips_of recorder entries.now) }
{
    let mut at = 0;
    for entry in entries {
        if entry.recorder == recorder {
            if !has_slip_at(slips, at, entry) {
                return false;
            }
            at += 1;
        }
    }
    at == slips.len()
}

// Whether the slip at a place is that of an entry.
fn has_slip_at(slips: &[Slip], at: usize, entry: &Entry) -> bool
    ensures { IsTrue result ↔ (slice_get slips.now at ≡ Some (slip_of entry.now)) }
{
    match slips.get(at) {
        Some(slip) => is_slip_of(slip, entry),
        None => false,
    }
}

// Whether a slip is that of an entry.
fn is_slip_of(slip: &Slip, entry: &Entry) -> bool
    ensures { IsTrue result ↔ (slip_of entry.now ≡ slip.now) }
{
    slip.set == entry.set && slip.value == entry.value
}
