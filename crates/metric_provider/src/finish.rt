//! The end of a provider: its instruments leave their locks and are compared with what the recorders were told.
ghost use Rattle.std.specs.Prelude.{◌≡◌, ◌≤◌, ◌+◌, IsTrue, Ok, true, length, map, vec_capacity, vec_len, IfOk, IfErr, OnErr, OnOk};
ghost use Rattle.metric_provider.specs.Locked.{AreLockedJournals, ComesTo};
ghost use Rattle.std.specs.List.{list_all};
ghost use Rattle.metric_seat.specs.Seats.{is_recorder_of, provider_of};
ghost use Rattle.metric_seat.specs.Settlements.{has_each};
ghost use Rattle.metric_provider.specs.Totals.{AreToldJournals, Finishes, RefusesFinish, entries_by, missing_of, number_of, partly_seated, seated, seated_by, slips_of_seats, told_totals};

use crate::gate::Gate;
use crate::journals::{journals_of, slips_of_seats};
use crate::lanes::{Lanes, OpenLanes};
use crate::provider::Provider;
use crate::recorder::Recorder;
use crate::settling::{has_all, settle};
use crate::totals::{Finished, Partly, Totals};
use crate::turning::turn_each;
use metric_history::Book;
use metric_plan::Plan;
use metric_seat::{FinishFault, RunId, are_distinct, has_seat};
use std::alloc::{AllocError, Global};
use std::mem::replace;
use std::sync::Wait;

impl<B: Book, G: Gate> Provider<B, G> {
    /// Ends the provider, by the seats of all its recorders in any order. What its instruments come to is exactly what
    /// the recorders were told. Where its books keep their entries, the journals and the slips are copied: the journals
    /// are those behind the locks, oldest first, and the slips of each recorder are exactly its entries in each
    /// journal, each once and in order. Where it is not ended, provider and seats are handed back.
    ///
    /// # Errors
    ///
    /// - [`FinishFault::Stranger`] where a seat's run is another, a seat was made for another number of
    ///   instruments, the plan has no recorder of its number, or two seats are of one recorder.
    /// - [`FinishFault::RecorderMissing`] where a recorder has no seat among them.
    /// - [`FinishFault::AuditMismatch`] where an instrument's facts, one of its spent budgets, its count, its sum or a
    ///   recorder's entries are others.
    /// - [`FinishFault::Memory`], which may stand in the place of `AuditMismatch`.
    pub fn finish<R: Wait>(
        self,
        rt: &R,
        alloc: Global,
        recorders: Vec<Recorder>,
    ) -> Result<Totals, (Provider<B, G>, Vec<Recorder>, FinishFault)>
        ensures totals { IfOk result (λ totals. totals.instruments.items
            ≡ told_totals recorders.items 0 self.plan.facts.instruments) }
        ensures journals { IfOk result (λ totals. let instruments = self.plan.facts.instruments in
            AreToldJournals B.KEEPS_ENTRIES instruments recorders.items totals.journals.items) }
        ensures slips { IfOk result (λ totals. let count = length self.plan.facts.instruments in
            let numbers = length self.plan.facts.contents.recorders in
            totals.slips.items ≡ slips_of_seats recorders.items numbers count) }
        ensures entries { IfOk result (λ totals.
            let numbers = length self.plan.facts.contents.recorders in
            totals.slips.items ≡ map (entries_by numbers) totals.journals.items) }
        ensures behind { IfOk result (λ totals. let all = self.plan.facts.instruments in
            let journals = totals.journals.items in
            AreLockedJournals true B.stands B.kept all recorders.items journals) }
        ensures seated { OnOk result (seated self recorders.items ≡ Ok tt) }
        ensures refused { IfErr result (λ refused.
            RefusesFinish (seated self recorders.items) refused.2) }
        ensures provider { IfErr result (λ refused. refused.0 ≡ self) }
        ensures recorders { IfErr result (λ refused. refused.1.items ≡ recorders.items) }
    {
        match self.finish_keeping(rt, alloc, recorders) {
            Ok(finished) => {
                let Finished {
                    totals,
                    plan: _plan,
                    gate: _gate,
                } = finished;
                Ok(totals)
            }
            Err(refused) => Err(refused),
        }
    }

    /// [`Provider::finish`], which hands the plan and the gate out too, so that a provider can be started of them
    /// again.
    ///
    /// # Errors
    ///
    /// Those of [`Provider::finish`].
    pub fn finish_keeping<R: Wait>(
        self,
        _rt: &R,
        alloc: Global,
        recorders: Vec<Recorder>,
    ) -> Result<Finished<G>, (Provider<B, G>, Vec<Recorder>, FinishFault)>
        ensures totals { IfOk result (λ finished. let end = finished.totals in
            Finishes B.KEEPS_ENTRIES self.plan recorders.items
            end.instruments.items end.journals.items end.slips.items) }
        ensures behind { IfOk result (λ finished. let all = self.plan.facts.instruments in
            let journals = finished.totals.journals.items in
            AreLockedJournals true B.stands B.kept all recorders.items journals) }
        ensures plan { IfOk result (λ finished. finished.plan ≡ self.plan) }
        ensures certified { IfOk result (λ finished. IsTrue finished.plan.is_certified) }
        ensures seated { OnOk result (seated self recorders.items ≡ Ok tt) }
        ensures refused { IfErr result (λ refused.
            RefusesFinish (seated self recorders.items) refused.2) }
        ensures provider { IfErr result (λ refused. refused.0 ≡ self) }
        ensures recorders { IfErr result (λ refused. refused.1.items ≡ recorders.items) }
    {
        match self.ended(alloc, recorders, true) {
            Ok((partly, plan, gate)) => {
                let Partly {
                    totals,
                    missing: _none,
                } = partly;
                Ok(Finished { totals, plan, gate })
            }
            Err(refused) => Err(refused),
        }
    }

    /// Ends the provider by the seats that are there, in any order, where a seat was lost: each total is exactly what
    /// these recorders were told, and the recorders without a seat are named. Where none is missing, it comes to what
    /// [`Provider::finish`] does.
    ///
    /// Of a recorder without a seat nothing is known, so an instrument's count and sum are compared with nothing, and
    /// its recordings are in no total; the journals have them, where the books keep their entries.
    ///
    /// # Errors
    ///
    /// Those of [`Provider::finish`] but for `RecorderMissing`; `AuditMismatch` where an instrument's facts, the spent
    /// budget of a recorder that has a seat or its entries are others.
    pub fn finish_partly<R: Wait>(
        self,
        _rt: &R,
        alloc: Global,
        recorders: Vec<Recorder>,
    ) -> Result<Partly, (Provider<B, G>, Vec<Recorder>, FinishFault)>
        ensures totals { IfOk result (λ partly. let end = partly.totals in
            ComesTo B.stands B.kept B.KEEPS_ENTRIES self.plan recorders.items
            end.instruments.items end.journals.items end.slips.items) }
        ensures missing { IfOk result (λ partly. partly.missing.items
            ≡ missing_of recorders.items (length self.plan.facts.contents.recorders)) }
        ensures seated { OnOk result (partly_seated self recorders.items ≡ Ok tt) }
        ensures refused { IfErr result (λ refused.
            RefusesFinish (partly_seated self recorders.items) refused.2) }
        ensures provider { IfErr result (λ refused. refused.0 ≡ self) }
        ensures recorders { IfErr result (λ refused. refused.1.items ≡ recorders.items) }
    {
        match self.ended(alloc, recorders, false) {
            Ok((partly, _plan, _gate)) => Ok(partly),
            Err(refused) => Err(refused),
        }
    }

    // Ends the provider by these seats, which are to be those of all its recorders, or those that are there.
    fn ended(
        self,
        alloc: Global,
        recorders: Vec<Recorder>,
        all: bool,
    ) -> Result<(Partly, Plan, G), (Provider<B, G>, Vec<Recorder>, FinishFault)>
        ensures totals { IfOk result (λ ended. let end = ended.0.totals in
            ComesTo B.stands B.kept B.KEEPS_ENTRIES self.plan recorders.items
            end.instruments.items end.journals.items end.slips.items) }
        ensures missing { IfOk result (λ ended. ended.0.missing.items
            ≡ missing_of recorders.items (length self.plan.facts.contents.recorders)) }
        ensures plan { IfOk result (λ ended. ended.1 ≡ self.plan) }
        ensures certified { IfOk result (λ ended. IsTrue ended.1.is_certified) }
        ensures seated { OnOk result (seated_by all self recorders.items ≡ Ok tt) }
        ensures refused { IfErr result (λ refused.
            RefusesFinish (seated_by all self recorders.items) refused.2) }
        ensures provider { IfErr result (λ refused. refused.0 ≡ self) }
        ensures recorders { IfErr result (λ refused. refused.1.items ≡ recorders.items) }
    {
        let (plan, run, gate, mut slots, most) = self.into_slots();
        match settle_seated(alloc, &plan, run, &mut slots, recorders.as_slice(), all) {
            Ok(partly) => Ok((partly, plan, gate)),
            Err(fault) => {
                let provider = Provider::from_slots(plan, run, gate, slots, most);
                Err((provider, recorders, fault))
            }
        }
    }
}

// What the provider comes to, where the seats are those of this run of the plan that they are to be.
fn settle_seated<B: Book>(
    alloc: Global,
    plan: &Plan,
    run: RunId,
    locked: &mut Vec<Lanes<B>>,
    recorders: &[Recorder],
    all: bool,
) -> Result<Partly, FinishFault>
    requires { vec_len locked.old ≡ length plan.now.facts.instruments }
    ensures totals { IfOk result (λ partly. let end = partly.totals in
        ComesTo B.stands B.kept B.KEEPS_ENTRIES plan.now recorders.now
        end.instruments.items end.journals.items end.slips.items) }
    ensures missing { IfOk result (λ partly. partly.missing.items
        ≡ missing_of recorders.now (length plan.now.facts.contents.recorders)) }
    ensures seated { let p = provider_of plan.now run in
        OnOk result (seated_by all p recorders.now ≡ Ok tt) }
    ensures refused { let p = provider_of plan.now run in
        IfErr result (λ fault. RefusesFinish (seated_by all p recorders.now) fault) }
    ensures back { OnErr result (vec_len locked.new ≡ vec_len locked.old) }
{
    match seated_by(plan, run, recorders, all) {
        Ok(()) => settle_partly(alloc, plan, locked, recorders),
        Err(fault) => Err(fault),
    }
}

// What the provider comes to by these seats, and whose are missing.
fn settle_partly<B: Book>(
    alloc: Global,
    plan: &Plan,
    locked: &mut Vec<Lanes<B>>,
    recorders: &[Recorder],
) -> Result<Partly, FinishFault>
    requires { vec_len locked.old ≡ length plan.now.facts.instruments }
    ensures totals { IfOk result (λ partly. let end = partly.totals in
        ComesTo B.stands B.kept B.KEEPS_ENTRIES plan.now recorders.now
        end.instruments.items end.journals.items end.slips.items) }
    ensures missing { IfOk result (λ partly. partly.missing.items
        ≡ missing_of recorders.now (length plan.now.facts.contents.recorders)) }
    ensures refused { IfErr result (λ fault. RefusesFinish (Ok tt) fault) }
    ensures back { OnErr result (vec_len locked.new ≡ vec_len locked.old) }
{
    let missing = missing_of(alloc, recorders, plan.catalogue().recorders().len())?;
    let totals = settle_locked(alloc, plan, locked, recorders)?;
    Ok(Partly { totals, missing })
}

// The numbers of so many recorders that have no seat, in ascending order.
fn missing_of(alloc: Global, recorders: &[Recorder], count: usize) -> Result<Vec<u32>, AllocError>
    requires { count ≤ 64 }
    ensures { IfOk result (λ missing. missing.items ≡ missing_of recorders.now count) }
{
    (0..count as u32)
        .filter(|number| !has_seat(recorders, *number as usize))
        .collect(alloc)
}

/// What instruments come to that leave their locks; refused, they are locked again. All room for that is made first.
pub(crate) fn settle_locked<B: Book>(
    alloc: Global,
    plan: &Plan,
    locked: &mut Vec<Lanes<B>>,
    recorders: &[Recorder],
) -> Result<Totals, FinishFault>
    requires { vec_len locked.old ≡ length plan.now.facts.instruments }
    ensures totals { IfOk result (λ totals. let sums = totals.instruments.items in
        ComesTo B.stands B.kept B.KEEPS_ENTRIES
        plan.now recorders.now sums totals.journals.items totals.slips.items) }
    ensures refused { IfErr result (λ fault. RefusesFinish (Ok tt) fault) }
    ensures back { OnErr result (vec_len locked.new ≡ vec_len locked.old) }
{
    let room = Vec::with_capacity(alloc, locked.len())?;
    let (unlocked, room) = turn_each(replace(locked, Vec::new(alloc)), room);
    match totals_of(alloc, plan, unlocked.as_slice(), recorders) {
        Ok(totals) => Ok(totals),
        Err(fault) => {
            let (back, _room) = turn_each(unlocked, room);
            *locked = back;
            Err(fault)
        }
    }
}

// The totals of the instruments, their journals, and the slips of the seats.
fn totals_of<B: Book>(
    alloc: Global,
    plan: &Plan,
    unlocked: &[OpenLanes<B>],
    recorders: &[Recorder],
) -> Result<Totals, FinishFault>
    requires { length unlocked.now ≡ length plan.now.facts.instruments }
    ensures totals { IfOk result (λ totals. let sums = totals.instruments.items in
        ComesTo B.stands B.kept B.KEEPS_ENTRIES
        plan.now recorders.now sums totals.journals.items totals.slips.items) }
    ensures refused { IfErr result (λ fault. RefusesFinish (Ok tt) fault) }
{
    match settle(alloc, plan, unlocked, recorders) {
        Ok(instruments) => {
            let numbers = plan.catalogue().recorders().len() as u32;
            let count = plan.catalogue().instruments().len() as u32;
            let journals = journals_of(alloc, unlocked)?;
            let slips = slips_of_seats(alloc, recorders, numbers, count)?;
            Ok(Totals {
                instruments,
                journals,
                slips,
            })
        }
        Err(fault) => Err(fault),
    }
}

/// Whether the seats are of this run of the plan, no two of one recorder, and where they are to be those of all its
/// recorders none is missing; or the first fault.
pub(crate) fn seated_by(
    plan: &Plan,
    run: RunId,
    recorders: &[Recorder],
    all: bool,
) -> Result<(), FinishFault>
    ensures exact { result ≡ seated_by all (provider_of plan.now run) recorders.now }
    ensures whole { let numbers = length plan.now.facts.contents.recorders in
        OnOk result (all ≡ true → has_each number_of recorders.now numbers ≡ true) }
{
    if !are_of(plan, run, recorders) || !are_distinct(recorders) {
        return Err(FinishFault::Stranger);
    }
    if all && !has_all(plan, recorders) {
        return Err(FinishFault::RecorderMissing);
    }
    Ok(())
}

// Whether each seat is of this run of the plan.
fn are_of(plan: &Plan, run: RunId, recorders: &[Recorder]) -> bool
    ensures { result ≡ list_all (is_recorder_of (provider_of plan.now run)) recorders.now }
{
    recorders.iter().all(|seat| seat.is_of(plan, run))
}
