//! A provider that goes over into the next run of its plan.
ghost use Rattle.std.specs.Prelude.{◌≡◌, ◌==◌, IsTrue, true, false, IfErr, IfOk, OnErr, OnOk, Ok, length, map, vec_len};
ghost use Rattle.std.specs.List.{range_with_len};
ghost use Rattle.metric_provider.specs.Locked.{AreLockedJournals};
ghost use Rattle.metric_provider.specs.Rolling.{IsInTime, IsLatest, RefusesNext, RefusesRoll, new_collectors, new_recorders};
ghost use Rattle.metric_seat.specs.Seats.{provider_of, run_of};
ghost use Rattle.metric_provider.specs.Totals.{Finishes, RefusesFinish, seated};

use crate::collector::Collector;
use crate::fault::RollFault;
use crate::finish::{seated_by, settle_locked};
use crate::gate::Gate;
use crate::lanes::Lanes;
use crate::provider::Provider;
use crate::recorder::Recorder;
use crate::starting::{Beginning, new_parts};
use crate::timed::latest_of;
use crate::totals::{Rolled, Totals};
use metric_history::Book;
use metric_plan::Plan;
use metric_seat::{FinishFault, RunId};
use std::alloc::Global;
use std::sync::Wait;

impl<B: Book, G: Gate> Provider<B, G> {
    /// Ends the provider by the seats of all its recorders, as [`Provider::finish`] does, and starts the next one of
    /// the same plan, since a time in nanoseconds: with full budgets, new seats, and the number of another run. So a
    /// service lives for ever on bounded budgets, and its readers see a new start time, as after a restart.
    ///
    /// All memory for the next run is taken before the one that is there ends: where it does not end, it goes on, and
    /// provider and seats are handed back. Its readers' seats serve it alone: let each collect a last time before,
    /// since what was recorded after a reader's last batch is in the totals only.
    ///
    /// # Errors
    ///
    /// - [`RollFault::SameRun`] where the next run has the number of this one.
    /// - [`RollFault::Early`] where it starts before the last batch of a reader of this one, with the greatest time of
    ///   these, or that at which this one started.
    /// - [`RollFault::Finish`] with a fault of [`Provider::finish`]; its `Memory` also where there is none for the next
    ///   run.
    pub fn roll_over<R: Wait>(
        self,
        rt: &R,
        alloc: Global,
        recorders: Vec<Recorder>,
        start: u64,
        run: u64,
    ) -> Result<Rolled<B, G>, (Provider<B, G>, Vec<Recorder>, RollFault)>
        ensures totals { IfOk result (λ rolled. let end = rolled.totals in
            Finishes B.KEEPS_ENTRIES self.plan recorders.items
            end.instruments.items end.journals.items end.slips.items) }
        ensures behind { IfOk result (λ rolled. let all = self.plan.facts.instruments in
            let journals = rolled.totals.journals.items in
            AreLockedJournals true B.stands B.kept all recorders.items journals) }
        ensures next { IfOk result (λ rolled.
            rolled.provider ≡ provider_of self.plan (run_of self.plan run start)) }
        ensures next_recorders { IfOk result (λ rolled.
            rolled.recorders.items
            ≡ new_recorders B.KEEPS_ENTRIES (run_of self.plan run start) self.plan) }
        ensures next_collectors { IfOk result (λ rolled.
            rolled.collectors.items ≡ new_collectors (run_of self.plan run start) self.plan) }
        ensures seated { OnOk result (seated self recorders.items ≡ Ok tt) }
        ensures other_run { OnOk result ((run == self.run.number) ≡ false) }
        ensures in_time { OnOk result (
            IsInTime B.stands (length self.plan.facts.instruments) start) }
        ensures refused { IfErr result (λ refused. let locks = length self.plan.facts.instruments in
            let ended = seated self recorders.items in
            RefusesRoll B.stands locks (run == self.run.number) start ended refused.2) }
        ensures provider { IfErr result (λ refused. refused.0 ≡ self) }
        ensures recorders { IfErr result (λ refused. refused.1.items ≡ recorders.items) }
    {
        let next = Beginning {
            start,
            run,
            most: self.most(),
        };
        match self.may_begin(rt, next) {
            Ok(()) => match self.rolled(alloc, recorders, next) {
                Ok(rolled) => Ok(rolled),
                Err((provider, recorders, fault)) => {
                    Err((provider, recorders, RollFault::Finish(fault)))
                }
            },
            Err(fault) => Err((self, recorders, fault)),
        }
    }

    // Whether the next run has another number than this one, and starts no earlier than its last batches.
    fn may_begin<R: Wait>(&self, rt: &R, next: Beginning) -> Result<(), RollFault>
        ensures other_run { OnOk result ((next.run == self.now.run.number) ≡ false) }
        ensures in_time { OnOk result (
            IsInTime B.stands (length self.now.plan.facts.instruments) next.start) }
        ensures refused { let locks = length self.now.plan.facts.instruments in
            IfErr result (λ fault.
            RefusesNext B.stands locks (next.run == self.now.run.number) next.start fault) }
    {
        if next.run == self.run().number {
            return Err(RollFault::SameRun);
        }
        let time = self.latest(rt);
        if next.start < time {
            return Err(RollFault::Early(time));
        }
        Ok(())
    }

    // The greatest time of a last batch of its readers; its start before one.
    fn latest<R: Wait>(&self, rt: &R) -> u64
        ensures { IsLatest B.stands (length self.now.plan.facts.instruments) result }
    {
        latest_of(rt, self.slots())
    }

    // The next provider, and what this one comes to, where the seats are those of all its recorders.
    fn rolled(
        self,
        alloc: Global,
        recorders: Vec<Recorder>,
        next: Beginning,
    ) -> Result<Rolled<B, G>, (Provider<B, G>, Vec<Recorder>, FinishFault)>
        ensures totals { IfOk result (λ rolled. let end = rolled.totals in
            Finishes B.KEEPS_ENTRIES self.plan recorders.items
            end.instruments.items end.journals.items end.slips.items) }
        ensures behind { IfOk result (λ rolled. let all = self.plan.facts.instruments in
            let journals = rolled.totals.journals.items in
            AreLockedJournals true B.stands B.kept all recorders.items journals) }
        ensures next { IfOk result (λ rolled.
            rolled.provider ≡ provider_of self.plan (run_of self.plan next.run next.start)) }
        ensures next_recorders { IfOk result (λ rolled.
            rolled.recorders.items
            ≡ new_recorders B.KEEPS_ENTRIES (run_of self.plan next.run next.start) self.plan) }
        ensures next_collectors { IfOk result (λ rolled.
            rolled.collectors.items
            ≡ new_collectors (run_of self.plan next.run next.start) self.plan) }
        ensures seated { OnOk result (seated self recorders.items ≡ Ok tt) }
        ensures refused { IfErr result (λ refused.
            RefusesFinish (seated self recorders.items) refused.2) }
        ensures provider { IfErr result (λ refused. refused.0 ≡ self) }
        ensures recorders { IfErr result (λ refused. refused.1.items ≡ recorders.items) }
    {
        let (plan, ended, gate, mut slots, most) = self.into_slots();
        match seated_parts(alloc, &plan, ended, &mut slots, recorders.as_slice(), next) {
            Ok(parts) => {
                let RolledParts {
                    totals,
                    slots,
                    recorders,
                    collectors,
                } = parts;
                let id = RunId::of(&plan, next.run, next.start);
                let provider = Provider::from_slots(plan, id, gate, slots, most);
                Ok(Rolled {
                    provider,
                    recorders,
                    collectors,
                    totals,
                })
            }
            Err(fault) => {
                let provider = Provider::from_slots(plan, ended, gate, slots, most);
                Err((provider, recorders, fault))
            }
        }
    }
}

// What a provider comes to, and what the next one is made of.
struct RolledParts<B: Book> {
    totals: Totals,
    slots: Vec<Lanes<B>>,
    recorders: Vec<Recorder>,
    collectors: Vec<Collector>,
}

// What the provider comes to and the parts of the next one, where the seats are those of all recorders of this run of
// the plan. The instruments leave their locks last, when the memory for all else was taken.
fn seated_parts<B: Book>(
    alloc: Global,
    plan: &Plan,
    run: RunId,
    locked: &mut Vec<Lanes<B>>,
    recorders: &[Recorder],
    next: Beginning,
) -> Result<RolledParts<B>, FinishFault>
    requires slots { vec_len locked.old ≡ length plan.now.facts.instruments }
    requires certified { IsTrue plan.now.is_certified }
    ensures totals { IfOk result (λ parts. let end = parts.totals in
        Finishes B.KEEPS_ENTRIES plan.now recorders.now
        end.instruments.items end.journals.items end.slips.items) }
    ensures behind { IfOk result (λ parts. let all = plan.now.facts.instruments in
        let journals = parts.totals.journals.items in
        AreLockedJournals true B.stands B.kept all recorders.now journals) }
    ensures slots { IfOk result (λ parts.
        vec_len parts.slots ≡ length plan.now.facts.instruments) }
    ensures next_recorders { IfOk result (λ parts.
        parts.recorders.items
        ≡ new_recorders B.KEEPS_ENTRIES (run_of plan.now next.run next.start) plan.now) }
    ensures next_collectors { IfOk result (λ parts.
        parts.collectors.items
        ≡ new_collectors (run_of plan.now next.run next.start) plan.now) }
    ensures seated { OnOk result (seated (provider_of plan.now run) recorders.now ≡ Ok tt) }
    ensures refused { IfErr result (λ fault.
        RefusesFinish (seated (provider_of plan.now run) recorders.now) fault) }
    ensures back { OnErr result (vec_len locked.new ≡ vec_len locked.old) }
{
    match seated_by(plan, run, recorders, true) {
        Ok(()) => {
            let (slots, seats, collectors) = new_parts(alloc, plan, next)?;
            let totals = settle_locked(alloc, plan, locked, recorders)?;
            Ok(RolledParts {
                totals,
                slots,
                recorders: seats,
                collectors,
            })
        }
        Err(fault) => Err(fault),
    }
}
