//! A service from its texts to its seats.
ghost use Rattle.std.specs.Prelude.{◌≡◌, IfErr, IfOk, IsTrue, OnErr, OnOk, false, true};
ghost use Rattle.metric_io.specs.Counts.{next_count};
ghost use Rattle.metric_audit.specs.AuditedStands.{StandsAudited};
ghost use Rattle.metric_marked.specs.Marks.{StandsMarked};
ghost use Rattle.metric_provider.specs.Rolling.{new_collectors, new_recorders};
ghost use Rattle.metric_seat.specs.Seats.{provider_of, run_of};
ghost use Rattle.metric_sdk.specs.Headline.{RunsAreExact};
ghost use Rattle.metric_setup.specs.Setups.{IsCertifiedPlan, IsFirstClaimFault, IsFirstFault, IsVouchedPlan};

use crate::headline::certified_plans_run_exactly;
use crate::provider::{AuditedProvider, MeterProvider};
use crate::runs::Runs;
use metric_audit::Audited;
use metric_history::Book;
use metric_plan::Plan;
use metric_provider::{Collector, NoGate, Provider, Recorder, start_with_lanes};
use metric_setup::{SetupFault, certified_plan, vouched_plan};
use std::alloc::Global;
use std::sync::Wait;

/// A provider of a catalogue and a config that are given as TOML, with a seat for each recorder and each reader, in the
/// order of the two: both texts are read, a certificate is made and checked, and the provider starts at a time in
/// nanoseconds (as [`now`](crate::now) gives it), as the next run of a process. By its number, its start and its plan
/// seats tell their provider from all others; all providers of a process are opened with one [`Runs`]. Each run of a
/// core of its plan is exact: what [`certified_runs_are_exact`](crate::certified_runs_are_exact) says, with no premise
/// about the texts.
///
/// # Errors
///
/// Those of [`certified_plan`]; [`SetupFault::Memory`] also when out of memory for the provider. No number is given
/// then.
pub fn open<R: Wait>(
    rt: &R,
    alloc: Global,
    catalogue_text: &str,
    config_text: &str,
    now: u64,
    runs: &mut Runs,
) -> Result<(MeterProvider, Vec<Recorder>, Vec<Collector>), SetupFault>
    ensures plan { IfOk result (λ opened.
        IsCertifiedPlan catalogue_text.now config_text.now opened.0.plan) }
    ensures exact { IfOk result (λ opened. RunsAreExact StandsMarked opened.0.plan) }
    ensures run { IfOk result (λ opened.
        opened.0.run ≡ run_of opened.0.plan (next_count runs.old) now) }
    ensures given { OnOk result (runs.new ≡ next_count runs.old) }
    ensures not_given { OnErr result (runs.new ≡ runs.old) }
    ensures recorders { IfOk result (λ opened.
        opened.1.items ≡ new_recorders false opened.0.run opened.0.plan) }
    ensures collectors { IfOk result (λ opened.
        opened.2.items ≡ new_collectors opened.0.run opened.0.plan) }
    ensures first { IfErr result (λ fault.
        IsFirstFault fault catalogue_text.now config_text.now) }
{
    let plan = certified_plan(alloc, catalogue_text, config_text)?;
    started(rt, alloc, plan, 1, now, runs)
}

/// [`open`] where an instrument may stand behind several locks, its lanes, so many at most: recorders of different
/// lanes do not wait for each other, and each lane has tables of its own
/// ([`start_with_lanes`](crate::start_with_lanes)).
///
/// # Errors
///
/// Those of [`open`].
pub fn open_with_lanes<R: Wait>(
    rt: &R,
    alloc: Global,
    catalogue_text: &str,
    config_text: &str,
    lanes: u32,
    now: u64,
    runs: &mut Runs,
) -> Result<(MeterProvider, Vec<Recorder>, Vec<Collector>), SetupFault>
    ensures plan { IfOk result (λ opened.
        IsCertifiedPlan catalogue_text.now config_text.now opened.0.plan) }
    ensures exact { IfOk result (λ opened. RunsAreExact StandsMarked opened.0.plan) }
    ensures run { IfOk result (λ opened.
        opened.0.run ≡ run_of opened.0.plan (next_count runs.old) now) }
    ensures given { OnOk result (runs.new ≡ next_count runs.old) }
    ensures not_given { OnErr result (runs.new ≡ runs.old) }
    ensures recorders { IfOk result (λ opened.
        opened.1.items ≡ new_recorders false opened.0.run opened.0.plan) }
    ensures collectors { IfOk result (λ opened.
        opened.2.items ≡ new_collectors opened.0.run opened.0.plan) }
    ensures first { IfErr result (λ fault.
        IsFirstFault fault catalogue_text.now config_text.now) }
{
    let plan = certified_plan(alloc, catalogue_text, config_text)?;
    started(rt, alloc, plan, lanes, now, runs)
}

/// [`open`] with a certificate that somebody else made, who is not trusted: it is read and checked, and none is made.
///
/// # Errors
///
/// Those of [`vouched_plan`]; [`SetupFault::Memory`] also when out of memory for the provider.
pub fn open_certified<R: Wait>(
    rt: &R,
    alloc: Global,
    catalogue_text: &str,
    config_text: &str,
    certificate_text: &str,
    now: u64,
    runs: &mut Runs,
) -> Result<(MeterProvider, Vec<Recorder>, Vec<Collector>), SetupFault>
    ensures plan { IfOk result (λ opened.
        IsVouchedPlan catalogue_text.now config_text.now certificate_text.now opened.0.plan) }
    ensures exact { IfOk result (λ opened. RunsAreExact StandsMarked opened.0.plan) }
    ensures run { IfOk result (λ opened.
        opened.0.run ≡ run_of opened.0.plan (next_count runs.old) now) }
    ensures given { OnOk result (runs.new ≡ next_count runs.old) }
    ensures not_given { OnErr result (runs.new ≡ runs.old) }
    ensures recorders { IfOk result (λ opened.
        opened.1.items ≡ new_recorders false opened.0.run opened.0.plan) }
    ensures collectors { IfOk result (λ opened.
        opened.2.items ≡ new_collectors opened.0.run opened.0.plan) }
    ensures first { IfErr result (λ fault.
        IsFirstClaimFault fault catalogue_text.now config_text.now certificate_text.now) }
{
    let plan = vouched_plan(alloc, catalogue_text, config_text, certificate_text)?;
    started(rt, alloc, plan, 1, now, runs)
}

/// [`open`] over books that keep each recording beside their running tables, so that the run can be audited
/// ([`audit_run`](crate::audit_run)): what that costs stands at [`Audited`].
///
/// # Errors
///
/// Those of [`open`].
pub fn open_audited<R: Wait>(
    rt: &R,
    alloc: Global,
    catalogue_text: &str,
    config_text: &str,
    now: u64,
    runs: &mut Runs,
) -> Result<(AuditedProvider, Vec<Recorder>, Vec<Collector>), SetupFault>
    ensures plan { IfOk result (λ opened.
        IsCertifiedPlan catalogue_text.now config_text.now opened.0.plan) }
    ensures exact { IfOk result (λ opened. RunsAreExact StandsAudited opened.0.plan) }
    ensures run { IfOk result (λ opened.
        opened.0.run ≡ run_of opened.0.plan (next_count runs.old) now) }
    ensures given { OnOk result (runs.new ≡ next_count runs.old) }
    ensures not_given { OnErr result (runs.new ≡ runs.old) }
    ensures recorders { IfOk result (λ opened.
        opened.1.items ≡ new_recorders true opened.0.run opened.0.plan) }
    ensures collectors { IfOk result (λ opened.
        opened.2.items ≡ new_collectors opened.0.run opened.0.plan) }
    ensures first { IfErr result (λ fault.
        IsFirstFault fault catalogue_text.now config_text.now) }
{
    let plan = certified_plan(alloc, catalogue_text, config_text)?;
    started::<R, Audited>(rt, alloc, plan, 1, now, runs)
}

// The provider of a certified plan with its seats. It is refused only when out of memory.
fn started<R: Wait, B: Book>(
    rt: &R,
    alloc: Global,
    plan: Plan,
    lanes: u32,
    now: u64,
    runs: &mut Runs,
) -> Result<(Provider<B, NoGate>, Vec<Recorder>, Vec<Collector>), SetupFault>
    requires { IsTrue plan.is_certified }
    ensures provider { let run = run_of plan (next_count runs.old) now in
        IfOk result (λ opened. opened.0 ≡ provider_of plan run) }
    ensures exact { RunsAreExact B.stands plan }
    ensures recorders { let run = run_of plan (next_count runs.old) now in
        IfOk result (λ opened. opened.1.items ≡ new_recorders B.KEEPS_ENTRIES run plan) }
    ensures collectors { let run = run_of plan (next_count runs.old) now in
        IfOk result (λ opened. opened.2.items ≡ new_collectors run plan) }
    ensures given { OnOk result (runs.new ≡ next_count runs.old) }
    ensures not_given { OnErr result (runs.new ≡ runs.old) }
    ensures memory { IfErr result (λ fault. fault ≡ SetupFault.Memory) }
{
    certified_plans_run_exactly::<B>(&plan);
    match start_with_lanes::<R, B, NoGate>(rt, alloc, plan, now, runs.coming(), NoGate, lanes) {
        Ok(opened) => {
            let _ = runs.next();
            Ok(opened)
        }
        Err(_) => Err(SetupFault::Memory),
    }
}
