//! The reader that an output is made for.
ghost use Rattle.std.specs.Prelude.{◌≡◌, IfOk, Ok, OnOk, Err, MatchResult, []};
ghost use Rattle.metric_base.specs.Steps.{GivesBy};
ghost use Rattle.metric_exposure.specs.Exposures.{exposure_faults};
ghost use Rattle.metric_exposure.specs.declared.outlet.Outlet.{Outlet};
ghost use Rattle.metric_exposure.specs.declared.outlet.Outlet.TheVariants.{Otlp, Prometheus};
ghost use Rattle.metric_outlets.specs.Served.{exposed, is_served, known, served_of};

use crate::outlet_fault::{OutletFault, told_exposed};
use metric_exposure::{expose, expose_to_otlp};
use metric_plan::Plan;
use std::alloc::Global;

/// A reader of a plan, which is told by its fingerprint.
#[derive(Clone, Copy, Debug, PartialEq, Eq, Drop)]
pub struct Served {
    /// The plan's fingerprint.
    pub plan: u64,
    /// The reader's number.
    pub reader: u32,
}

impl Served {
    /// Whether it is this reader of this plan.
    pub fn is(&self, plan: u64, reader: u32) -> bool
        ensures { result ≡ is_served self.now plan reader }
    {
        plan == self.plan && reader == self.reader
    }
}

/// The reader, if each of its streams can stand in a page.
pub(crate) fn served_by_pages(
    alloc: Global,
    plan: &Plan,
    reader: u32,
) -> Result<Served, OutletFault>
    ensures check { GivesBy (λ _. tt) OutletFault.Memory result
        (exposed Prometheus plan.now reader) }
    ensures served { IfOk result (λ served. served ≡ served_of plan.now reader) }
{
    let served = known(plan, reader)?;
    match expose(alloc, plan, reader) {
        Ok(()) => Ok(served),
        Err(fault) => Err(told_exposed(fault)),
    }
}

/// The reader, if each of its streams can stand in requests of OTLP.
pub(crate) fn served_by_otlp(plan: &Plan, reader: u32) -> Result<Served, OutletFault>
    ensures check { MatchResult result (λ _. exposed Otlp plan.now reader ≡ Ok tt)
        (λ fault. exposed Otlp plan.now reader ≡ Err fault) }
    ensures served { IfOk result (λ served. served ≡ served_of plan.now reader) }
{
    let served = known(plan, reader)?;
    match expose_to_otlp(plan, reader) {
        Ok(()) => Ok(served),
        Err(fault) => Err(told_exposed(fault)),
    }
}

// The reader, if the plan has it.
fn known(plan: &Plan, reader: u32) -> Result<Served, OutletFault>
    ensures check { MatchResult result (λ _. known plan.now reader ≡ Ok tt)
        (λ fault. known plan.now reader ≡ Err fault) }
    ensures served { IfOk result (λ served. served ≡ served_of plan.now reader) }
{
    if (reader as usize) < plan.config().readers().len() {
        Ok(Served {
            plan: plan.fingerprint(),
            reader,
        })
    } else {
        Err(OutletFault::UnknownReader)
    }
}
