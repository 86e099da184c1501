//! The plan of a catalogue and a config that somebody else's certificate shows to be safe.
ghost use Rattle.std.specs.Prelude.{IfErr, IfOk, IsTrue};
ghost use Rattle.metric_setup.specs.Setups.{IsFirstClaimFault, IsVouchedPlan};

use crate::fault::SetupFault;
use crate::planning::plan_by;
use crate::reading::{catalogue_of, certificate_of, config_of};
use metric_plan::Plan;
use std::alloc::Global;

/// The plan of a catalogue and a config that are given as TOML, with a certificate that somebody else made, whom nobody
/// trusts: all three are read, and the certificate is checked. Where the plan comes, no limit and no number can
/// overflow, whatever is recorded within the budgets.
///
/// # Errors
///
/// The first fault, in this order: [`SetupFault::Catalogue`]; [`SetupFault::Config`]; [`SetupFault::Certificate`];
/// [`SetupFault::Check`] where the certificate does not show that the two are safe. [`SetupFault::Memory`] may stand in
/// the place of any.
pub fn vouched_plan(
    alloc: Global,
    catalogue_text: &str,
    config_text: &str,
    certificate_text: &str,
) -> Result<Plan, SetupFault>
    ensures certified { IfOk result (λ plan. IsTrue plan.is_certified) }
    ensures plan { IfOk result (
        IsVouchedPlan catalogue_text.now config_text.now certificate_text.now) }
    ensures first { IfErr result (λ fault.
        IsFirstClaimFault fault catalogue_text.now config_text.now certificate_text.now) }
{
    let catalogue = catalogue_of(alloc, catalogue_text, true)?;
    let config = config_of(alloc, config_text)?;
    let certificate = certificate_of(alloc, certificate_text)?;
    plan_by(alloc, catalogue, config, &certificate)
}
