//! The certified plan of a catalogue and a config.
ghost use Rattle.std.specs.Prelude.{IfErr, IfOk, IsTrue};
ghost use Rattle.metric_cert.specs.Valid.{IsValid};
ghost use Rattle.metric_setup.specs.Setups.{IsCertifiedPlan, IsFirstFault, Plans};

use crate::fault::SetupFault;
use crate::making::certificate_for;
use crate::reading::{catalogue_of, config_of};
use metric_catalogue::Catalogue;
use metric_cert::Certificate;
use metric_check::check;
use metric_plan::Plan;
use metric_views::Config;
use std::alloc::Global;

/// The certified plan of a catalogue and a config that are given as TOML: both are read, a certificate is made, and the
/// plan is the one that the check of this certificate gives. Where it comes, no limit and no number can overflow,
/// whatever is recorded within the budgets.
///
/// # Errors
///
/// The first fault, in this order: [`SetupFault::Catalogue`]; [`SetupFault::Config`]; [`SetupFault::Unsafe`] where the
/// two are not safe together. [`SetupFault::Memory`] may stand in the place of any.
pub fn certified_plan(
    alloc: Global,
    catalogue_text: &str,
    config_text: &str,
) -> Result<Plan, SetupFault>
    ensures certified { IfOk result (λ plan. IsTrue plan.is_certified) }
    ensures plan { IfOk result (IsCertifiedPlan catalogue_text.now config_text.now) }
    ensures first { IfErr result (λ fault.
        IsFirstFault fault catalogue_text.now config_text.now) }
{
    let catalogue = catalogue_of(alloc, catalogue_text, true)?;
    let config = config_of(alloc, config_text)?;
    let certificate = certificate_for(alloc, &catalogue, &config)?;
    checked_plan(alloc, catalogue, config, &certificate)
}

// The plan that a valid certificate shows to be safe. It is refused only when out of memory.
fn checked_plan(
    alloc: Global,
    catalogue: Catalogue,
    config: Config,
    certificate: &Certificate,
) -> Result<Plan, SetupFault>
    requires { IsValid catalogue config certificate.now }
    ensures certified { IfOk result (λ plan. IsTrue plan.is_certified) }
    ensures plan { Plans result catalogue config certificate.now }
{
    match check(alloc, catalogue, config, certificate) {
        Ok(plan) => Ok(plan),
        Err(_) => Err(SetupFault::Memory),
    }
}
