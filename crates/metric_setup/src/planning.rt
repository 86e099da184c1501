//! Plans of a catalogue and a config.
ghost use Rattle.std.specs.Prelude.{IfOk, IsTrue};
ghost use Rattle.metric_setup.specs.Setups.{Tries, Vouches};

use crate::fault::SetupFault;
use metric_catalogue::Catalogue;
use metric_cert::Certificate;
use metric_check::{CheckFault, ClaimFault, check};
use metric_plan::Plan;
use metric_views::Config;
use std::alloc::Global;

/// The plan that a certificate, whoever made it, shows to be safe.
///
/// # Errors
///
/// [`SetupFault::Check`] with the first fault that its check finds, and the first entry that it is of.
/// [`SetupFault::Memory`] may stand in its place.
pub fn plan_by(
    alloc: Global,
    catalogue: Catalogue,
    config: Config,
    certificate: &Certificate,
) -> Result<Plan, SetupFault>
    ensures certified { IfOk result (λ plan. IsTrue plan.is_certified) }
    ensures plan { Vouches result catalogue config certificate.now }
{
    match check(alloc, catalogue, config, certificate) {
        Ok(plan) => Ok(plan),
        Err((_, _, refused)) => match refused.fault {
            CheckFault::Memory => Err(SetupFault::Memory),
            _ => Err(SetupFault::Check(refused)),
        },
    }
}

/// The plan of a trial, for which nobody asks a certificate.
///
/// # Errors
///
/// [`SetupFault::Check`] of [`CheckFault::CountRange`] where its budgets cannot be counted. [`SetupFault::Memory`] may
/// stand in its place.
pub fn trial_of(alloc: Global, catalogue: Catalogue, config: Config) -> Result<Plan, SetupFault>
    ensures { Tries result catalogue config }
{
    match Plan::trial(alloc, catalogue, config) {
        Ok(plan) => Ok(plan),
        Err((_, _, CheckFault::CountRange)) => {
            Err(SetupFault::Check(ClaimFault::of_none(CheckFault::CountRange)))
        }
        Err(_) => Err(SetupFault::Memory),
    }
}
