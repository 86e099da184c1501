//! The plan of what an input declares.
ghost use Rattle.std.specs.Prelude.{IfErr, IfOk, IsSome};
ghost use Rattle.metric_kit_commands.specs.Claims.{IsCertifiedPlan, IsClaimFault};
ghost use Rattle.metric_kit_commands.specs.Declarations.{IsDeclared, IsDeclaredFault};
ghost use Rattle.metric_kit_commands.specs.Faults.{IsOfInput};
ghost use Rattle.metric_kit_commands.specs.Replaying.{IsTrialFault, IsTrialPlan};

use crate::fault::KitFault;
use metric_catalogue::Catalogue;
use metric_parts::Parts;
use metric_plan::Plan;
use metric_setup::{catalogue_of, certificate_of, config_of, plan_by, trial_of};
use metric_views::Config;
use std::alloc::Global;

/// The catalogue and the config of an input.
#[derive(Drop)]
pub struct Declared {
    /// What may be recorded.
    pub catalogue: Catalogue,
    /// What is to come of it.
    pub config: Config,
}

/// What the parts of an input declare.
///
/// # Errors
///
/// The first fault, in this order: [`KitFault::Catalogue`]; [`KitFault::Config`]. [`KitFault::Memory`] may stand in the
/// place of both.
pub fn declared_of(alloc: Global, parts: &Parts<'_>) -> Result<Declared, KitFault>
    ensures ok { IfOk result (λ declared.
        IsDeclared parts.now declared.catalogue declared.config) }
    ensures first { IfErr result (λ fault. IsDeclaredFault fault parts.now) }
    ensures own { IfErr result IsOfInput }
{
    let catalogue = catalogue_of(alloc, parts.catalogue.as_str(), parts.opens)?;
    let config = config_of(alloc, parts.config.as_str())?;
    Ok(Declared { catalogue, config })
}

/// The plan that the certificate of an input shows to be safe, for a command that needs a certificate.
///
/// # Errors
///
/// The first fault, in this order: those of [`declared_of`]; [`KitFault::Certificate`]; [`KitFault::Check`].
/// [`KitFault::Memory`] may stand in the place of any.
pub fn certified_plan(alloc: Global, parts: &Parts<'_>) -> Result<Plan, KitFault>
    requires { IsSome parts.now.certificate }
    ensures ok { IfOk result (IsCertifiedPlan parts.now) }
    ensures first { IfErr result (λ fault. IsClaimFault fault parts.now) }
    ensures own { IfErr result IsOfInput }
{
    let declared = declared_of(alloc, parts)?;
    let text = parts.certificate.as_ref().unwrap();
    let certificate = certificate_of(alloc, text.as_str())?;
    let Declared { catalogue, config } = declared;
    let plan = plan_by(alloc, catalogue, config, &certificate)?;
    Ok(plan)
}

/// The plan of a trial, for which the certificate of an input is not read.
pub(crate) fn trial_plan(alloc: Global, parts: &Parts<'_>) -> Result<Plan, KitFault>
    ensures ok { IfOk result (IsTrialPlan parts.now) }
    ensures first { IfErr result (λ fault. IsTrialFault fault parts.now) }
    ensures own { IfErr result IsOfInput }
{
    let Declared { catalogue, config } = declared_of(alloc, parts)?;
    let plan = trial_of(alloc, catalogue, config)?;
    Ok(plan)
}
