//! The certificate of what is safe.
ghost use Rattle.metric_setup.specs.Setups.{Makes};

use crate::fault::SetupFault;
use metric_catalogue::Catalogue;
use metric_cert::Certificate;
use metric_make::{MakeFault, make};
use metric_views::Config;
use std::alloc::Global;

/// The certificate for a catalogue and a config.
///
/// # Errors
///
/// [`SetupFault::Unsafe`] with the first part of safety that fails. [`SetupFault::Memory`] may stand in its place.
pub fn certificate_for(
    alloc: Global,
    catalogue: &Catalogue,
    config: &Config,
) -> Result<Certificate, SetupFault>
    ensures { Makes result catalogue.now config.now }
{
    match make(alloc, catalogue, config) {
        Ok(certificate) => Ok(certificate),
        Err(MakeFault::Memory) => Err(SetupFault::Memory),
        Err(fault) => Err(SetupFault::Unsafe(fault)),
    }
}
