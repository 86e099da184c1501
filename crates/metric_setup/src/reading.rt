//! A catalogue, a config and a certificate, read.
ghost use Rattle.metric_base.specs.Steps.{Gives};
ghost use Rattle.metric_cert.specs.Certificates.{certificate_from};
ghost use Rattle.metric_views.specs.Configs.{config_of};
ghost use Rattle.metric_setup.specs.Setups.{ReadsCatalogue, ReadsCertificate, ReadsConfig, read_or_opened};

use crate::fault::SetupFault;
use metric_catalogue::{Catalogue, CatalogueFault};
use metric_cert::{CertFault, Certificate};
use metric_views::{Config, ViewFault};
use std::alloc::Global;

/// The catalogue that a text of format 1 or 2 is, or one of format 3 where such a text may be opened too.
///
/// # Errors
///
/// [`SetupFault::Catalogue`] with the first fault of the text. [`SetupFault::Memory`] may stand in its place.
pub fn catalogue_of(alloc: Global, text: &str, opens: bool) -> Result<Catalogue, SetupFault>
    ensures { ReadsCatalogue result (read_or_opened opens text.now) }
{
    match read_or_opened(alloc, text, opens) {
        Ok(catalogue) => Ok(catalogue),
        Err(CatalogueFault::Memory) => Err(SetupFault::Memory),
        Err(fault) => Err(SetupFault::Catalogue(fault)),
    }
}

fn read_or_opened(alloc: Global, text: &str, opens: bool) -> Result<Catalogue, CatalogueFault>
    ensures { Gives CatalogueFault.Memory result (read_or_opened opens text.now) }
{
    if opens {
        Catalogue::open(alloc, text)
    } else {
        Catalogue::read(alloc, text)
    }
}

/// The config that a text is.
///
/// # Errors
///
/// [`SetupFault::Config`] with the first fault of the text. [`SetupFault::Memory`] may stand in its place.
pub fn config_of(alloc: Global, text: &str) -> Result<Config, SetupFault>
    ensures { ReadsConfig result (config_of text.now) }
{
    match Config::read(alloc, text) {
        Ok(config) => Ok(config),
        Err(ViewFault::Memory) => Err(SetupFault::Memory),
        Err(fault) => Err(SetupFault::Config(fault)),
    }
}

/// The certificate that a text is. Whether it shows anything, its check says.
///
/// # Errors
///
/// [`SetupFault::Certificate`] with the first fault of the text. [`SetupFault::Memory`] may stand in its place.
pub fn certificate_of(alloc: Global, text: &str) -> Result<Certificate, SetupFault>
    ensures { ReadsCertificate result (certificate_from text.now) }
{
    match Certificate::read(alloc, text) {
        Ok(certificate) => Ok(certificate),
        Err(CertFault::Memory) => Err(SetupFault::Memory),
        Err(fault) => Err(SetupFault::Certificate(fault)),
    }
}
