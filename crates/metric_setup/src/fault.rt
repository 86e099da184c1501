//! Why a service gets no plan.
use metric_catalogue::CatalogueFault;
use metric_cert::CertFault;
use metric_check::ClaimFault;
use metric_make::MakeFault;
use metric_views::ViewFault;
use std::alloc::AllocError;
use thiserror::Error;

/// Why a catalogue and a config come to no certified plan: the first fault of the catalogue, then that of the config;
/// then the first part of safety that fails, or, where somebody else has made the certificate, its first fault and then
/// the first that its check finds; or out of memory.
#[derive(Clone, Copy, Debug, PartialEq, Eq, Drop, Error)]
pub enum SetupFault {
    /// The catalogue is none.
    #[error("catalogue {0}")]
    Catalogue(CatalogueFault),
    /// The config is none.
    #[error("config {0}")]
    Config(ViewFault),
    /// The catalogue and the config are not safe together, so nothing can certify them.
    #[error("make {0}")]
    Unsafe(MakeFault),
    /// The certificate is none.
    #[error("certificate {0}")]
    Certificate(CertFault),
    /// The certificate does not show that the catalogue and the config are safe, or the budgets of a trial cannot be
    /// counted.
    #[error("check {0}")]
    Check(ClaimFault),
    /// Out of memory.
    #[error("memory")]
    Memory,
}
