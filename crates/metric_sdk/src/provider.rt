//! The providers that services take.
use metric_audit::Audited;
use metric_marked::Marked;
use metric_provider::{NoGate, Provider};

/// A provider with running tables, that does nothing else inside its locks (Metrics SDK, meter provider).
pub type MeterProvider = Provider<Marked, NoGate>;

/// The same with books that keep each recording beside their running tables, so that a run can be audited.
pub type AuditedProvider = Provider<Audited, NoGate>;
