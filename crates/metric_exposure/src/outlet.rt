//! The ways out that are checked.

/// A way out of the points of a reader.
#[derive(Clone, Copy, Debug, PartialEq, Eq, Drop)]
pub enum Outlet {
    /// Pages of Prometheus.
    Prometheus,
    /// Requests of OTLP.
    Otlp,
}
