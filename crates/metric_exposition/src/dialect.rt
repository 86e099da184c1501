//! The formats of pages.
ghost use Rattle.std.specs.Prelude.{◌≡◌};
ghost use Rattle.metric_exposition.specs.Dialects.{created_at, is_open_metrics};

/// A format of pages.
#[derive(Clone, Copy, Debug, PartialEq, Eq, Drop)]
pub enum Dialect {
    /// The text format 0.0.4 of Prometheus: `text/plain; version=0.0.4`.
    Text,
    /// OpenMetrics 1.0: `application/openmetrics-text; version=1.0.0`.
    OpenMetrics,
    /// The same with a line `_created` for each counter and histogram: when its points begin. A server that does not
    /// take it as that keeps it as a series more.
    OpenMetricsCreated,
}

impl Dialect {
    /// Whether it is OpenMetrics.
    pub fn is_open_metrics(self) -> bool
        ensures { result ≡ is_open_metrics self }
    {
        match self {
            Dialect::Text => false,
            Dialect::OpenMetrics | Dialect::OpenMetricsCreated => true,
        }
    }

    /// When points begin, where it is told.
    pub fn created_at(self, start: u64) -> Option<u64>
        ensures { result ≡ created_at self start }
    {
        match self {
            Dialect::Text | Dialect::OpenMetrics => None,
            Dialect::OpenMetricsCreated => Some(start),
        }
    }
}
