//! What readers and views choose.
ghost use Rattle.std.specs.Prelude.{◌≡◌};
ghost use Rattle.metric_views.specs.Choices.{choice_for, is_unfit};

use metric_contents::Kind;

/// Whether a stream reports what was recorded since the reader's last collection, or since the start
/// (Metrics data model, temporality).
#[derive(Clone, Copy, PartialEq, Eq, Drop)]
pub enum Temporality {
    /// Since the reader's last collection.
    Delta,
    /// Since the start.
    Cumulative,
}

/// The aggregation that a reader or a view names (Metrics SDK, aggregation).
#[derive(Clone, Copy, PartialEq, Eq, Drop)]
pub enum Aggregation {
    /// What suits the kind: a sum for counters, the last value for gauges, else a histogram.
    Default,
    /// No stream.
    Drop,
    /// The sum.
    Sum,
    /// The last value.
    LastValue,
    /// The explicit bucket histogram.
    ExplicitBucketHistogram,
}

/// A choice for each kind of instrument.
#[derive(Clone, Copy, Drop)]
pub struct ByKind<T> {
    /// For counters.
    pub counter: T,
    /// For up-down counters.
    pub up_down_counter: T,
    /// For histograms.
    pub histogram: T,
    /// For gauges.
    pub gauge: T,
}

impl<T: Copy> ByKind<T> {
    /// The choice for a kind.
    pub fn of(&self, kind: Kind) -> T
        ensures { result ≡ choice_for self.now kind }
    {
        match kind {
            Kind::Counter => self.counter,
            Kind::UpDownCounter => self.up_down_counter,
            Kind::Histogram => self.histogram,
            Kind::Gauge => self.gauge,
        }
    }
}

// Whether an aggregation does not fit a kind: a sum of a gauge.
pub(crate) fn is_unfit(kind: Kind, aggregation: Aggregation) -> bool
    ensures { result ≡ is_unfit kind aggregation }
{
    matches!(kind, Kind::Gauge) && matches!(aggregation, Aggregation::Sum)
}
