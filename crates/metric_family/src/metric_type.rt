//! The type of a metric family.
ghost use Rattle.std.specs.Prelude.{◌≡◌, map};
ghost use Rattle.metric_family.specs.Families.{suffixes, type_name, type_of};

use metric_views::{Stream, StreamAggregation};

/// The type of a metric family (Prometheus text format, `# TYPE`).
#[derive(Clone, Copy, Debug, PartialEq, Eq, Drop)]
pub enum MetricType {
    /// A sum that only rises.
    Counter,
    /// Another sum, or a last value.
    Gauge,
    /// How many values fall between boundaries.
    Histogram,
}

impl MetricType {
    /// The type of a stream's family.
    #[tactic(auto, unfolding(crate::specs::Families::type_of))]
    pub fn of(stream: &Stream) -> MetricType
        ensures { result ≡ type_of stream.now }
    {
        match &stream.aggregation {
            StreamAggregation::Sum => {
                if stream.kind.is_monotonic() {
                    MetricType::Counter
                } else {
                    MetricType::Gauge
                }
            }
            StreamAggregation::LastValue => MetricType::Gauge,
            StreamAggregation::Histogram(_) => MetricType::Histogram,
        }
    }

    /// How the type is written: `counter`, `gauge` or `histogram`.
    pub fn name(&self) -> &'static str
        ensures { result.now ≡ type_name self.now }
    {
        match self {
            MetricType::Counter => "counter",
            MetricType::Gauge => "gauge",
            MetricType::Histogram => "histogram",
        }
    }

    /// What stands after the family's name in the names of its samples; the first is the empty text, for the family
    /// itself.
    pub fn suffixes(&self) -> &'static [&'static str]
        ensures { map (λ suffix. suffix.now) result.now ≡ suffixes self.now }
    {
        match self {
            MetricType::Counter => &["", "_total", "_created"],
            MetricType::Gauge => &[""],
            MetricType::Histogram => &["", "_bucket", "_sum", "_count", "_created"],
        }
    }
}
