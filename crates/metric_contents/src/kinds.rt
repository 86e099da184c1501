//! Kinds of instruments.
ghost use Rattle.std.specs.Prelude.{◌≡◌};
ghost use Rattle.metric_contents.specs.Kinds.{is_gauge, is_monotonic, kind_named};

use crate::contents::Kind;

impl Kind {
    /// The kind of this name in files: `counter`, `up_down_counter`, `histogram` or `gauge`.
    pub fn named(text: &str) -> Option<Kind>
        ensures { result ≡ kind_named text.now }
    {
        if text == "counter" {
            Some(Kind::Counter)
        } else if text == "up_down_counter" {
            Some(Kind::UpDownCounter)
        } else if text == "histogram" {
            Some(Kind::Histogram)
        } else if text == "gauge" {
            Some(Kind::Gauge)
        } else {
            None
        }
    }

    /// Whether sums of this kind only rise, since it takes no negative values (Metrics API, Counter and
    /// Histogram).
    pub fn is_monotonic(&self) -> bool
        ensures { result ≡ is_monotonic self.now }
    {
        matches!(self, Kind::Counter | Kind::Histogram)
    }

    /// Whether it is the kind whose values are not added up.
    pub fn is_gauge(&self) -> bool
        ensures { result ≡ is_gauge self.now }
    {
        matches!(self, Kind::Gauge)
    }
}
