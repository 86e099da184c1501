//! What handles are marked with, so that each kind of instrument has its own word.
use metric_contents::Kind;

/// The mark of a counter's handles.
#[derive(Clone, Copy)]
pub struct IsCounter;

/// The mark of an up-down counter's handles.
#[derive(Clone, Copy)]
pub struct IsUpDownCounter;

/// The mark of a histogram's handles.
#[derive(Clone, Copy)]
pub struct IsHistogram;

/// The mark of a gauge's handles.
#[derive(Clone, Copy)]
pub struct IsGauge;

/// A mark of one kind of instrument.
pub trait OfKind {
    ghost use Rattle.metric_contents.specs.declared.contents.Kind.{Kind as kinds};

    ghost KIND: { kinds };

    /// The kind.
    const KIND: Kind;
}

/// A kind of instrument to which values are added (Metrics API, Counter and UpDownCounter).
pub trait Adds {}

/// A kind of instrument that records values (Metrics API, Histogram and Gauge).
pub trait Records {}

impl Adds for IsCounter {}

impl Adds for IsUpDownCounter {}

impl Records for IsHistogram {}

impl Records for IsGauge {}

impl OfKind for IsCounter {
    ghost use Rattle.metric_contents.specs.declared.contents.Kind.TheVariants as kinds;

    ghost KIND = { kinds.Counter };

    const KIND: Kind = Kind::Counter;
}

impl OfKind for IsUpDownCounter {
    ghost use Rattle.metric_contents.specs.declared.contents.Kind.TheVariants as kinds;

    ghost KIND = { kinds.UpDownCounter };

    const KIND: Kind = Kind::UpDownCounter;
}

impl OfKind for IsHistogram {
    ghost use Rattle.metric_contents.specs.declared.contents.Kind.TheVariants as kinds;

    ghost KIND = { kinds.Histogram };

    const KIND: Kind = Kind::Histogram;
}

impl OfKind for IsGauge {
    ghost use Rattle.metric_contents.specs.declared.contents.Kind.TheVariants as kinds;

    ghost KIND = { kinds.Gauge };

    const KIND: Kind = Kind::Gauge;
}
