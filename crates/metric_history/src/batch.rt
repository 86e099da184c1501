//! What a collection reports.
use metric_aggregate::PointValue;
use metric_base::Items;
use metric_contents::SetKey;

/// What one collection of an instrument reports to a reader (Metrics SDK, collect).
#[derive(Drop)]
pub struct Batch {
    /// The fingerprint of the plan, by which a batch of another plan is refused.
    pub plan: u64,
    /// The number of the reader.
    pub reader: u32,
    /// The number of the instrument.
    pub instrument: u32,
    /// The first recording that is covered: the reader's previous mark (delta), or 0 (cumulative).
    pub from: u64,
    /// The number of accepted recordings of the instrument so far.
    pub mark: u64,
    /// The time at which the covered recordings begin, in nanoseconds.
    pub start: u64,
    /// The time of the collection, in nanoseconds.
    pub time: u64,
    /// The points of each stream that the reader has of the instrument, in stream order.
    pub streams: Items<StreamPoints>,
}

/// The points of one stream.
#[derive(Drop)]
pub struct StreamPoints {
    /// The number of the stream.
    pub stream: u32,
    /// The points in ascending order of their set keys, then the overflow point where there is one.
    pub points: Items<Point>,
}

/// What is reported of one series.
#[derive(Drop)]
pub struct Point {
    /// The series, or none for the overflow point (Metrics SDK, cardinality limits).
    pub set: Option<SetKey>,
    /// The value.
    pub value: PointValue,
}
