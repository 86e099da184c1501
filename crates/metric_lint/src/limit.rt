//! What keeps an instrument from being recorded more often.

/// What keeps an instrument from being recorded more often, in the order in which it is looked for.
#[derive(Clone, Copy, Debug, PartialEq, Eq, Drop)]
pub enum Limit {
    /// With more recordings a count leaves the range of u64.
    Count,
    /// With more recordings two sums may be 2^64 or more apart.
    Amount,
    /// With more recordings a sum may be below the least i64.
    SumLow,
    /// With more recordings a sum may be above the greatest i64.
    SumHigh,
    /// With more recordings a stream may have more series than its limit (Metrics SDK, cardinality limits).
    Series {
        /// The number of the stream.
        stream: u32,
    },
}
