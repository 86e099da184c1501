//! What readers do not collect as they seem to.
use crate::named::reader_of;
use crate::sources::Pair;
use metric_contents::Kind;
use std::alloc::{AllocError, Global};

// What is told of a reader without a stream.
pub(crate) fn words_of_idle_reader(
    alloc: Global,
    pair: Pair<'_>,
    reader: u32,
) -> Result<String, AllocError> {
    let reader = reader_of(pair.config, reader);
    format!(in alloc; "{reader} has no stream, since each instrument is dropped")
}

// What is told of a reader with delta streams of a kind that has a level.
pub(crate) fn words_of_level(
    alloc: Global,
    pair: Pair<'_>,
    reader: u32,
    kind: Kind,
) -> Result<String, AllocError> {
    let reader = reader_of(pair.config, reader);
    let words = words_of_kind(kind);
    format!(in alloc; "{reader}: field \"temporality\": {words}")
}

fn words_of_kind(kind: Kind) -> &'static str {
    match kind {
        Kind::Gauge =>
            "a delta of gauges leaves out what was not recorded anew: make \"gauge\" cumulative",
        _ =>
            "a delta of up-down counters tells how they change, and not where they stand: make \"up_down_counter\" cumulative",
    }
}
