//! Buckets that tell nothing, or little.
ghost use Rattle.std.specs.Prelude.{◌≡◌, IfOk, slice_get};
ghost use Rattle.metric_messages.specs.Places.{place_of_stream, streams_in};

use crate::named::stream_of;
use crate::places::{Place, placed};
use crate::sources::Pair;
use crate::stream_places::stream_place;
use metric_contents::Instrument;
use metric_lint::Remark;
use metric_resolve::resolve_streams;
use metric_views::{Stream, StreamAggregation};
use std::alloc::{AllocError, Global};

// What is told of a stream of which one bucket takes each value, or whose boundaries are far from its values.
pub(crate) fn bucket_message(
    alloc: Global,
    pair: Pair<'_>,
    remark: Remark,
    number: u32,
) -> Result<(Place, String), AllocError>
    ensures { IfOk result (λ told. told.0
        ≡ place_of_stream (slice_get (streams_in pair.entry) number)) }
{
    let streams = resolve_streams(alloc, pair.catalogue, pair.config)?;
    let stream = streams.as_slice().get(number as usize);
    placed(
        stream_place(streams.as_slice(), number),
        words_of(alloc, pair, remark, number, stream),
    )
}

fn words_of(
    alloc: Global,
    pair: Pair<'_>,
    remark: Remark,
    number: u32,
    stream: Option<&Stream>,
) -> Result<String, AllocError> {
    let Some(stream) = stream else {
        return format!(in alloc; "{remark}");
    };
    let instruments = pair.catalogue.instruments();
    match instruments.get(stream.instrument as usize) {
        Some(instrument) if matches!(remark, Remark::FarBoundaries { .. }) => {
            words_of_far(alloc, pair, number, stream, instrument)
        }
        Some(instrument) => words_in_range(alloc, pair, number, stream, instrument),
        None => format!(in alloc; "{remark}"),
    }
}

fn words_of_far(
    alloc: Global,
    pair: Pair<'_>,
    number: u32,
    stream: &Stream,
    instrument: &Instrument,
) -> Result<String, AllocError> {
    let told = stream_of(alloc, pair, number, stream)?;
    let (lo, hi) = (instrument.lo, instrument.hi);
    let (first, last) = ends_of(&stream.aggregation);
    format!(in alloc;
        "{told}: its values are from {lo} to {hi}, and its boundaries from {first} to {last}: are they in one unit?"
    )
}

// The first boundary and the last one.
fn ends_of(aggregation: &StreamAggregation) -> (i64, i64) {
    match aggregation {
        StreamAggregation::Sum | StreamAggregation::LastValue => (0, 0),
        StreamAggregation::Histogram(boundaries) => {
            let boundaries = boundaries.get().as_slice();
            let first = boundaries.first().copied();
            (first.unwrap_or(0), boundaries.last().copied().unwrap_or(0))
        }
    }
}

fn words_in_range(
    alloc: Global,
    pair: Pair<'_>,
    number: u32,
    stream: &Stream,
    instrument: &Instrument,
) -> Result<String, AllocError> {
    let told = stream_of(alloc, pair, number, stream)?;
    let (lo, hi) = (instrument.lo, instrument.hi);
    format!(in alloc;
        "{told}: one bucket takes each value, since no boundary tells those from {lo} to {hi} apart"
    )
}
