//! The text of a batch.
ghost use Rattle.std.specs.Prelude.{◌≡◌, ◌++◌, OnOk};
ghost use Rattle.metric_lines.specs.Batches.{batch_text, described_text, head_text, point_count};
ghost use Rattle.metric_lines.specs.Batches.{points_text, stream_text, streams_text};
ghost use Rattle.metric_lines.specs.Descriptions.{described_by};

use crate::description::{Description, described_stream};
use crate::piece::{Piece, push_pieces};
use crate::point::push_point;
use crate::stream::push_stream_line;
use metric_catalogue::Catalogue;
use metric_history::{Batch, Point, StreamPoints};
use metric_views::{Config, Stream};
use std::alloc::AllocError;

/// Writes the text of a batch: a line with the time and the number of all points; then, for each stream
/// of the batch that has points, a line that describes it and a line for each point.
///
/// The streams are those of the plan, numbered from 0. A stream whose number, or whose reader, instrument or meter, is
/// not there is left out; its points still count. Fails only when out of memory, and may then have written a part of
/// the text.
#[tactic(auto, unfolding(crate::specs::Batches::batch_text))]
pub fn push_batch(
    out: &mut Vec<u8>,
    catalogue: &Catalogue,
    config: &Config,
    streams: &[Stream],
    batch: &Batch,
) -> Result<(), AllocError>
    ensures { OnOk result (out.new.items ≡ out.old.items
        ++ batch_text catalogue.now config.now streams.now batch.now) }
{
    push_head(out, batch)?;
    push_streams(out, catalogue, config, streams, batch)
}

#[tactic(auto, unfolding(crate::specs::Batches::head_text))]
fn push_head(out: &mut Vec<u8>, batch: &Batch) -> Result<(), AllocError>
    ensures { OnOk result (out.new.items ≡ out.old.items ++ head_text batch.now) }
{
    let pieces = [
        Piece::Number("collected ", batch.time),
        Piece::Wide(" ", point_count(batch.streams.as_slice())),
        Piece::Text("\n"),
    ];
    push_pieces(out, &pieces)
}

// The number of points in all streams. Each has at most 2^64 - 1 of them, so that the sum needs more bits.
fn point_count(streams: &[StreamPoints]) -> u128
    ensures { result ≡ point_count streams.now }
{
    let mut count: u128 = 0;
    for stream in streams {
        count += stream.points.len() as u128;
    }
    count
}

#[tactic(auto, using(metric_text::specs::ListLaws::steps))]
fn push_streams(
    out: &mut Vec<u8>,
    catalogue: &Catalogue,
    config: &Config,
    streams: &[Stream],
    batch: &Batch,
) -> Result<(), AllocError>
    ensures { OnOk result (out.new.items ≡ out.old.items
        ++ streams_text catalogue.now config.now streams.now batch.now) }
{
    for points in batch.streams.as_slice() {
        push_stream(out, catalogue, config, streams, batch, points)?;
    }
    Ok(())
}

// Writes the lines of a stream, if it has points and is described.
fn push_stream(
    out: &mut Vec<u8>,
    catalogue: &Catalogue,
    config: &Config,
    streams: &[Stream],
    batch: &Batch,
    points: &StreamPoints,
) -> Result<(), AllocError>
    ensures { OnOk result (out.new.items ≡ out.old.items
        ++ stream_text catalogue.now config.now streams.now batch.now points.now) }
{
    if points.points.is_empty() {
        return Ok(());
    }
    match described_stream(catalogue, config, streams, points.stream) {
        Some(description) => push_described(out, &description, batch, points.points.as_slice()),
        None => Ok(()),
    }
}

fn push_described(
    out: &mut Vec<u8>,
    description: &Description<'_>,
    batch: &Batch,
    points: &[Point],
) -> Result<(), AllocError>
    ensures { OnOk result (out.new.items ≡ out.old.items
        ++ described_text batch.now points.now (described_by description.now)) }
{
    push_stream_line(
        out,
        description.reader.name.as_str(),
        description.meter,
        description.stream,
    )?;
    push_points(out, description, batch, points)
}

#[tactic(auto, using(metric_text::specs::ListLaws::steps))]
fn push_points(
    out: &mut Vec<u8>,
    description: &Description<'_>,
    batch: &Batch,
    points: &[Point],
) -> Result<(), AllocError>
    ensures { OnOk result (out.new.items ≡ out.old.items
        ++ points_text batch.now points.now (described_by description.now)) }
{
    let keys = description.instrument.keys.as_slice();
    let kept = description.stream.kept.get().as_slice();
    for point in points {
        push_point(out, keys, kept, batch, point)?;
    }
    Ok(())
}
