//! The lines of streams, and of warnings about them.
ghost use Rattle.std.specs.Prelude.{◌≡◌, ◌++◌, OnOk};
ghost use Rattle.metric_lines.specs.Pieces.{piece_text};
ghost use Rattle.metric_lines.specs.Streams.{description_text, kind_text, shown_line, shown_text, source_text, stream_line};
ghost use Rattle.metric_lines.specs.Streams.{collision_text, temporality_text, unfit_text, view_text, warning_text};

use crate::piece::{Piece, push_pieces};
use metric_catalogue::Catalogue;
use metric_contents::{Instrument, Kind, Meter};
use metric_resolve::Warning;
use metric_views::{Config, Reader, Stream, StreamAggregation, Temporality};
use std::alloc::AllocError;

/// Writes the line of a stream in a batch, with the name of its reader and its meter.
#[tactic(auto, unfolding(crate::specs::Streams::stream_line))]
pub(crate) fn push_stream_line(
    out: &mut Vec<u8>,
    reader: &str,
    meter: &Meter,
    stream: &Stream,
) -> Result<(), AllocError>
    ensures { OnOk result (out.new.items ≡ out.old.items
        ++ stream_line reader.now meter.now stream.now) }
{
    push_source(out, reader, meter)?;
    push_description(out, stream)
}

#[tactic(auto, unfolding(crate::specs::Streams::source_text))]
fn push_source<'a>(out: &mut Vec<u8>, reader: &'a str, meter: &'a Meter) -> Result<(), AllocError>
    ensures { OnOk result (out.new.items ≡ out.old.items ++ source_text reader.now meter.now) }
{
    let pieces = [
        Piece::Quoted("stream reader=", reader),
        Piece::Quoted(" meter=", meter.name.as_str()),
        Piece::Quoted(" version=", meter.version.as_str()),
        Piece::Quoted(" schema=", meter.schema_url.as_str()),
    ];
    push_pieces(out, &pieces)
}

#[tactic(auto, unfolding(crate::specs::Streams::description_text))]
fn push_description(out: &mut Vec<u8>, stream: &Stream) -> Result<(), AllocError>
    ensures { OnOk result (out.new.items ≡ out.old.items ++ description_text stream.now) }
{
    let pieces = [
        Piece::Quoted(" name=", stream.name.get().as_str()),
        Piece::Quoted(" unit=", stream.unit.get().as_str()),
        Piece::Quoted(" description=", stream.description.get().as_str()),
        kind_piece(stream.kind, &stream.aggregation),
        temporality_piece(stream.temporality),
        Piece::Text("\n"),
    ];
    push_pieces(out, &pieces)
}

/// Writes the line of a stream of this number as `show` prints it, if its reader and its instrument are there. Fails
/// only when out of memory, and may then have written a part of the line.
pub fn push_shown(
    out: &mut Vec<u8>,
    catalogue: &Catalogue,
    config: &Config,
    number: u64,
    stream: &Stream,
) -> Result<(), AllocError>
    ensures { OnOk result (out.new.items ≡ out.old.items
        ++ shown_text catalogue.now config.now number stream.now) }
{
    let Some(reader) = config.readers().get(stream.reader as usize) else {
        return Ok(());
    };
    match catalogue.instruments().get(stream.instrument as usize) {
        Some(instrument) => push_shown_line(out, number, stream, reader, instrument),
        None => Ok(()),
    }
}

#[tactic(auto, unfolding(crate::specs::Streams::shown_line))]
fn push_shown_line<'a>(
    out: &mut Vec<u8>,
    number: u64,
    stream: &'a Stream,
    reader: &'a Reader,
    instrument: &'a Instrument,
) -> Result<(), AllocError>
    ensures { OnOk result (out.new.items ≡ out.old.items
        ++ shown_line number stream.now reader.now instrument.now) }
{
    let pieces = [
        Piece::Number("stream ", number),
        Piece::Quoted(" reader=", reader.name.as_str()),
        Piece::Number(" instrument=", u64::from(stream.instrument)),
        view_piece(stream.view),
        Piece::Quoted(" name=", stream.name.get().as_str()),
        kind_piece(stream.kind, &stream.aggregation),
        temporality_piece(stream.temporality),
        Piece::Number(" limit=", u64::from(stream.limit)),
        Piece::Text(" keys=["),
        Piece::Names(instrument.keys.as_slice(), stream.kept.get().as_slice()),
        Piece::Text("]\n"),
    ];
    push_pieces(out, &pieces)
}

/// Writes the line of a warning. Fails only when out of memory, and may then have written a part of the line.
pub fn push_warning(out: &mut Vec<u8>, warning: Warning) -> Result<(), AllocError>
    ensures { OnOk result (out.new.items ≡ out.old.items ++ warning_text warning) }
{
    match warning {
        Warning::Unfit { view, instrument } => {
            push_unfit(out, u64::from(view), u64::from(instrument))
        }
        Warning::Collision { a, b } => push_collision(out, u64::from(a), u64::from(b)),
    }
}

#[tactic(auto, unfolding(crate::specs::Streams::unfit_text))]
fn push_unfit(out: &mut Vec<u8>, view: u64, instrument: u64) -> Result<(), AllocError>
    ensures { OnOk result (out.new.items ≡ out.old.items ++ unfit_text view instrument) }
{
    let pieces = [
        Piece::Number("warning Unfit view=", view),
        Piece::Number(" instrument=", instrument),
        Piece::Text("\n"),
    ];
    push_pieces(out, &pieces)
}

#[tactic(auto, unfolding(crate::specs::Streams::collision_text))]
fn push_collision(out: &mut Vec<u8>, a: u64, b: u64) -> Result<(), AllocError>
    ensures { OnOk result (out.new.items ≡ out.old.items ++ collision_text a b) }
{
    let pieces = [
        Piece::Number("warning Collision streams=", a),
        Piece::Number(",", b),
        Piece::Text("\n"),
    ];
    push_pieces(out, &pieces)
}

// How the points of a stream are made of an instrument of this kind.
fn kind_piece(kind: Kind, aggregation: &StreamAggregation) -> Piece<'_>
    ensures { piece_text result ≡ kind_text kind aggregation.now }
{
    match aggregation {
        StreamAggregation::Sum if kind.is_monotonic() => Piece::Text(" kind=sum monotonic=yes"),
        StreamAggregation::Sum => Piece::Text(" kind=sum monotonic=no"),
        StreamAggregation::LastValue => Piece::Text(" kind=last"),
        StreamAggregation::Histogram(boundaries) => {
            Piece::Bounds(" kind=histogram bounds=", boundaries.get().as_slice())
        }
    }
}

// What the points of a stream cover.
fn temporality_piece(temporality: Temporality) -> Piece<'static>
    ensures { piece_text result ≡ temporality_text temporality }
{
    match temporality {
        Temporality::Delta => Piece::Text(" temporality=delta"),
        Temporality::Cumulative => Piece::Text(" temporality=cumulative"),
    }
}

// The number of a view, or a dash for the default stream.
fn view_piece(view: Option<u32>) -> Piece<'static>
    ensures { piece_text result ≡ view_text view }
{
    match view {
        None => Piece::Text(" view=-"),
        Some(view) => Piece::Number(" view=", u64::from(view)),
    }
}
