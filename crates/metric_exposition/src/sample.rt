//! The lines of a point of one number.
ghost use Rattle.std.specs.Prelude.{◌≡◌, ◌++◌, OnOk};
ghost use Rattle.metric_exposition.specs.Pieces.{piece_text};
ghost use Rattle.metric_exposition.specs.Samples.{created_line, number_lines, sample};

use crate::piece::{Piece, push_pieces};
use metric_family::MetricType;
use std::alloc::AllocError;

/// A series of a family.
#[derive(Clone, Copy)]
pub(crate) struct Series<'a> {
    /// The family's name.
    pub family: &'a str,
    /// The labels, with commas between.
    pub labels: &'a [u8],
    /// When its points begin, in nanoseconds, where that is told.
    pub created: Option<u64>,
}

/// Writes the lines of a number.
pub(crate) fn push_number(
    out: &mut Vec<u8>,
    kind: MetricType,
    series: &Series<'_>,
    number: i64,
) -> Result<(), AllocError>
    ensures { OnOk result (out.new.items ≡ out.old.items ++ number_lines kind
        series.now.family.now series.now.labels.now series.now.created number) }
{
    match kind {
        MetricType::Counter => {
            push_sample(out, series, "_total", Piece::Signed(number))?;
            push_created(out, series)
        }
        MetricType::Gauge | MetricType::Histogram => {
            push_sample(out, series, "", Piece::Signed(number))
        }
    }
}

/// Writes a line.
#[tactic(auto, unfolding(crate::specs::Samples::sample))]
pub(crate) fn push_sample<'a>(
    out: &mut Vec<u8>,
    series: &Series<'a>,
    suffix: &'a str,
    value: Piece<'a>,
) -> Result<(), AllocError>
    ensures { OnOk result (out.new.items ≡ out.old.items ++ sample
        series.now.family.now suffix.now series.now.labels.now (piece_text value.entry)) }
{
    let pieces = [
        Piece::Text(series.family),
        Piece::Text(suffix),
        Piece::Braced(series.labels),
        Piece::Text(" "),
        value,
        Piece::Text("\n"),
    ];
    push_pieces(out, &pieces)
}

/// Writes the line that tells when a series begins, where it is told.
pub(crate) fn push_created(out: &mut Vec<u8>, series: &Series<'_>) -> Result<(), AllocError>
    ensures { OnOk result (out.new.items ≡ out.old.items ++ created_line
        series.now.family.now series.now.labels.now series.now.created) }
{
    match series.created {
        None => Ok(()),
        Some(start) => push_sample(out, series, "_created", Piece::Seconds(start)),
    }
}
