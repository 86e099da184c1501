//! The lines of a histogram.
ghost use Rattle.std.specs.Prelude.{◌≡◌, ◌++◌, OnOk};
ghost use Rattle.std.specs.Int.{is_negative};
ghost use Rattle.std.specs.List.{flat_map, list_any};
ghost use Rattle.metric_exposition.specs.Dialects.{is_open_metrics};
ghost use Rattle.metric_exposition.specs.Pieces.{piece_text};
ghost use Rattle.metric_exposition.specs.Samples.{bucket_head, buckets, count_line, histogram_lines, line_after, sum_line, sum_told};

use crate::dialect::Dialect;
use crate::piece::{Piece, push_piece, push_pieces};
use crate::sample::{Series, push_created, push_sample};
use itoa::Buffer;
use metric_text::push_text;
use std::alloc::AllocError;

/// What a histogram has counted.
#[derive(Clone, Copy)]
pub(crate) struct Counted<'a> {
    /// How many values there are.
    pub count: u64,
    /// How many of them fell into each bucket.
    pub counts: &'a [u64],
    /// Their sum, where it is kept.
    pub sum: Option<i64>,
}

/// Writes the lines of a histogram with these boundaries. How those of its buckets begin is made once, in the room `head`.
#[tactic(auto, unfolding(crate::specs::Samples::histogram_lines))]
pub(crate) fn push_histogram(
    out: &mut Vec<u8>,
    head: &mut Vec<u8>,
    dialect: Dialect,
    series: &Series<'_>,
    boundaries: &[i64],
    counted: &Counted<'_>,
) -> Result<(), AllocError>
    ensures { OnOk result (out.new.items ≡ out.old.items ++ histogram_lines dialect
        series.now.family.now series.now.labels.now series.now.created boundaries.now
        counted.now.count counted.now.counts.now counted.now.sum) }
{
    fill_head(head, series)?;
    push_buckets(out, head.as_slice(), boundaries, counted.counts)?;
    let sum = sum_told(dialect, boundaries, counted.sum);
    push_sum(out, series, sum)?;
    push_count(out, dialect, series, sum, counted.count)?;
    push_created(out, series)
}

#[tactic(auto, unfolding(crate::specs::Samples::bucket_head))]
fn fill_head(head: &mut Vec<u8>, series: &Series<'_>) -> Result<(), AllocError>
    ensures { OnOk result (head.new.items
        ≡ bucket_head series.now.family.now series.now.labels.now) }
{
    head.clear();
    let pieces = [
        Piece::Text(series.family),
        Piece::Text("_bucket{"),
        Piece::Led(series.labels),
        Piece::Text("le=\""),
    ];
    push_pieces(head, &pieces)
}

// Writes a line for each boundary and at last for all: how many values are at most as great. Each count has 64 bits, so
// that their sum needs more.
fn push_buckets(
    out: &mut Vec<u8>,
    head: &[u8],
    boundaries: &[i64],
    counts: &[u64],
) -> Result<(), AllocError>
    ensures { OnOk result (out.new.items ≡ out.old.items
        ++ flat_map (line_after head.now) (buckets boundaries.now counts.now)) }
{
    let mut total: u128 = 0;
    let mut boundaries = boundaries;
    for count in counts {
        total += u128::from(*count);
        let Some((boundary, others)) = boundaries.split_first() else {
            return push_bucket(out, head, Piece::Text("+Inf"), total);
        };
        push_bucket(out, head, Piece::Boundary(*boundary), total)?;
        boundaries = others;
    }
    Ok(())
}

#[tactic(auto, unfolding(crate::specs::Samples::line_after))]
fn push_bucket(
    out: &mut Vec<u8>,
    head: &[u8],
    boundary: Piece<'_>,
    total: u128,
) -> Result<(), AllocError>
    ensures { OnOk result (out.new.items ≡ out.old.items
        ++ line_after head.now (piece_text boundary.entry, total)) }
{
    out.extend_from_slice(head)?;
    push_piece(out, &boundary)?;
    push_text(out, "\"} ")?;
    push_text(out, Buffer::new().format(total))?;
    push_text(out, "\n")
}

/// The sum that is told: none in OpenMetrics where a boundary is negative.
pub fn sum_told(dialect: Dialect, boundaries: &[i64], sum: Option<i64>) -> Option<i64>
    ensures { result ≡ sum_told dialect boundaries.now sum }
{
    if dialect.is_open_metrics() && has_negative(boundaries) {
        return None;
    }
    sum
}

fn has_negative(boundaries: &[i64]) -> bool
    ensures { result ≡ list_any is_negative boundaries.now }
{
    boundaries.iter().any(|boundary| *boundary < 0)
}

fn push_sum(out: &mut Vec<u8>, series: &Series<'_>, sum: Option<i64>) -> Result<(), AllocError>
    ensures { OnOk result (out.new.items ≡ out.old.items ++ sum_line
        series.now.family.now series.now.labels.now sum) }
{
    match sum {
        None => Ok(()),
        Some(sum) => push_sample(out, series, "_sum", Piece::Signed(sum)),
    }
}

// Writes the count, but in OpenMetrics where no sum is told.
fn push_count(
    out: &mut Vec<u8>,
    dialect: Dialect,
    series: &Series<'_>,
    sum: Option<i64>,
    count: u64,
) -> Result<(), AllocError>
    ensures { OnOk result (out.new.items ≡ out.old.items ++ count_line (is_open_metrics dialect)
        series.now.family.now series.now.labels.now sum count) }
{
    if dialect.is_open_metrics() && sum.is_none() {
        return Ok(());
    }
    push_sample(out, series, "_count", Piece::Count(u128::from(count)))
}
