//! The lines of points.
ghost use Rattle.std.specs.Prelude.{◌≡◌, ◌++◌, OnOk};
ghost use Rattle.metric_lines.specs.Pieces.{piece_text};
ghost use Rattle.metric_lines.specs.Points.{buckets_text, covered_text, point_text, single_text, sum_text, value_text};

use crate::piece::{Piece, push_pieces};
use metric_aggregate::PointValue;
use metric_contents::{Key, SetKey};
use metric_history::{Batch, Point};
use std::alloc::AllocError;

/// Writes the line of a point of a batch, of which the stream keeps some keys.
#[tactic(auto, unfolding(crate::specs::Points::point_text))]
pub(crate) fn push_point(
    out: &mut Vec<u8>,
    keys: &[Key],
    kept: &[bool],
    batch: &Batch,
    point: &Point,
) -> Result<(), AllocError>
    ensures { OnOk result (out.new.items ≡ out.old.items
        ++ point_text keys.now kept.now batch.now.start batch.now.time point.now) }
{
    push_covered(out, keys, kept, batch.start, batch.time, &point.set)?;
    push_value(out, &point.value)
}

#[tactic(auto, unfolding(crate::specs::Points::covered_text))]
fn push_covered<'a>(
    out: &mut Vec<u8>,
    keys: &'a [Key],
    kept: &'a [bool],
    start: u64,
    time: u64,
    set: &'a Option<SetKey>,
) -> Result<(), AllocError>
    ensures { OnOk result (out.new.items ≡ out.old.items
        ++ covered_text keys.now kept.now start time set.now) }
{
    let pieces = [
        Piece::Text("point {"),
        Piece::Series(keys, kept, set),
        Piece::Number("} start=", start),
        Piece::Number(" time=", time),
    ];
    push_pieces(out, &pieces)
}

fn push_value(out: &mut Vec<u8>, value: &PointValue) -> Result<(), AllocError>
    ensures { OnOk result (out.new.items ≡ out.old.items ++ value_text value.now) }
{
    match value {
        PointValue::Sum(number) | PointValue::Last(number) => push_single(out, *number),
        PointValue::Buckets {
            count,
            counts,
            sum,
            min,
            max,
        } => push_buckets(out, *count, counts.as_slice(), *sum, *min, *max),
    }
}

#[tactic(auto, unfolding(crate::specs::Points::single_text))]
fn push_single(out: &mut Vec<u8>, number: i64) -> Result<(), AllocError>
    ensures { OnOk result (out.new.items ≡ out.old.items ++ single_text number) }
{
    push_pieces(out, &[Piece::Signed(" value=", number), Piece::Text("\n")])
}

#[tactic(auto, unfolding(crate::specs::Points::buckets_text))]
fn push_buckets(
    out: &mut Vec<u8>,
    count: u64,
    counts: &[u64],
    sum: Option<i64>,
    min: i64,
    max: i64,
) -> Result<(), AllocError>
    ensures { OnOk result (out.new.items ≡ out.old.items
        ++ buckets_text count counts.now sum min max) }
{
    let pieces = [
        Piece::Number(" count=", count),
        Piece::Counts(" buckets=", counts),
        sum_piece(sum),
        Piece::Signed(" min=", min),
        Piece::Signed(" max=", max),
        Piece::Text("\n"),
    ];
    push_pieces(out, &pieces)
}

// The sum of a histogram, where it is not left out.
fn sum_piece(sum: Option<i64>) -> Piece<'static>
    ensures { piece_text result ≡ sum_text sum }
{
    match sum {
        None => Piece::Text(""),
        Some(sum) => Piece::Signed(" sum=", sum),
    }
}
