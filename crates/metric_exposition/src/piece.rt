//! The pieces of lines.
ghost use Rattle.std.specs.Prelude.{◌≡◌, ◌++◌, OnOk};
ghost use Rattle.std.specs.List.{flat_map};
ghost use Rattle.metric_exposition.specs.LabelTexts.{braced, comma_after};
ghost use Rattle.metric_exposition.specs.Pieces.{piece_text};

use crate::boundary::push_boundary;
use crate::escape::push_escaped;
use crate::seconds::push_seconds;
use itoa::Buffer;
use metric_text::{push_signed, push_text};
use std::alloc::AllocError;

/// A piece of a line.
#[derive(Clone, Copy)]
pub(crate) enum Piece<'a> {
    /// A text as it stands.
    Text(&'a str),
    /// A text with what is escaped in it, quotes too or not.
    Escaped(bool, &'a str),
    /// Labels in braces, nothing where there are none.
    Braced(&'a [u8]),
    /// Labels with a comma behind them, nothing where there are none.
    Led(&'a [u8]),
    /// A number that may be negative.
    Signed(i64),
    /// A number.
    Count(u128),
    /// The boundary of a bucket.
    Boundary(i64),
    /// Nanoseconds, as seconds.
    Seconds(u64),
}

/// Writes pieces, one after the other.
#[tactic(auto, using(metric_text::specs::ListLaws::steps))]
pub(crate) fn push_pieces(out: &mut Vec<u8>, pieces: &[Piece<'_>]) -> Result<(), AllocError>
    ensures { OnOk result (out.new.items ≡ out.old.items ++ flat_map piece_text pieces.now) }
{
    for piece in pieces {
        push_piece(out, piece)?;
    }
    Ok(())
}

/// Writes a piece.
pub(crate) fn push_piece(out: &mut Vec<u8>, piece: &Piece<'_>) -> Result<(), AllocError>
    ensures { OnOk result (out.new.items ≡ out.old.items ++ piece_text piece.now) }
{
    match *piece {
        Piece::Text(text) => push_text(out, text),
        Piece::Escaped(quotes, text) => push_escaped(out, quotes, text.as_bytes()),
        Piece::Braced(labels) => push_braced(out, labels),
        Piece::Led(labels) => push_led(out, labels),
        Piece::Signed(number) => push_signed(out, number),
        Piece::Count(number) => push_text(out, Buffer::new().format(number)),
        Piece::Boundary(boundary) => push_boundary(out, boundary),
        Piece::Seconds(nanos) => push_seconds(out, nanos),
    }
}

#[tactic(auto, unfolding(crate::specs::LabelTexts::braced))]
fn push_braced(out: &mut Vec<u8>, labels: &[u8]) -> Result<(), AllocError>
    ensures { OnOk result (out.new.items ≡ out.old.items ++ braced labels.now) }
{
    if labels.is_empty() {
        return Ok(());
    }
    push_text(out, "{")?;
    out.extend_from_slice(labels)?;
    push_text(out, "}")
}

#[tactic(auto, unfolding(crate::specs::LabelTexts::comma_after))]
fn push_led(out: &mut Vec<u8>, labels: &[u8]) -> Result<(), AllocError>
    ensures { OnOk result (out.new.items ≡ out.old.items ++ comma_after labels.now) }
{
    if labels.is_empty() {
        return Ok(());
    }
    out.extend_from_slice(labels)?;
    push_text(out, ",")
}
