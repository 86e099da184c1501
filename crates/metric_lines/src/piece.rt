//! The pieces of lines.
ghost use Rattle.std.specs.Prelude.{◌≡◌, ◌++◌, OnOk};
ghost use Rattle.std.specs.List.{flat_map};
ghost use Rattle.metric_text.specs.Lists.{numbered};
ghost use Rattle.metric_lines.specs.Pieces.{listed, piece_text, signed};

use crate::keys::{push_names, push_series};
use itoa::Buffer;
use metric_contents::{Key, SetKey};
use metric_text::{Spelled, push_labelled, push_list, push_numbered, push_signed, push_text};
use std::alloc::AllocError;

/// A piece of a line. A label is written before what it names.
#[derive(Clone, Copy)]
pub(crate) enum Piece<'a> {
    /// A text as it stands.
    Text(&'a str),
    /// A label with a text in quotes.
    Quoted(&'a str, &'a str),
    /// A label with a number.
    Number(&'a str, u64),
    /// The same for a number of more bits.
    Wide(&'a str, u128),
    /// A label with a number that may be negative.
    Signed(&'a str, i64),
    /// A label with numbers in brackets.
    Counts(&'a str, &'a [u64]),
    /// A label with numbers in brackets that may be negative.
    Bounds(&'a str, &'a [i64]),
    /// The attributes of a series: of its keys those that are kept, with the values of its set key.
    Series(&'a [Key], &'a [bool], &'a Option<SetKey>),
    /// The names of the keys that are kept, in quotes and with commas between.
    Names(&'a [Key], &'a [bool]),
}

/// Writes pieces, one after the other.
#[tactic(auto, using(metric_text::specs::ListLaws::steps))]
pub(crate) fn push_pieces(out: &mut Vec<u8>, pieces: &[Piece<'_>]) -> Result<(), AllocError>
    ensures { OnOk result (out.new.items ≡ out.old.items ++ flat_map piece_text pieces.now) }
{
    for piece in pieces {
        push_piece(out, piece)?;
    }
    Ok(())
}

fn push_piece(out: &mut Vec<u8>, piece: &Piece<'_>) -> Result<(), AllocError>
    ensures { OnOk result (out.new.items ≡ out.old.items ++ piece_text piece.now) }
{
    match *piece {
        Piece::Text(text) => push_text(out, text),
        Piece::Quoted(label, text) => push_labelled(out, label, text),
        Piece::Number(label, number) => push_numbered(out, label, number),
        Piece::Wide(label, number) => push_wide(out, label, number),
        Piece::Signed(label, number) => push_signed_after(out, label, number),
        Piece::Counts(label, numbers) => push_listed(out, label, numbers),
        Piece::Bounds(label, numbers) => push_listed(out, label, numbers),
        Piece::Series(keys, kept, set) => push_series(out, keys, kept, set),
        Piece::Names(keys, kept) => push_names(out, keys, kept),
    }
}

#[tactic(auto, unfolding(metric_text::specs::Lists::numbered))]
fn push_wide(out: &mut Vec<u8>, label: &str, number: u128) -> Result<(), AllocError>
    ensures { OnOk result (out.new.items ≡ out.old.items ++ numbered label.now number) }
{
    push_text(out, label)?;
    push_text(out, Buffer::new().format(number))
}

#[tactic(auto, unfolding(crate::specs::Pieces::signed))]
fn push_signed_after(out: &mut Vec<u8>, label: &str, number: i64) -> Result<(), AllocError>
    ensures { OnOk result (out.new.items ≡ out.old.items ++ signed label.now number) }
{
    push_text(out, label)?;
    push_signed(out, number)
}

#[tactic(auto, unfolding(crate::specs::Pieces::listed))]
fn push_listed<T: Spelled>(out: &mut Vec<u8>, label: &str, values: &[T]) -> Result<(), AllocError>
    ensures { OnOk result (out.new.items ≡ out.old.items ++ listed T.text label.now values.now) }
{
    push_text(out, label)?;
    push_list(out, values)
}
