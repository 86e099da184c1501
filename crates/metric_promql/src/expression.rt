//! The expressions of a file, each with where it stands.
ghost use Rattle.std.specs.Prelude.{◌≡◌, ℕ, ◌+◌, ◌-◌, min, slice_index_or, vec_len};
ghost use Rattle.metric_promql.specs.declared.expression.Piece.{Piece};
ghost use Rattle.metric_promql.specs.Places.{AreUpTo, AreRising, IsPieceAt};

use metric_base::Text;
use std::alloc::{AllocError, Global};

// From this byte of a text on its bytes stand in the file in a row, from this place on.
#[derive(Clone, Copy, Debug, Drop)]
struct Piece {
    start: usize,
    at: usize,
}

/// An expression of a file.
#[derive(Drop)]
pub struct Expression {
    /// Its text, without the marks of the file round it.
    pub text: Text,
    // Where its bytes stand.
    pieces: Vec<Piece>,
    ghost in_order: { AreRising pieces.items },
}

impl Expression {
    /// The byte of the file at which a byte of the text stands.
    pub fn place_of(&self, at: usize) -> usize
        ensures { (k : ℕ) (d : Piece) → IsPieceAt self.now.pieces.items at k
            → let piece = slice_index_or self.now.pieces.items k d
            in result ≡ min (piece.at + (at - piece.start)) usize.MAX }
    {
        let count = self.pieces.partition_point(|piece| piece.start <= at);
        match self.pieces.get(count.saturating_sub(1)) {
            Some(piece) => piece.at.saturating_add(at.saturating_sub(piece.start)),
            None => at,
        }
    }
}

/// What a file asks for.
#[derive(Drop)]
pub struct Expressions {
    /// Its expressions, in order.
    pub list: Vec<Expression>,
    /// The names under which rules record what they ask for.
    pub recorded: Vec<Text>,
    /// Whether variables may stand in texts in quotes.
    pub is_template: bool,
}

/// An expression that is put together of pieces of a file.
#[derive(Drop)]
pub(crate) struct Writer {
    bytes: Vec<u8>,
    pieces: Vec<Piece>,
    ghost in_order: { AreUpTo pieces.items (vec_len bytes) },
}

impl Writer {
    pub(crate) fn new(alloc: Global) -> Writer {
        Writer {
            bytes: Vec::new(alloc),
            pieces: Vec::new(alloc),
        }
    }

    /// Puts bytes last that stand in the file from this place on.
    pub(crate) fn put(&mut self, bytes: &[u8], at: usize) -> Result<(), AllocError> {
        let start = self.bytes.len();
        self.pieces.push(Piece { start, at })?;
        self.bytes.extend_from_slice(bytes)
    }

    /// Puts a character last that is written at this place otherwise.
    pub(crate) fn put_character(&mut self, character: char, at: usize) -> Result<(), AllocError> {
        let mut room = [0; 4];
        self.put(character.encode_utf8(&mut room).as_bytes(), at)
    }

    /// The expression; nothing where it is not UTF-8.
    pub(crate) fn finish(self) -> Option<Expression> {
        let Writer { bytes, pieces } = self;
        match String::from_utf8(bytes) {
            Ok(string) => Some(Expression {
                text: Text::from_string(string),
                pieces,
            }),
            Err(_) => None,
        }
    }

    /// Puts the expression last, unless it is empty or not UTF-8.
    pub(crate) fn put_into(self, list: &mut Vec<Expression>) -> Result<(), AllocError> {
        if let Some(expression) = self.finish() {
            if !expression.text.as_str().is_empty() {
                list.push(expression)?;
            }
        }
        Ok(())
    }
}
