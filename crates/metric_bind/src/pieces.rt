//! A template, cut into pieces.
use std::alloc::{AllocError, Global};

/// A piece of a template. Between `$` and `$` stands the name of a text; `#` and a list, `?` or `!` and a text, which
/// begin what is written for each thing of the list, or where there is such a text, or none; or `/`, where that ends. A
/// line break right behind one of the last four is not written.
#[derive(Clone, Copy, Drop)]
pub(crate) enum Piece {
    /// A text that is written as it is.
    Text(&'static str),
    /// The text of this name.
    Field(&'static str),
    /// What follows is written for each thing of this list.
    Each(&'static str),
    /// What follows is written where there is a text of this name.
    When(&'static str),
    /// What follows is written where there is none.
    Unless(&'static str),
    /// The end of what the last open one of these three began.
    End,
}

/// The pieces of templates, one behind the other. Fails only when out of memory.
pub(crate) fn pieces_of(
    alloc: Global,
    templates: &[&'static str],
) -> Result<Vec<Piece>, AllocError> {
    let mut pieces = Vec::new(alloc);
    for template in templates {
        add_pieces(&mut pieces, *template)?;
    }
    Ok(pieces)
}

fn add_pieces(pieces: &mut Vec<Piece>, template: &'static str) -> Result<(), AllocError> {
    let mut is_text = true;
    let mut is_behind = false;
    for part in template.split('$') {
        let piece = if is_text {
            text_piece(part, is_behind)
        } else {
            tag_piece(part)
        };
        is_behind = !matches!(piece, Piece::Text(_) | Piece::Field(_));
        is_text = !is_text;
        pieces.push(piece)?;
    }
    Ok(())
}

fn text_piece(part: &'static str, is_behind: bool) -> Piece {
    match part.strip_prefix('\n') {
        Some(rest) if is_behind => Piece::Text(rest),
        _ => Piece::Text(part),
    }
}

fn tag_piece(part: &'static str) -> Piece {
    if part == "/" {
        Piece::End
    } else if let Some(list) = part.strip_prefix('#') {
        Piece::Each(list)
    } else if let Some(name) = part.strip_prefix('?') {
        Piece::When(name)
    } else if let Some(name) = part.strip_prefix('!') {
        Piece::Unless(name)
    } else {
        Piece::Field(part)
    }
}

/// The place behind the end of what a piece at a place begins.
pub(crate) fn behind(pieces: &[Piece], begin: usize) -> usize {
    let mut depth = 0usize;
    let mut at = begin;
    for piece in pieces.get(begin..).unwrap_or(&[]) {
        at = at.saturating_add(1);
        match piece {
            Piece::Text(_) | Piece::Field(_) => {}
            Piece::Each(_) | Piece::When(_) | Piece::Unless(_) => depth = depth.saturating_add(1),
            Piece::End => depth = depth.saturating_sub(1),
        }
        if depth == 0 {
            return at;
        }
    }
    pieces.len()
}
