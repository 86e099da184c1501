//! Templates, filled with what a catalogue declares.
use crate::pieces::{Piece, behind, pieces_of};
use crate::tree::{Row, child_from, is_first, link_of, text_of};
use std::alloc::{AllocError, Global};

// What a piece began and did not end yet: its place, and the thing before it.
#[derive(Clone, Copy, Drop)]
struct Open {
    begin: usize,
    outer: usize,
}

// How far the writing has come: the next piece, the thing whose texts it has, and what is open.
#[derive(Drop)]
struct Run {
    at: usize,
    row: usize,
    open: Vec<Open>,
}

/// The text that templates give of a thing. Fails only when out of memory.
pub(crate) fn filled(
    alloc: Global,
    templates: &[&'static str],
    rows: &[Row],
    row: usize,
) -> Result<String, AllocError> {
    let pieces = pieces_of(alloc, templates)?;
    let mut out = String::new(alloc);
    let mut run = Run {
        at: 0,
        row,
        open: Vec::new(alloc),
    };
    for _ in 0..u64::MAX {
        let Some(piece) = pieces.as_slice().get(run.at) else {
            break;
        };
        step(&mut out, *piece, &mut run, pieces.as_slice(), rows)?;
    }
    Ok(out)
}

// Writes a piece, and goes on to the next.
fn step(
    out: &mut String,
    piece: Piece,
    run: &mut Run,
    pieces: &[Piece],
    rows: &[Row],
) -> Result<(), AllocError> {
    match piece {
        Piece::Text(text) => {
            run.at = run.at.saturating_add(1);
            out.push_str(text)
        }
        Piece::Field(name) => {
            run.at = run.at.saturating_add(1);
            out.push_str(text_of(rows, run.row, name))
        }
        Piece::Each(list) => {
            let first = first_of(rows, run.row, list);
            enter(run, pieces, first)
        }
        Piece::When(name) => enter_if(run, pieces, holds(rows, run.row, name)),
        Piece::Unless(name) => enter_if(run, pieces, !holds(rows, run.row, name)),
        Piece::End => leave(run, pieces, rows),
    }
}

// Whether there is a text of this name, or, of the name `first`, whether the thing is the first of its list.
fn holds(rows: &[Row], row: usize, name: &str) -> bool {
    if name == "first" {
        is_first(rows, row)
    } else {
        !text_of(rows, row, name).is_empty()
    }
}

// The first thing of a list; that of the list `link` is the one that the thing leads to.
fn first_of(rows: &[Row], row: usize, list: &str) -> Option<usize> {
    if list == "link" {
        link_of(rows, row)
    } else {
        child_from(rows, row, list, row.saturating_add(1))
    }
}

fn enter_if(run: &mut Run, pieces: &[Piece], holds: bool) -> Result<(), AllocError> {
    let row = run.row;
    enter(run, pieces, holds.then_some(row))
}

// Begins what is written of a thing, or passes it over.
fn enter(run: &mut Run, pieces: &[Piece], row: Option<usize>) -> Result<(), AllocError> {
    match row {
        Some(row) => {
            run.open.push(Open {
                begin: run.at,
                outer: run.row,
            })?;
            run.row = row;
            run.at = run.at.saturating_add(1);
        }
        None => run.at = behind(pieces, run.at),
    }
    Ok(())
}

// Ends what is written of a thing: the next one of the list follows, or what stands behind.
fn leave(run: &mut Run, pieces: &[Piece], rows: &[Row]) -> Result<(), AllocError> {
    run.at = run.at.saturating_add(1);
    let Some(open) = run.open.pop() else {
        return Ok(());
    };
    let next = match pieces.get(open.begin) {
        Some(Piece::Each(list)) if *list != "link" => {
            child_from(rows, open.outer, list, run.row.saturating_add(1))
        }
        _ => None,
    };
    match next {
        Some(next) => {
            run.open.push(open)?;
            run.row = next;
            run.at = open.begin.saturating_add(1);
        }
        None => run.row = open.outer,
    }
    Ok(())
}
