//! How wide the columns of a table are.
use crate::cell::Cell;
use crate::sheet::Sheet;
use std::alloc::{AllocError, Global};

// The least width to which a column is cut, and the most that one is ever given.
const LEAST: usize = 6;

const MOST: usize = 1_000;

// What stands between two columns.
const GAP: usize = 2;

/// How wide each column is: as its widest cell, or less where all together would be wider than `most`. With 0 there is
/// no such limit. A column has room for each of its numbers.
pub(crate) fn widths_of<S: Sheet>(
    alloc: Global,
    sheet: &S,
    most: usize,
) -> Result<Vec<usize>, AllocError> {
    let mut widths = Vec::new(alloc);
    for title in sheet.titles() {
        widths.push(Width::of(letters(title)))?;
    }
    for number in 0..sheet.rows() {
        let row = sheet.row(alloc, number)?;
        widen(alloc, widths.as_mut_slice(), &row)?;
    }
    let cap = if most > 0 {
        cap_of(&widths, most)
    } else {
        MOST
    };
    cut_to(alloc, &widths, cap)
}

// How wide a column is, and what its numbers need.
#[derive(Clone, Copy, Drop)]
struct Width {
    wanted: usize,
    numbers: usize,
}

impl Width {
    fn of(wanted: usize) -> Width {
        Width { wanted, numbers: 0 }
    }

    // Its width where a text is no wider than a number.
    fn cut(self, cap: usize) -> usize {
        self.wanted.min(cap.max(self.numbers))
    }
}

/// How many letters a text has.
pub(crate) fn letters(text: &str) -> usize {
    text.chars().count()
}

// Makes columns as wide as the cells of a row.
fn widen(alloc: Global, widths: &mut [Width], row: &[Cell]) -> Result<(), AllocError> {
    for (width, cell) in widths.iter_mut().zip(row) {
        let text = cell.shown(alloc)?;
        let wanted = letters(text.as_str()).min(MOST);
        width.wanted = width.wanted.max(wanted);
        if cell.is_number() {
            width.numbers = width.numbers.max(wanted);
        }
    }
    Ok(())
}

// The widest that a column may be, so that all columns are together not wider than `most`; the least width, where none
// does.
fn cap_of(widths: &[Width], most: usize) -> usize {
    for less in 0..MOST - LEAST {
        let cap = MOST - less;
        if total_of(widths, cap) <= most {
            return cap;
        }
    }
    LEAST
}

// How wide columns are together, of which none is wider than a number.
fn total_of(widths: &[Width], cap: usize) -> usize {
    let mut total = 0usize;
    for width in widths {
        total = total.saturating_add(width.cut(cap)).saturating_add(GAP);
    }
    total.saturating_sub(GAP)
}

fn cut_to(alloc: Global, widths: &[Width], cap: usize) -> Result<Vec<usize>, AllocError> {
    let mut cut = Vec::new(alloc);
    for width in widths {
        cut.push(width.cut(cap))?;
    }
    Ok(cut)
}
