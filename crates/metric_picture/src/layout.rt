//! Where boxes stand, in points.
use crate::diagram::{Diagram, Node, Tone};
use std::alloc::{AllocError, Global};

pub(crate) const WIDTH: usize = 320;

pub(crate) const LINE: usize = 16;

const LEFT: usize = 16;

const TOP: usize = 16;

const BETWEEN_COLUMNS: usize = 110;

const BETWEEN_BOXES: usize = 10;

const AROUND: usize = 12;

/// Where a box stands, or where a link passes: that place has no height.
#[derive(Clone, Copy)]
pub(crate) struct Place {
    pub x: usize,
    pub y: usize,
    pub height: usize,
}

/// Where all boxes stand, and how large the picture is.
#[derive(Drop)]
pub(crate) struct Layout {
    pub columns: Vec<Vec<Place>>,
    pub width: usize,
    pub height: usize,
}

/// Puts the boxes of each column one below the other, and the columns side by side, each in the middle of the highest.
pub(crate) fn layout_of(alloc: Global, diagram: &Diagram) -> Result<Layout, AllocError> {
    let height = highest(&diagram.columns);
    let mut columns = Vec::new(alloc);
    let mut x = LEFT;
    for column in diagram.columns.iter() {
        let above = height.saturating_sub(height_of(column)) / 2;
        columns.push(places_of(alloc, column, x, above)?)?;
        x = x.saturating_add(WIDTH + BETWEEN_COLUMNS);
    }
    Ok(Layout {
        columns,
        width: x.saturating_sub(BETWEEN_COLUMNS).saturating_add(LEFT),
        height: height.saturating_add(2 * TOP),
    })
}

fn highest(columns: &[Vec<Node>]) -> usize {
    let mut height = 0usize;
    for column in columns {
        height = height.max(height_of(column));
    }
    height
}

// How high a column is.
fn height_of(column: &[Node]) -> usize {
    let mut height = 0usize;
    for node in column {
        height = height
            .saturating_add(box_height(node))
            .saturating_add(BETWEEN_BOXES);
    }
    height.saturating_sub(BETWEEN_BOXES)
}

fn box_height(node: &Node) -> usize {
    let texts = node.lines.len().saturating_add(1).saturating_mul(LINE);
    match node.tone {
        Tone::Lane => 0,
        Tone::Title => texts,
        Tone::Plain
        | Tone::Changed
        | Tone::Dropped
        | Tone::Red
        | Tone::New
        | Tone::Differs
        | Tone::Gone => texts.saturating_add(AROUND),
    }
}

fn places_of(
    alloc: Global,
    column: &[Node],
    x: usize,
    above: usize,
) -> Result<Vec<Place>, AllocError> {
    let mut places = Vec::new(alloc);
    let mut y = above.saturating_add(TOP);
    for node in column {
        let height = box_height(node);
        places.push(Place { x, y, height })?;
        y = y.saturating_add(height).saturating_add(BETWEEN_BOXES);
    }
    Ok(places)
}
