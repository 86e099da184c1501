//! Which streams a warning is about.
use metric_resolve::Warning;
use metric_sheet::Cell;
use std::alloc::{AllocError, Global};

/// Which streams share their identity, and which instruments a view selects and does not fit.
#[derive(Drop)]
pub(crate) struct Marks {
    // Of each stream, another one of its identity: of a later one the first, and of the first the next one.
    clashes: Vec<Option<u32>>,
    // Of each instrument, the first view that selects it and does not fit it.
    unfit: Vec<Option<u32>>,
}

/// The marks that warnings give so many streams and instruments.
pub(crate) fn marks_of(
    alloc: Global,
    streams: usize,
    instruments: usize,
    warnings: &[Warning],
) -> Result<Marks, AllocError> {
    let mut clashes = unmarked(alloc, streams)?;
    let mut unfit = unmarked(alloc, instruments)?;
    for warning in warnings {
        match *warning {
            Warning::Unfit { view, instrument } => mark(&mut unfit, instrument, view),
            Warning::Collision { a, b } => {
                mark(&mut clashes, a, b);
                mark(&mut clashes, b, a);
            }
        }
    }
    Ok(Marks { clashes, unfit })
}

fn unmarked(alloc: Global, count: usize) -> Result<Vec<Option<u32>>, AllocError> {
    let mut marks = Vec::with_capacity(alloc, count)?;
    for _ in 0..count {
        marks.push(None)?;
    }
    Ok(marks)
}

// Marks what has a number, where it has no mark yet.
fn mark(marks: &mut [Option<u32>], number: u32, with: u32) {
    if let Some(place) = marks.get_mut(number as usize)
        && place.is_none()
    {
        *place = Some(with);
    }
}

impl Marks {
    /// Another stream of the identity of the stream of a number, where there is one.
    pub(crate) fn clash_of(&self, stream: usize) -> Option<u32> {
        self.clashes.get(stream).copied().flatten()
    }

    /// The first view that selects the instrument of a number and does not fit it.
    pub(crate) fn unfit_of(&self, instrument: u32) -> Option<u32> {
        self.unfit.get(instrument as usize).copied().flatten()
    }
}

/// The cell of a mark.
pub(crate) fn mark_cell(mark: Option<u32>) -> Cell {
    match mark {
        Some(number) => Cell::Number(u128::from(number)),
        None => Cell::Nothing,
    }
}
