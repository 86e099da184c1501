//! What rounds did, in numbers.
use crate::asserted::{OrFail, Stop};

/// The place of the rounds among the figures.
pub(crate) const ROUNDS: usize = 0;

/// Of the accepted recordings, and of those that were refused: of the closed instrument, and beyond a budget.
pub(crate) const ACCEPTED: usize = 1;

pub(crate) const CLOSED: usize = 2;

pub(crate) const BEYOND: usize = 3;

/// Of the grants.
pub(crate) const GRANTS: usize = 4;

/// Of the collections of all instruments, and their points.
pub(crate) const COLLECTIONS: usize = 5;

pub(crate) const POINTS: usize = 6;

/// Of the batches that were audited, and the recordings that they were audited with.
pub(crate) const BATCHES: usize = 7;

pub(crate) const ENTRIES: usize = 8;

// What stands behind each figure.
const NAMES: [&str; 9] = [
    " rounds, ",
    " recordings accepted, ",
    " refused as closed, ",
    " beyond a budget, ",
    " grants, ",
    " collections of all instruments, ",
    " points, ",
    " batches of ",
    " recordings audited, nothing is off",
];

/// What the rounds over a book, or a thread of one, did.
#[derive(Clone, Copy)]
pub(crate) struct Figures {
    counts: [u64; 9],
}

impl Figures {
    /// Before the first round.
    pub(crate) fn new() -> Figures {
        Figures { counts: [0; 9] }
    }

    /// Adds to the figure of a place.
    pub(crate) fn add(&mut self, place: usize, more: u64) {
        if let Some(count) = self.counts.get_mut(place) {
            *count = count.wrapping_add(more);
        }
    }

    /// Adds the figures of a thread.
    pub(crate) fn add_all(&mut self, more: &Figures) {
        for (count, own) in self.counts.iter_mut().zip(&more.counts) {
            *count = count.wrapping_add(*own);
        }
    }

    /// The number of rounds.
    pub(crate) fn rounds(&self) -> u64 {
        self.counts[ROUNDS]
    }
}

/// Prints what a book did: each figure, and what stands behind it.
pub(crate) fn print_figures<R: Print + Stop>(rt: &R, book: &str, figures: &Figures) {
    print!(rt; "{book}: ").or_fail(rt);
    for (count, name) in figures.counts.iter().zip(&NAMES) {
        print!(rt; "{}{}", *count, *name).or_fail(rt);
    }
    println!(rt; "").or_fail(rt);
}
