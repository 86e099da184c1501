//! What a table is of.
use crate::cell::Cell;
use std::alloc::{AllocError, Global};

/// Rows of cells under titles. A row is made when it is written, so that memory holds one at a time.
pub trait Sheet {
    /// The titles of the columns, which are the names of fields in lines of JSON.
    fn titles(&self) -> &'static [&'static str];

    /// How many rows there are.
    fn rows(&self) -> usize;

    /// The cells of the row of a number, in the order of the titles. Fails only when out of memory.
    fn row(&self, alloc: Global, number: usize) -> Result<Vec<Cell>, AllocError>;
}
