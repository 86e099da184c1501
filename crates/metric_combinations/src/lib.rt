//! Which combinations of values an instrument allows.
//!
//! Real attributes do not combine freely: an endpoint has its methods, a region its zones. A list of rows says which
//! combinations there are, each by the entries of a set key. It is read row by row, in the order of its file; a row
//! that stands twice is found by its place among the rows in rising order. A trie then leads from any set key to the
//! only row that can be equal to it, in one step for each key: so a recording is judged without a search.
#![tactic(auto)]

mod combinations;
mod index;
pub mod laws;
mod layout;
mod restrictions;
mod rows;
mod trie;

pub use combinations::{Combinations, permits};
pub use restrictions::restrict;
pub use rows::CombinationRows;
