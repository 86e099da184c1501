//! The series of a stream in a list with a place for each series that there can be.
//!
//! A stream sees of a recording the values of its kept keys. Where no more series can come of them than its cardinality
//! limit, each possible series has a place of its own: its rank, of which the places of the
//! values are the digits, the first key's the most significant. So no series is searched for and none overflows, and
//! all memory is taken when the table is made.
#![tactic(auto)]

mod dense_of;
pub mod laws;
mod ranks;
mod table;
mod weights;

pub use dense_of::DenseOf;
pub use table::{DenseTable, dense_table};
