//! The series of a stream, each with its running value.
//!
//! A table stands for every list of recordings from which its numbers come. What it reports is what
//! `metric_history` defines of such a list: the first distinct series up to the cardinality limit, and one
//! overflow point for all other recordings. Code that serves each kind of table alike is generic over [`Table`],
//! whose contract says all of this.
#![tactic(auto)]

mod either;
mod fault;
mod hashed;
mod kept;
mod key;
mod place;
mod seeded;
mod series_table;
mod table;

pub use either::Either;
pub use fault::SeriesFault;
pub use hashed::TableOf;
pub use place::Place;
pub use series_table::{ByAggregation, SeriesTable};
pub use table::Table;
