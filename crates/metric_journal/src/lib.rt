//! The plainest of the books: a list of the accepted recordings, from which every answer is read.
//!
//! What it reports is read off the list as `metric_history` defines it, with no running table.
#![tactic(auto)]

mod journal_book;
mod points;
mod series;
mod sums;

pub use journal_book::JournalBook;
