//! A book of running tables: one table for each stream, and one mark for each reader.
//!
//! It keeps no list of the recordings, so it stands for every journal from which its numbers come. What it
//! reports is what `metric_history` defines of such a journal.
#![tactic(auto)]

mod marked;
mod stream_series;
mod stream_table;
mod tables;

pub use marked::Marked;
