//! How many series a stream can have, how often an instrument may be recorded, and between which numbers
//! the sums of its values stay.
//!
//! `specs/Safe.antt` says when a catalogue and a config can overflow neither a limit nor a number.
#![tactic(auto)]

mod amounts;
pub mod laws;
mod products;
mod sums;

pub use amounts::{amount, high, is_i64, low, total, totals};
pub use products::{listed, product};
pub use sums::summed;
