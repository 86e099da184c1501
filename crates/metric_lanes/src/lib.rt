//! What the lanes of an instrument report together.
//!
//! An instrument may stand behind several locks, its lanes, each with the recordings of some of its recorders. What is
//! here knows no lock: it puts together what the lanes report to a reader, so that it is what one lane with all their
//! recordings would report.
#![tactic(auto)]

mod gathered;
mod joining;
pub mod laws;
mod together;

pub use gathered::{Asked, Gathered, all_join};
pub use together::put_together;
