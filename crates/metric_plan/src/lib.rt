//! Plans: a catalogue with a config, their streams, and the facts on which the run of each instrument
//! depends.
#![tactic(auto)]

mod config_fingerprint;
mod counting;
mod fault;
mod fingerprint;
mod mixing;
mod plan;

pub use fault::CheckFault;
pub use plan::Plan;
