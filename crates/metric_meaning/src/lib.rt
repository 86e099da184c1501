//! What a program was made for: whether an instrument of a catalogue means what the program takes it for, and in what it
//! differs first. A program that was made of a catalogue is made for each instrument of it.
#![tactic(auto)]

mod comparing;
mod difference;
mod expected;
pub mod laws;

pub use comparing::{first_difference, meter_name};
pub use difference::Difference;
pub use expected::{Expected, attributes_of, expected_of};
