//! The program's input: a text of up to four parts, each under a header line.
#![tactic(auto)]

mod fault;
mod joining;
mod laws;
mod needs;
mod parts;
mod pieces;
mod reading;
mod script;

pub use fault::InputFault;
pub use laws::one_reading;
pub use needs::Needs;
pub use parts::Parts;
pub use reading::parts_of;
pub use script::Script;
