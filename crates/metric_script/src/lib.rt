//! The script of an input: when it starts, and its events, each read from its one spelling.
#![tactic(auto)]

mod events;
mod laws;
mod line;
mod reading;
mod stop;

pub use events::{EventLines, ScriptEvents};
pub use laws::one_script;
pub use reading::events_of;
