//! From texts to plans: a catalogue, a config and a certificate are read, a certificate is made or checked, and the
//! first fault is told. Services and commands both stand on it.
#![tactic(auto)]

mod fault;
mod making;
mod planning;
mod reading;
mod setup;
mod vouching;

pub use fault::SetupFault;
pub use making::certificate_for;
pub use planning::{plan_by, trial_of};
pub use reading::{catalogue_of, certificate_of, config_of};
pub use setup::certified_plan;
pub use vouching::vouched_plan;
