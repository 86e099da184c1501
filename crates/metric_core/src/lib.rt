//! Events against the instruments of a plan: recordings, collections, closes and grants, one after
//! the other.
#![tactic(auto)]

mod budgets;
mod cell;
mod room;
mod run;
mod steps;

pub use cell::Cell;
pub use metric_history::{Batch, Entry, Event, Point, Reply, StreamPoints};
pub use run::Core;
