//! What a run is: events and their replies, and which replies a list of events may get.
//!
//! The definitions stand in `specs/`: filters and sums over the whole history, with no running table. `Book` says what
//! each book of an instrument's accepted recordings does, for every journal for which it stands.
#![tactic(auto)]

mod batch;
mod book;
mod entry;
mod event;
pub mod laws;
mod slip;

pub use batch::{Batch, Point, StreamPoints};
pub use book::{Book, Window};
pub use entry::Entry;
pub use event::{Event, Reply};
pub use slip::Slip;
