//! What a change of a catalogue or a config does: readers, streams and instruments that come, go or differ, keys that go,
//! and budgets that differ; and which of that breaks what is built on the streams.
//!
//! `specs/Known.antt` says what a stream is known by in both, and `specs/Changes.antt` what the changes are.
#![tactic(auto)]

mod asked;
mod attributes;
mod budgets;
mod change;
mod combinations;
mod compared;
mod declared;
mod each;
mod instruments;
mod keys;
mod kinds;
mod named;
mod names;
mod numbers;
mod parts;
mod places;
mod programs;
mod readers;
mod side;
mod streams;

pub use change::{Change, InstrumentPart, StreamPart};
pub use compared::changes;
pub use kinds::is_change;
pub use programs::{Programs, programs_of};
pub use side::Side;
