//! Recording and collecting from many threads: a provider holds each instrument of a certified plan behind a lock of
//! its own, and its seats, one for each recorder and reader, are what threads take with them.
//!
//! A seat keeps what its owner was told. A step under a lock compares it with what it finds there, so that what a seat
//! was told and what the instruments have counted can't part unseen.
#![tactic(auto)]

mod bounds;
mod collecting;
mod collector;
mod fault;
mod finish;
mod gate;
mod governing;
mod held;
mod journals;
mod lanes;
mod provider;
mod recorder;
mod rolling;
mod rooms;
mod row;
mod settling;
mod sharing;
mod starting;
mod timed;
mod together;
mod totals;
mod turning;

pub use bounds::{batches_are_bounded, windows_meet};
pub use collector::Collector;
pub use fault::{AllFault, RollFault};
pub use gate::{Gate, NoGate};
pub use lanes::OpenLanes;
pub use metric_history::Slip;
pub use metric_seat::{FinishFault, Measurement, SetsFault, Total};
pub use metric_slot::{Seen, Slot, Told};
pub use provider::Provider;
pub use recorder::Recorder;
pub use settling::settle;
pub use starting::{start, start_with_lanes};
pub use totals::{Finished, Partly, Rolled, Totals};
