//! One instrument of a certified plan as a host holds it that keeps the locks itself, for the seats of its recorders
//! and readers.
//!
//! A host that is not written in Rattle, as a service in C or Rust, keeps a mutex for each instrument and makes each
//! call under it. The calls are the steps of a slot: what is found is compared with what the seat was told, so what
//! seats were told and what the instruments have counted can't part unseen, whatever the host does. A seat belongs to
//! one thread and needs no lock.
#![tactic(auto)]

mod budget;
mod instrument;
mod planned;
mod recordings;
mod settling;

pub use budget::{Budget, Spare};
pub use instrument::Hosted;
pub use metric_seat::{
    FinishFault, Measurement, ReaderSeat, RecorderSeat, RunId, SetsFault, Total,
};
pub use planned::{Batches, HostedReader, HostedRecorder};
pub use settling::SeatTold;
