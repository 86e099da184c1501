//! The seats of a plan's recorders and readers, without a lock: what each was told, what it may do, and how it hands on
//! what it does to what holds an instrument. Who keeps the instruments, behind locks or not, gives the seats out.
#![tactic(auto)]

mod admission;
mod fault;
mod held;
mod keys;
mod notes;
mod reader;
mod recorder;
mod run_id;
mod settling;
mod tally;
mod tells;
mod total;

pub use fault::{FinishFault, SetsFault};
pub use held::{Collected, Held};
pub use keys::Measurement;
pub use reader::ReaderSeat;
pub use recorder::RecorderSeat;
pub use run_id::RunId;
pub use settling::{are_distinct, has_each, has_seat, total_of_all, total_of_some};
pub use tally::Tally;
pub use tells::Tells;
pub use total::Total;
