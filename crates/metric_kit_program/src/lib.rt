//! The program `metric_kit` but for its devices: its command `threads`, and command lines run.
//!
//! [`threads_run`] makes recordings and collections by threads, and writes what the instruments come to. [`run_line`]
//! runs the command of a command line, tells why it stops, and gives the exit status.
#![tactic(auto)]

mod options;
mod program;
mod seats;
mod stops;
mod threads;
mod totals;
mod workers;

pub use options::ThreadsOptions;
pub use program::run_line;
pub use seats::{SeatsRun, run_seats};
pub use threads::threads_run;
