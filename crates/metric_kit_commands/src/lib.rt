//! The commands over an input of parts: a script replayed, the streams of a config shown, a certificate made, and one
//! checked.
//!
//! Each reads one input from a source and writes one text to a sink, or stops with the first fault that the input has.
#![tactic(auto)]

mod accounts;
mod audits;
mod batches;
mod checks;
mod command;
mod fault;
mod forms;
mod laws;
mod makes;
mod options;
mod page_replays;
mod parts;
mod pieces;
mod planning;
mod prepared;
mod replays;
mod replies;
mod show;
mod slips;
mod tally;

pub use checks::{check_run, checked_plan};
pub use fault::KitFault;
pub use laws::one_output;
pub use makes::{certificate_text, make_run};
pub use options::ReplayOptions;
pub use page_replays::{PageEncoding, PageForm, replay_page};
pub use parts::{PartWriter, write_parts, write_text};
pub use planning::{Declared, certified_plan, declared_of};
pub use replays::{replay, replay_encoded, replay_parts};
pub use show::show_run;
pub use tally::{Tally, tally_replies};
