//! The command lines of `metric_kit` and of `wormweekly`, read by clap: what their words ask for.
//!
//! [`command_of`] reads those of `metric_kit`, which tells nothing of clap. [`request_of`] reads those of `wormweekly`,
//! which has files, options, help and a version.
#![tactic(auto)]

mod kit;
mod language;
mod numbers;
mod programs;
mod wormweekly;

pub use kit::{Line, LineFault, command_of, lines_are_taken, others_are_refused};
pub use language::Language;
pub use wormweekly::{
    Concerns, Files, Form, Misuse, Options, Request, RequestFault, Task, VERSION, has_equals,
    is_standard, key_and_value, request_of,
};
