//! The command lines of `wormweekly`.

mod arguments;
mod attributes;
mod bind_command;
mod commands;
mod diff_command;
mod expand_command;
mod fault;
mod queries_command;
mod reading;
mod report_command;
mod request;
mod standard;

pub use attributes::{has_equals, key_and_value};
pub use commands::VERSION;
pub use fault::{Misuse, RequestFault};
pub use reading::request_of;
pub use request::{Concerns, Files, Form, Options, Request, Task};
pub use standard::is_standard;
