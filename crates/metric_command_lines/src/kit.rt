//! The command lines of `metric_kit`.

mod laws;
mod line;
mod reading;

pub use laws::{lines_are_taken, others_are_refused};
pub use line::{Line, LineFault};
pub use reading::command_of;
