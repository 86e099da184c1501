//! The commands of `wormweekly`, over any folder of files and any sinks.
//!
//! [`run_request`] is the whole program but for its devices. Each command first reads its files, and then makes its
//! answer or stops with the first fault, before it writes anything; only a replay writes while it runs, as
//! `metric_kit_commands` does. Its parts are read, made and checked by the calls of the commands of `metric_kit`, and
//! the contracts cite the definitions of these.
#![tactic(auto)]

mod accepting;
mod answer;
mod binding;
mod broken;
mod change_cells;
mod change_sheet;
mod comparing;
mod concerns;
mod delivering;
mod drawing;
mod ending;
mod expanding;
mod exposures;
mod fault;
mod fleet;
mod folder;
mod judged;
mod listing;
mod marks;
mod message;
mod note_sheet;
mod notes;
mod noting;
mod page_readers;
mod page_words;
mod paging;
mod parts;
mod program;
mod queries;
mod query_message;
mod refused;
mod replaying;
mod report;
mod report_page;
mod rooms;
mod rows;
mod series;
mod shares;
mod shown_path;
mod telling;
mod telling_old;
mod time;

pub use fault::{ConsoleFault, PageFault};
pub use folder::{Folder, Unread, Unwritten};
pub use program::run_request;
