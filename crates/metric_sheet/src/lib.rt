//! Tables of rows, written for people in columns that fit a terminal or as HTML, or for machines as lines of JSON.
#![tactic(auto)]

mod cell;
mod columns;
mod fault;
mod html;
mod json;
mod row;
mod sheet;
mod table;

pub use cell::Cell;
pub use fault::SheetFault;
pub use html::{push_html_table, push_html_text};
pub use json::{push_json_text, write_json};
pub use row::Row;
pub use sheet::Sheet;
pub use table::write_table;
