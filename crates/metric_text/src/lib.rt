//! The spelling of texts, numbers and attribute values: written and read back. Each value has
//! exactly one spelling.
#![tactic(auto)]

mod fault;
mod labels;
mod laws;
mod line;
mod numbers;
mod quotes;
mod scanning;
mod spelled;
mod values;
mod writing;

pub use fault::SpellingFault;
pub use labels::{push_labelled, push_numbered};
pub use laws::{each_number_has_one_spelling, each_value_has_one_spelling};
pub use line::lines;
pub use numbers::{i64_at, i64_of, u32_at, u32_of, u64_of};
pub use quotes::{push_quoted, quoted_at};
pub use scanning::{after_byte, after_keyword, word_at};
pub use spelled::{Spelled, push_joined, push_list};
pub use values::{Pair, push_pair, push_value, value_at};
pub use writing::{push_byte, push_number, push_signed, push_text};
