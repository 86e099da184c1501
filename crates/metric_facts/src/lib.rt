//! Facts: what the run of an instrument depends on, of the catalogue, the config and the streams that they give.
//!
//! They are made once, for all instruments, with their bytes beside them, and compared as one list.
#![tactic(auto)]

mod entry_ranges;
mod facts;
mod flat;
mod full_sets;
mod instruments;
pub mod laws;

pub use entry_ranges::fill_least;
pub use facts::{Facts, FactsFields, KeyFacts, NumberedStream, is_by_product, same_facts};
pub use full_sets::is_allowed_set;
pub use instruments::all_facts;
