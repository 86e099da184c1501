//! Batches as Prometheus and what takes its formats reads them: in the text format 0.0.4, and in OpenMetrics 1.0.
//!
//! What is written is a function of batches: a page is the lines of a resource, those of batches, and the end. Streams
//! of several meters may be one metric family, whose lines stand together: so a batch is made into sections first, one
//! for each stream.
#![tactic(auto)]

mod boundary;
mod dialect;
mod escape;
mod exposition;
mod gathered;
mod header;
mod histogram;
mod label;
mod laws;
mod page;
mod piece;
mod sample;
mod seconds;
mod section;
mod sections;
mod target;

pub use boundary::push_boundary;
pub use dialect::Dialect;
pub use exposition::{boundaries_of, push_exposition};
pub use gathered::push_gathered;
pub use histogram::sum_told;
pub use laws::target_labels_are_sound;
pub use page::{push_end, push_target};
pub use section::Section;
pub use sections::batch_sections;
pub use target::{TargetFault, check_target};
