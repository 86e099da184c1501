//! The lines that the program writes: of batches, and of the streams and warnings of a config.
//!
//! A line is a list of pieces, in the order in which they are written.
#![tactic(auto)]

mod batch;
mod description;
mod keys;
mod piece;
mod point;
mod stream;

pub use batch::push_batch;
pub use keys::attribute_of;
pub use stream::{push_shown, push_warning};
