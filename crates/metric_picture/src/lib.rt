//! The picture of a catalogue and a config: its instruments, views and streams, and which gives which, as an SVG.
//!
//! A few instruments have a box each; of many, those of a meter and a kind share one, and so do the streams of a reader
//! and a view, with their number. Streams that collide are red. Links of default streams pass below the views. A
//! picture of a change also marks the streams that are new or differ, and has those that go.
#![tactic(auto)]

mod change;
mod clashes;
mod diagram;
mod drawing;
mod exported;
mod instruments;
mod lanes;
mod layout;
mod letters;
mod links;
mod slots;
mod svg;
mod views;

pub use change::{Gone, Mark, StreamChanges};
pub use drawing::{draw, draw_change};
