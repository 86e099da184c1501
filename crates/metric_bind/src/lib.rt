//! A service's metrics as code of its language: instruments, keys and values have names, so that what is not declared
//! does not compile.
//!
//! [`code_in`] makes a file of what a catalogue declares, for [`RUST`], [`GO`], [`PYTHON`], [`C`] or [`RATTLE`]. What a
//! file says is data: a language is a few templates, and one engine fills them. No two names of a file are the same.
#![tactic(auto)]

mod apart;
mod bound;
mod c;
mod drafting;
mod engine;
mod fault;
mod go;
mod instruments;
mod key_types;
mod language;
mod naming;
mod pieces;
mod python;
mod quoting;
mod rattle;
mod readers;
mod rust;
mod seats;
mod tree;
mod values;

pub use bound::{Bound, Source, code_in};
pub use c::C;
pub use fault::BindFault;
pub use go::GO;
pub use language::Language;
pub use python::PYTHON;
pub use rattle::RATTLE;
pub use rust::RUST;
