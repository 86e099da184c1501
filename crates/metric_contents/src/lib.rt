//! What may be recorded: meters, instruments with the values of their keys, and recorders with their budgets;
//! and the set key of a recording's attributes, or its refusal.
//!
//! Nothing here knows of files: metric_catalogue reads them.
#![tactic(auto)]

mod attributes;
mod budgets;
mod contents;
mod encode;
mod kinds;
mod most;
mod numbering;
mod packed;
mod refusal;
mod repeats;
mod shortcuts;
mod values;

pub use attributes::{Attr, Attribute, OwnedAttr};
pub use contents::{Budget, Contents, Instrument, Key, Kind, Meter, Recorder};
pub use encode::{SetKey, encode_ignores_order, encode_of, encode_with_room};
pub use most::{above, below, most_within, safe_total};
pub use refusal::Refusal;
pub use values::Values;
