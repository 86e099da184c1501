//! The catalogue of instruments: its TOML form and its limits. What it declares is of metric_contents.
#![tactic(auto)]

mod allowed;
mod catalogue;
mod fault;
mod full;
mod groups;
mod holding;
mod instruments;
mod keys;
mod known;
pub mod laws;
mod meters;
mod named;
mod recorders;
mod same;
mod seats;
mod shared_keys;
mod texts;
mod unsaid;
mod values;

pub use catalogue::{Catalogue, is_three};
pub use fault::{CatalogueDefect, CatalogueFault, CatalogueField, CataloguePlace, CatalogueSpot};
pub use known::{field_names, names_in};
pub use metric_contents::{
    Attr, Budget, Contents, Instrument, Key, Kind, Meter, OwnedAttr, Recorder, Refusal, SetKey,
    Values, encode_ignores_order,
};
