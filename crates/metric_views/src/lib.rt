//! The config: metric readers and views, which instruments a view selects, and the stream that it makes.
#![tactic(auto)]

mod by_kind;
mod choices;
mod config;
mod fault;
mod filling;
mod known;
mod optional;
mod readers;
mod reading;
mod selection;
mod stream;
mod template;
mod texts;
mod views;

pub use choices::{Aggregation, ByKind, Temporality};
pub use config::{Config, Criteria, Reader, Settings, Setup, View};
pub use fault::{ConfigField, ConfigPlace, ConfigSpot, ViewDefect, ViewFault};
pub use filling::fill;
pub use known::{field_names, kind_names};
pub use selection::{is_of_kind, is_text};
pub use stream::{Fill, Stream, StreamAggregation};
pub use template::Template;
