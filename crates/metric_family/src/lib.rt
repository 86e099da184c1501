//! What Prometheus calls the streams of a config: the metric family of a stream with its type and its unit, the label
//! of a key and the text of a value, and the names that a stream claims.
//!
//! The names follow those that Prometheus and the OpenTelemetry Collector make: words of ASCII letters and digits with
//! `_` between, the words of the unit behind those of the name.
#![tactic(auto)]

mod ascii;
mod family;
mod label;
mod laws;
mod metric_type;
mod unit;
mod words;

pub use family::{family_of, unit_text_of};
pub use label::{is_bad_label, label_of, push_label, push_value, text_of};
pub use laws::{families_are_names, labels_are_labels, units_are_parts_of_families};
pub use metric_type::MetricType;
