//! Whether a reader's streams can stand in a page of Prometheus, and in requests of OTLP: what a server would lose
//! without a word is known before anything is recorded.
#![tactic(auto)]

mod collisions;
mod exposures;
mod fault;
mod keys;
mod laws;
mod outlet;
mod renames;
mod sharing;
mod sources;
mod streams;

pub use exposures::{expose, expose_to_otlp, exposure_faults};
pub use fault::ExposureFault;
pub use laws::{
    buckets_rise_to_the_count, families_are_apart, gathered_points_are_apart,
    names_and_labels_are_sound, points_are_apart, points_stay_apart, series_are_apart,
};
pub use outlet::Outlet;
