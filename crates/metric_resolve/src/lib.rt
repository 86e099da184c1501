//! Which streams the readers and views of a config give for a catalogue, and what is to be warned of.
#![tactic(auto)]

mod collisions;
mod identity;
mod laws;
mod offers;
mod resolved;
mod selection;
mod stream_key;
mod stream_list;
mod unfit;
mod warning;

pub use identity::identity_order;
pub use laws::{
    collisions_are_of_one_identity, streams_are_what_views_give, unfit_views_sum_gauges,
};
pub use resolved::{StreamList, Streams, resolve, resolve_streams};
pub use selection::Selection;
pub use stream_list::streams_by;
pub use warning::Warning;
