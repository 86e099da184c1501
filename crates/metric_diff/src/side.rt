//! What is compared.
use metric_catalogue::Catalogue;
use metric_lint::Headroom;
use metric_views::{Config, Stream};

/// A catalogue and a config, with what they give.
#[derive(Clone, Copy)]
pub struct Side<'s> {
    /// The catalogue.
    pub catalogue: &'s Catalogue,
    /// The config.
    pub config: &'s Config,
    /// The streams that they give.
    pub streams: &'s [Stream],
    /// How many series each of them may have.
    pub series: &'s [u128],
    /// How often each instrument may be recorded.
    pub rooms: &'s [Headroom],
}
