//! What a config is warned of.

/// What looks like a mistake in a config, which is used all the same.
#[derive(Clone, Copy, Debug, PartialEq, Eq, Drop)]
pub enum Warning {
    /// The view selects the instrument and itself names an aggregation that does not fit it.
    Unfit {
        /// The number of the view.
        view: u32,
        /// The number of the instrument.
        instrument: u32,
    },
    /// Two streams have one identity (Metrics data model, identity), of which `a` is the first.
    Collision {
        /// The number of the first stream of the identity.
        a: u32,
        /// The number of the later stream.
        b: u32,
    },
}
