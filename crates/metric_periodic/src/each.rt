//! What a collection of all instruments gave.
use metric_contents::Refusal;
use metric_history::Batch;

/// An instrument of which nothing could be collected.
#[derive(Clone, Copy, Debug, PartialEq, Eq, Drop)]
pub struct RefusedInstrument {
    /// Its number.
    pub instrument: u32,
    /// Why.
    pub refusal: Refusal,
}

/// What a collection of all instruments gave.
#[derive(Drop)]
pub struct Collection {
    /// The batches that have points, in the order of the instruments.
    pub batches: Vec<Batch>,
    /// The instruments that were refused, in order. The seat has seen nothing new of these: their next window begins
    /// where their last one ended.
    pub refused: Vec<RefusedInstrument>,
}
