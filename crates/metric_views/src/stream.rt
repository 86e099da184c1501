//! The stream that a reader exports of an instrument.
use crate::choices::Temporality;
use crate::texts::{Texts, copied_texts};
use metric_base::{Boundaries, Copied, Few, Shared, Text};
use metric_contents::Kind;
use metric_names::{Name, Unit};
use std::alloc::{AllocError, Global};

/// How the points of a stream are made of its recordings (Metrics SDK, aggregation).
#[derive(Drop)]
pub enum StreamAggregation {
    /// The sum.
    Sum,
    /// The last value.
    LastValue,
    /// How many values fall between these boundaries.
    Histogram(Shared<Boundaries>),
}

/// A stream: what one reader exports of one instrument, as one view or the default configures it
/// (Metrics SDK, stream configuration). What streams have in common is shared, so that a copy takes no room.
pub struct Stream {
    /// The number of the reader.
    pub reader: u32,
    /// The number of the instrument.
    pub instrument: u32,
    /// The number of the view, or none for the default stream.
    pub view: Option<u32>,
    /// The name.
    pub name: Shared<Name>,
    /// The description.
    pub description: Shared<Text>,
    /// The unit.
    pub unit: Shared<Unit>,
    /// The kind of the instrument.
    pub kind: Kind,
    /// How points are made.
    pub aggregation: StreamAggregation,
    /// Whether each declared key is kept, in declared order.
    pub kept: Shared<Few<bool, 8>>,
    /// How many series it holds beside the overflow point.
    pub limit: u32,
    /// What a collection reports.
    pub temporality: Temporality,
}

impl Drop for Stream {
    // A call of its own, so that what owns a stream does not carry the steps of dropping each part.
    fn drop(self) {
        let Stream {
            reader: _,
            instrument: _,
            view: _,
            name: _name,
            description: _description,
            unit: _unit,
            kind: _,
            aggregation: _,
            kept: _kept,
            limit: _,
            temporality: _,
        } = self;
    }
}

/// What a view, or the default, makes of an instrument for a reader.
#[derive(Drop)]
pub enum Fill {
    /// The aggregation does not fit the instrument's kind.
    Unfit,
    /// The aggregation drops the recordings.
    Dropped,
    /// This stream.
    Kept(Stream),
}

impl Copied for StreamAggregation {
    fn copy(&self, alloc: Global) -> Result<StreamAggregation, AllocError> {
        match self {
            StreamAggregation::Sum => Ok(StreamAggregation::Sum),
            StreamAggregation::LastValue => Ok(StreamAggregation::LastValue),
            StreamAggregation::Histogram(boundaries) => {
                let boundaries = boundaries.copy(alloc)?;
                Ok(StreamAggregation::Histogram(boundaries))
            }
        }
    }
}

impl Copied for Stream {
    fn copy(&self, alloc: Global) -> Result<Stream, AllocError> {
        let Texts {
            name,
            description,
            unit,
        } = copied_texts(alloc, &self.name, &self.description, &self.unit)?;
        let aggregation = self.aggregation.copy(alloc)?;
        let kept = self.kept.copy(alloc)?;
        Ok(Stream {
            reader: self.reader,
            instrument: self.instrument,
            view: self.view,
            name,
            description,
            unit,
            kind: self.kind,
            aggregation,
            kept,
            limit: self.limit,
            temporality: self.temporality,
        })
    }
}
