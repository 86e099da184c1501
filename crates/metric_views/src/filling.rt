//! Which stream a view, or the default, makes of an instrument for a reader.
ghost use Rattle.std.specs.Prelude.{◌≡◌, ◌<◌, IfOk, Some, length};
ghost use Rattle.std.specs.Option.{ForSome};
ghost use Rattle.metric_views.specs.Streams.{aggregation_with, chosen_aggregation, default_aggregation, fill_at, fill_by, stream_by};

use crate::choices::{Aggregation, is_unfit};
use crate::config::{Config, Reader};
use crate::stream::{Fill, Stream, StreamAggregation};
use crate::template::Template;
use crate::texts::{Texts, copied_texts};
use metric_base::{Boundaries, Copied, Shared};
use metric_catalogue::Catalogue;
use metric_contents::Kind;
use std::alloc::{AllocError, Global};

/// What the view of this number, or the default without one, makes of an instrument for a reader (Metrics SDK, stream
/// configuration). Fails only when out of memory.
///
/// The numbers are those of a reader, a view and an instrument that are there.
pub fn fill(
    alloc: Global,
    catalogue: &Catalogue,
    config: &Config,
    reader: u32,
    instrument: u32,
    view: Option<u32>,
) -> Result<Fill, AllocError>
    requires reader { reader < length config.now.readers }
    requires instrument { instrument < length catalogue.now.instruments }
    requires view { ForSome view (λ v. v < length config.now.views) }
    ensures { IfOk result (λ f. fill_at catalogue.now config.now reader instrument view ≡ Some f) }
{
    let declared = &catalogue.instruments()[instrument as usize];
    let template = match view {
        Some(number) => {
            let view = &config.views()[number as usize];
            Template::of_view(alloc, instrument, declared, number, view)?
        }
        None => Template::of_default(alloc, instrument, declared)?,
    };
    template.fill(alloc, reader, &config.readers()[reader as usize])
}

impl Template {
    /// What the view, or the default, makes of the instrument for the reader of this number. Fails only when out of
    /// memory.
    #[tactic(auto, unfolding(crate::specs::Streams::fill_by))]
    pub fn fill(&self, alloc: Global, number: u32, reader: &Reader) -> Result<Fill, AllocError>
        ensures { IfOk result (λ f. f ≡ fill_by number reader.now self.now) }
    {
        let chosen = self.aggregation_for(reader);
        if is_unfit(self.kind, chosen) {
            return Ok(Fill::Unfit);
        }
        match aggregation_with(alloc, chosen, self.kind, &self.boundaries)? {
            Some(aggregation) => Ok(Fill::Kept(self.stream(alloc, number, reader, aggregation)?)),
            None => Ok(Fill::Dropped),
        }
    }

    // The view's aggregation, else the reader's for the kind.
    fn aggregation_for(&self, reader: &Reader) -> Aggregation
        ensures { result ≡ chosen_aggregation reader.now self.now.kind self.now.aggregation }
    {
        self.aggregation.unwrap_or(reader.aggregation.of(self.kind))
    }

    #[tactic(auto, unfolding(crate::specs::Streams::stream_by))]
    fn stream(
        &self,
        alloc: Global,
        number: u32,
        reader: &Reader,
        aggregation: StreamAggregation,
    ) -> Result<Stream, AllocError>
        ensures { IfOk result (λ s. s ≡ stream_by number reader.now self.now aggregation) }
    {
        let Texts {
            name,
            description,
            unit,
        } = copied_texts(alloc, &self.name, &self.description, &self.unit)?;
        let kept = self.kept.copy(alloc)?;
        Ok(Stream {
            reader: number,
            instrument: self.instrument,
            view: self.view,
            name,
            description,
            unit,
            kind: self.kind,
            aggregation,
            kept,
            limit: self.limit.unwrap_or(reader.limit.of(self.kind)),
            temporality: reader.temporality.of(self.kind),
        })
    }
}

// A stream's aggregation, or none where the recordings are dropped.
fn aggregation_with(
    alloc: Global,
    aggregation: Aggregation,
    kind: Kind,
    boundaries: &Shared<Boundaries>,
) -> Result<Option<StreamAggregation>, AllocError>
    ensures { IfOk result (λ a. a ≡ aggregation_with aggregation kind boundaries.now) }
{
    match aggregation {
        Aggregation::Default => Ok(Some(default_aggregation(alloc, kind, boundaries)?)),
        Aggregation::Drop => Ok(None),
        Aggregation::Sum => Ok(Some(StreamAggregation::Sum)),
        Aggregation::LastValue => Ok(Some(StreamAggregation::LastValue)),
        Aggregation::ExplicitBucketHistogram => {
            Ok(Some(StreamAggregation::Histogram(boundaries.copy(alloc)?)))
        }
    }
}

// What suits a kind.
fn default_aggregation(
    alloc: Global,
    kind: Kind,
    boundaries: &Shared<Boundaries>,
) -> Result<StreamAggregation, AllocError>
    ensures { IfOk result (λ a. a ≡ default_aggregation kind boundaries.now) }
{
    match kind {
        Kind::Counter | Kind::UpDownCounter => Ok(StreamAggregation::Sum),
        Kind::Histogram => Ok(StreamAggregation::Histogram(boundaries.copy(alloc)?)),
        Kind::Gauge => Ok(StreamAggregation::LastValue),
    }
}
