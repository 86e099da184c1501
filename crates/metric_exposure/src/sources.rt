//! What streams are made of.
ghost use Rattle.std.specs.Prelude.{◌≡◌};
ghost use Rattle.std.specs.Option.{option_map};
ghost use Rattle.metric_exposure.specs.Sources.{boundaries_of, keys_of, meter_of};

use metric_catalogue::Catalogue;
use metric_contents::{Key, Meter};
use metric_views::{Stream, StreamAggregation};

/// The boundaries of a histogram, none of another stream.
pub(crate) fn boundaries_of(aggregation: &StreamAggregation) -> &[i64]
    ensures { result.now ≡ boundaries_of aggregation.now }
{
    match aggregation {
        StreamAggregation::Sum | StreamAggregation::LastValue => &[],
        StreamAggregation::Histogram(boundaries) => boundaries.get().as_slice(),
    }
}

/// The meter of a stream's instrument.
pub(crate) fn meter_of<'a>(catalogue: &'a Catalogue, stream: &Stream) -> Option<&'a Meter>
    ensures { option_map (λ m. m.now) result ≡ meter_of catalogue.now stream.now }
{
    let instrument = catalogue.instruments().get(stream.instrument as usize)?;
    catalogue.meters().get(instrument.meter as usize)
}

/// The keys of a stream's instrument.
pub(crate) fn keys_of<'a>(catalogue: &'a Catalogue, stream: &Stream) -> &'a [Key]
    ensures { result.now ≡ keys_of catalogue.now stream.now }
{
    match catalogue.instruments().get(stream.instrument as usize) {
        None => &[],
        Some(instrument) => instrument.keys.as_slice(),
    }
}
