//! A stream with what its lines name.
ghost use Rattle.std.specs.Prelude.{◌≡◌};
ghost use Rattle.std.specs.Option.{option_map};
ghost use Rattle.metric_lines.specs.Batches.{described_stream};
ghost use Rattle.metric_lines.specs.Descriptions.{described_by};

use metric_catalogue::Catalogue;
use metric_contents::{Instrument, Meter};
use metric_views::{Config, Reader, Stream};

/// A stream of a plan with its reader, its instrument and that one's meter.
#[derive(Clone, Copy)]
pub(crate) struct Description<'a> {
    /// The stream.
    pub stream: &'a Stream,
    /// The reader that exports it.
    pub reader: &'a Reader,
    /// The instrument whose recordings it reports.
    pub instrument: &'a Instrument,
    /// The meter of the instrument.
    pub meter: &'a Meter,
}

/// The stream of a number with what its lines name, or nothing where a number names nothing.
#[tactic(auto, unfolding(crate::specs::Batches::described_stream))]
pub(crate) fn described_stream<'a>(
    catalogue: &'a Catalogue,
    config: &'a Config,
    streams: &'a [Stream],
    number: u32,
) -> Option<Description<'a>>
    ensures { option_map described_by result
        ≡ described_stream catalogue.now config.now streams.now number }
{
    let stream = streams.get(number as usize)?;
    let reader = config.readers().get(stream.reader as usize)?;
    let instrument = catalogue.instruments().get(stream.instrument as usize)?;
    let meter = catalogue.meters().get(instrument.meter as usize)?;
    Some(Description {
        stream,
        reader,
        instrument,
        meter,
    })
}
