//! Why a catalogue and a config are not safe.
ghost use Rattle.std.specs.Prelude.{◌≡◌, IfOk, slice_get};
ghost use Rattle.metric_messages.specs.Places.{PartNames, PartStands, place_of_fault, place_of_limit, place_of_two, streams_in};

use crate::diagnosis::Diagnosis;
use crate::named::stream_of;
use crate::places::{Place, placed, position_of, source_of};
use crate::room::{room_message, series_message};
use crate::sources::Pair;
use crate::stream_places::two_place;
use crate::toml_fault::want_of_memory;
use metric_catalogue::CataloguePlace;
use metric_lint::Limit;
use metric_make::MakeFault;
use metric_resolve::resolve_streams;
use metric_views::Stream;
use std::alloc::{AllocError, Global};

/// What a person is told of a catalogue and a config that get no certificate: the part of safety that fails, with the
/// streams or the instrument that it is about, and the greatest total of budgets that would do. The file is the config
/// for two streams of one identity, at the view of the later one, else of the first, and for too many series, at the
/// view of the stream, else at its reader. Else it is the catalogue, at the instrument. Of another fault than `make`
/// answers of this pair the words may be less exact. Fails only when out of memory.
pub fn diagnose_make<'t>(
    alloc: Global,
    pair: Pair<'t>,
    fault: MakeFault,
) -> Result<Diagnosis<'t, MakeFault>, AllocError>
    ensures fault { IfOk result (λ told. told.fault ≡ fault) }
    ensures file { IfOk result (λ told. PartNames pair.entry fault told.file.now) }
    ensures place { IfOk result (λ told. PartStands pair.entry fault told.position) }
{
    let (place, words) = unsafe_message(alloc, pair, fault)?;
    let position = position_of(alloc, pair, place)?;
    Ok(Diagnosis::new(source_of(pair, place), fault, position, words))
}

// The place of a fault, and what is told of it.
fn unsafe_message(
    alloc: Global,
    pair: Pair<'_>,
    fault: MakeFault,
) -> Result<(Place, String), AllocError>
    ensures { IfOk result (λ told. told.0
        ≡ place_of_fault (streams_in pair.entry) fault) }
{
    match fault {
        MakeFault::Collision { first, later } => collision_message(alloc, pair, first, later),
        MakeFault::LimitExceeded {
            stream,
            instrument,
            ..
        } => series_message(alloc, pair, instrument, stream),
        MakeFault::CountRange { instrument } => limit_message(
            alloc,
            pair,
            instrument,
            Limit::Count,
        ),
        MakeFault::AmountRange { instrument } => limit_message(
            alloc,
            pair,
            instrument,
            Limit::Amount,
        ),
        MakeFault::SumLow { instrument } => limit_message(alloc, pair, instrument, Limit::SumLow),
        MakeFault::SumHigh { instrument } => limit_message(alloc, pair, instrument, Limit::SumHigh),
        MakeFault::Memory => placed(Place::Catalogue(CataloguePlace::Top), want_of_memory(alloc)),
    }
}

// The same of an instrument that may be recorded too often.
pub(crate) fn limit_message(
    alloc: Global,
    pair: Pair<'_>,
    instrument: u32,
    limit: Limit,
) -> Result<(Place, String), AllocError>
    ensures { IfOk result (λ told. told.0
        ≡ place_of_limit (streams_in pair.entry) instrument limit) }
{
    match limit {
        Limit::Series { stream } => series_message(alloc, pair, instrument, stream),
        Limit::Count | Limit::Amount | Limit::SumLow | Limit::SumHigh => placed(
            Place::Catalogue(CataloguePlace::Instrument(instrument)),
            room_message(alloc, pair, instrument, limit),
        ),
    }
}

// Two streams of one identity.
pub(crate) fn collision_message(
    alloc: Global,
    pair: Pair<'_>,
    first: u32,
    later: u32,
) -> Result<(Place, String), AllocError>
    ensures { IfOk result (λ told. told.0 ≡ place_of_two
        (slice_get (streams_in pair.entry) first)
        (slice_get (streams_in pair.entry) later)) }
{
    let streams = resolve_streams(alloc, pair.catalogue, pair.config)?;
    placed(
        two_place(streams.as_slice(), first, later),
        words_of_two(alloc, pair, streams.as_slice(), first, later),
    )
}

fn words_of_two(
    alloc: Global,
    pair: Pair<'_>,
    streams: &[Stream],
    first: u32,
    later: u32,
) -> Result<String, AllocError> {
    let one = words_of_stream(alloc, pair, streams, first)?;
    let other = words_of_stream(alloc, pair, streams, later)?;
    format!(in alloc; "{one} and {other} have one identity: the same name in one meter")
}

fn words_of_stream(
    alloc: Global,
    pair: Pair<'_>,
    streams: &[Stream],
    number: u32,
) -> Result<String, AllocError> {
    match streams.get(number as usize) {
        Some(stream) => {
            let told = stream_of(alloc, pair, number, stream)?;
            format!(in alloc; "{told}")
        }
        None => format!(in alloc; "stream {number}"),
    }
}
