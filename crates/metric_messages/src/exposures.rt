//! What a person is told of a stream that a way out would lose.
ghost use Rattle.std.specs.Prelude.{◌≡◌, IfOk};
ghost use Rattle.std.specs.Option.{option_map};
ghost use Rattle.metric_messages.specs.Exposures.{ExposureNames, ExposureStands, place_of, place_of_reader};

use crate::diagnosis::Diagnosis;
use crate::named::stream_of;
use crate::places::{Place, position_of, source_of};
use crate::shown::Quoted;
use crate::sources::Pair;
use crate::stream_places::place_of_stream;
use metric_exposure::{ExposureFault, Outlet};
use metric_family::{family_of, label_of};
use metric_views::{ConfigPlace, Stream};
use std::alloc::{AllocError, Global};

/// What a person is told of a fault that keeps a stream from a way out, and the remedy. The place is the view of the
/// stream, else its instrument; of a stream that is a delta, its reader. The streams are those that the pair gives.
/// Fails only when out of memory.
pub fn diagnose_exposure<'t>(
    alloc: Global,
    pair: Pair<'t>,
    streams: &[Stream],
    outlet: Outlet,
    fault: ExposureFault,
) -> Result<Diagnosis<'t, ExposureFault>, AllocError>
    ensures fault { IfOk result (λ told. told.fault ≡ fault) }
    ensures file { IfOk result (λ told. ExposureNames pair.entry streams.now fault told.file.now) }
    ensures place { IfOk result (λ told. ExposureStands pair.entry.catalogue_source.text.now
        pair.entry.config_source.text.now streams.now fault told.position) }
{
    let place = place_of(streams, fault);
    let position = position_of(alloc, pair, place)?;
    let words = words_of(alloc, pair, streams, outlet, fault)?;
    Ok(Diagnosis::new(source_of(pair, place), fault, position, words))
}

// The table that a fault is about.
fn place_of(streams: &[Stream], fault: ExposureFault) -> Place
    ensures { result ≡ place_of streams.now fault }
{
    match fault {
        ExposureFault::Delta { stream } => place_of_reader(streams.get(stream)),
        ExposureFault::Boundary { stream } => place_of_stream(streams.get(stream)),
        ExposureFault::Nameless { stream } => place_of_stream(streams.get(stream)),
        ExposureFault::NameCollision { stream, .. } => place_of_stream(streams.get(stream)),
        ExposureFault::BadLabel { stream, .. } => place_of_stream(streams.get(stream)),
        ExposureFault::LabelCollision { stream, .. } => place_of_stream(streams.get(stream)),
        ExposureFault::ValueCollision { stream, .. } => place_of_stream(streams.get(stream)),
        ExposureFault::Memory => TOP,
    }
}

const TOP: Place = Place::Config(ConfigPlace::Top);

fn place_of_reader(stream: Option<&Stream>) -> Place
    ensures { result ≡ place_of_reader (option_map (λ s. s.now) stream.entry) }
{
    match stream {
        Some(stream) => Place::Config(ConfigPlace::Reader(stream.reader)),
        None => TOP,
    }
}

fn words_of(
    alloc: Global,
    pair: Pair<'_>,
    streams: &[Stream],
    outlet: Outlet,
    fault: ExposureFault,
) -> Result<String, AllocError> {
    match fault {
        ExposureFault::Delta { stream } => {
            words_with(alloc, pair, streams, outlet, stream, DELTA)
        }
        ExposureFault::Boundary { stream } => {
            words_with(alloc, pair, streams, outlet, stream, BOUNDARY)
        }
        ExposureFault::Nameless { stream } => {
            words_with(alloc, pair, streams, outlet, stream, NAMELESS)
        }
        ExposureFault::NameCollision { stream, with } => {
            words_of_names(alloc, pair, streams, stream, with)
        }
        ExposureFault::BadLabel { stream, key } => {
            words_of_key(alloc, pair, streams, (stream, key), BAD_LABEL)
        }
        ExposureFault::LabelCollision { stream, key } => {
            words_of_key(alloc, pair, streams, (stream, key), SAME_LABEL)
        }
        ExposureFault::ValueCollision { stream, key } => {
            words_of_key(alloc, pair, streams, (stream, key), SAME_VALUE)
        }
        ExposureFault::Memory => String::from_str(alloc, "out of memory"),
    }
}

const DELTA: &str =
    "is a delta, and a page has what was recorded since the start: make the temporality of its reader \"cumulative\"";

const BOUNDARY: &str =
    "has a boundary below -2^53 or above 2^53, where two may be one double: give it boundaries between these";

const NAMELESS: &str =
    "has no word left for the name of its family: give it another one by the \"stream_name\" of a view";

const BAD_LABEL: &str = "which says nothing";

const SAME_LABEL: &str =
    "which an earlier key has, or which is kept for the meter, for buckets, for the overflow or for a \"job\" or \"instance\" that a server renames";

const SAME_VALUE: &str = "where two of its values are one text, or an empty one is like none";

// What is told of a stream, in these words.
fn words_with(
    alloc: Global,
    pair: Pair<'_>,
    streams: &[Stream],
    outlet: Outlet,
    number: usize,
    words: &str,
) -> Result<String, AllocError> {
    let outlet = name_of(outlet);
    match streams.get(number) {
        Some(stream) => {
            let told = stream_of(alloc, pair, small(number), stream)?;
            format!(in alloc; "for {outlet}: {told} {words}")
        }
        None => format!(in alloc; "for {outlet}: stream {number} {words}"),
    }
}

fn name_of(outlet: Outlet) -> &'static str {
    match outlet {
        Outlet::Prometheus => "prometheus",
        Outlet::Otlp => "otlp",
    }
}

// Two streams that claim one name, or one that claims a name of the target.
fn words_of_names(
    alloc: Global,
    pair: Pair<'_>,
    streams: &[Stream],
    number: usize,
    with: Option<usize>,
) -> Result<String, AllocError> {
    let one = claimant(alloc, pair, streams, number)?;
    match with {
        Some(other) => {
            let other = claimant(alloc, pair, streams, other)?;
            format!(in alloc;
                "for prometheus: {one} and {other}, and a page can't hold both: {RENAME_ONE}"
            )
        }
        None => format!(in alloc;
            "for prometheus: {one}, which is kept for the target, as \"target_info\" and \"up\" are: {RENAME}"
        ),
    }
}

const RENAME: &str = "give it another name by the \"stream_name\" of a view";

const RENAME_ONE: &str = "give one of the two another name by the \"stream_name\" of a view";

// The stream of a number, with its family.
fn claimant(
    alloc: Global,
    pair: Pair<'_>,
    streams: &[Stream],
    number: usize,
) -> Result<String, AllocError> {
    let Some(stream) = streams.get(number) else {
        return format!(in alloc; "stream {number}");
    };
    let told = stream_of(alloc, pair, small(number), stream)?;
    let family = family_of(alloc, stream)?;
    let family = Quoted(family.as_str());
    format!(in alloc; "{told} has the family {family}")
}

// A key of a stream, in these words.
fn words_of_key(
    alloc: Global,
    pair: Pair<'_>,
    streams: &[Stream],
    of: (usize, usize),
    words: &str,
) -> Result<String, AllocError> {
    let (number, place) = of;
    let Some(stream) = streams.get(number) else {
        return format!(in alloc; "for prometheus: key {place} of stream {number} {words}");
    };
    let key = key_of(pair, stream, place);
    let label = label_of(alloc, key)?;
    let label = Quoted(label.as_str());
    let told = stream_of(alloc, pair, small(number), stream)?;
    let key = Quoted(key);
    format!(in alloc;
        "for prometheus: {told}: the key {key} becomes the label {label}, {words}: {LEAVE_OUT}"
    )
}

const LEAVE_OUT: &str =
    "leave it out by \"exclude\" or \"keep\" of a view, or change it in the catalogue";

// The name of a key of a stream.
fn key_of<'t>(pair: Pair<'t>, stream: &Stream, place: usize) -> &'t str {
    let instruments = pair.catalogue.instruments();
    let Some(instrument) = instruments.get(stream.instrument as usize) else {
        return "";
    };
    match instrument.keys.as_slice().get(place) {
        Some(key) => key.name.as_str(),
        None => "",
    }
}

// The number of a stream, of which there are at most 2,097,152.
fn small(number: usize) -> u32 {
    u32::try_from(number).unwrap_or(u32::MAX)
}
