//! What streams and instruments are known by.
ghost use Rattle.std.specs.Prelude.{◌≡◌, IfOk, decimal, map, slice_index_or, unwrap_or, slice_get};
ghost use Rattle.std.specs.BTreeMap.{get_by_text};
ghost use Rattle.std.specs.List.{enumerate_from};
ghost use Rattle.metric_diff.specs.Changes.{collision_names, instrument_names, is_first, meter_numbers, names, plan_of, reader_names, repeated, stream_names};
ghost use Rattle.metric_diff.specs.Known.{instrument_name, known_text, meter_with, stream_name};

use crate::named::Sort;
use crate::numbers::{Renaming, numbers};
use crate::places::{Places, place_in, places_of};
use crate::side::Side;
use metric_base::{Copied, Items, Text};
use metric_catalogue::Catalogue;
use metric_contents::{Instrument, Recorder};
use metric_names::Name;
use metric_views::Stream;
use std::alloc::{AllocError, Global};

/// What those of a side are known by, in the numbers of the old one.
pub(crate) fn names(
    alloc: Global,
    sort: Sort,
    old: Side<'_>,
    side: Side<'_>,
) -> Result<Items<Text>, AllocError>
    ensures { IfOk result (λ all. all ≡ names sort (plan_of old.entry) (plan_of side.entry)) }
{
    match sort {
        Sort::Readers => reader_names(alloc, old, side),
        Sort::Streams => stream_names(alloc, old, side),
        Sort::Collisions => collision_names(alloc, old, side),
        Sort::Instruments => instrument_names(alloc, old, side),
        Sort::Recorders => recorder_names(alloc, side.catalogue.recorders()),
    }
}

// The numbers of readers.
#[tactic(auto, unfolding(crate::specs::Changes::reader_names))]
fn reader_names(alloc: Global, old: Side<'_>, side: Side<'_>) -> Result<Items<Text>, AllocError>
    ensures { IfOk result (λ names. names ≡
        reader_names (plan_of old.entry) (plan_of side.entry)) }
{
    let readers = numbers(
        alloc,
        old.config.readers(),
        side.config.readers(),
        Renaming::Allowed,
    )?;
    numerals(alloc, readers.as_slice())
}

fn numerals(alloc: Global, numbers: &[usize]) -> Result<Items<Text>, AllocError>
    ensures { IfOk result (λ names. names ≡ map decimal numbers.now) }
{
    let mut names = Items::new(alloc);
    for number in numbers {
        names.push(numeral(alloc, *number)?)?;
    }
    Ok(names)
}

fn numeral(alloc: Global, number: usize) -> Result<Text, AllocError>
    ensures { IfOk result (λ name. name ≡ decimal number) }
{
    let text = format!(in alloc; "{number}")?;
    Ok(Text::from_string(text))
}

// What the streams are known by that have the name of an earlier one. Nothing stands for each other one, and last, so
// that nothing is known in both.
#[tactic(auto, unfolding(crate::specs::Changes::collision_names))]
fn collision_names(alloc: Global, old: Side<'_>, side: Side<'_>) -> Result<Items<Text>, AllocError>
    ensures { IfOk result (λ names. names ≡
        collision_names (plan_of old.entry) (plan_of side.entry)) }
{
    let streams = stream_names(alloc, old, side)?;
    let places = places_of(alloc, streams.as_slice())?;
    let mut names = repeated_names(alloc, streams.as_slice(), &places)?;
    names.push(Text::new(alloc, "")?)?;
    Ok(names)
}

/// Each name that an earlier one is, too, and nothing for each other one.
pub(crate) fn repeated_names(
    alloc: Global,
    streams: &[Text],
    places: &Places,
) -> Result<Items<Text>, AllocError>
    ensures { IfOk result (λ names. names
        ≡ map (repeated (get_by_text places.now)) (enumerate_from 0 streams.now)) }
{
    let mut names = Items::new(alloc);
    for (number, stream) in streams.iter().enumerate() {
        names.push(repeated(alloc, places, number, stream)?)?;
    }
    Ok(names)
}

fn repeated(
    alloc: Global,
    places: &Places,
    number: usize,
    stream: &Text,
) -> Result<Text, AllocError>
    ensures { IfOk result (λ name. name
        ≡ repeated (get_by_text places.now) (number, stream.now)) }
{
    if is_first(places, number, stream.as_str()) {
        Text::new(alloc, "")
    } else {
        stream.copy(alloc)
    }
}

fn is_first(places: &Places, number: usize, name: &str) -> bool
    ensures { result ≡ is_first (get_by_text places.now) (number, name.now) }
{
    match place_in(places, name) {
        Some(place) => place == number,
        None => false,
    }
}

#[tactic(auto, unfolding(crate::specs::Changes::stream_names))]
fn stream_names(alloc: Global, old: Side<'_>, side: Side<'_>) -> Result<Items<Text>, AllocError>
    ensures { IfOk result (λ names. names ≡
        stream_names (plan_of old.entry) (plan_of side.entry)) }
{
    let readers = numbers(
        alloc,
        old.config.readers(),
        side.config.readers(),
        Renaming::Allowed,
    )?;
    let meters = meter_numbers(alloc, old, side)?;
    names_of(
        alloc,
        side.catalogue,
        side.streams,
        readers.as_slice(),
        meters.as_slice(),
    )
}

fn meter_numbers(alloc: Global, old: Side<'_>, side: Side<'_>) -> Result<Items<usize>, AllocError>
    ensures { IfOk result (λ meters. meters ≡
        meter_numbers (plan_of old.entry) (plan_of side.entry)) }
{
    numbers(
        alloc,
        old.catalogue.meters(),
        side.catalogue.meters(),
        Renaming::Refused,
    )
}

// What streams are known by, by the numbers of readers and meters.
fn names_of(
    alloc: Global,
    catalogue: &Catalogue,
    streams: &[Stream],
    readers: &[usize],
    meters: &[usize],
) -> Result<Items<Text>, AllocError>
    ensures { IfOk result (λ names. names
        ≡ map (stream_name readers.now meters.now catalogue.now) streams.now) }
{
    let mut names = Items::new(alloc);
    for stream in streams {
        names.push(stream_name(alloc, catalogue, stream, readers, meters)?)?;
    }
    Ok(names)
}

fn stream_name(
    alloc: Global,
    catalogue: &Catalogue,
    stream: &Stream,
    readers: &[usize],
    meters: &[usize],
) -> Result<Text, AllocError>
    ensures { IfOk result (λ name. name
        ≡ stream_name readers.now meters.now catalogue.now stream.now) }
{
    let reader = at_or_zero(readers, stream.reader);
    let meter = at_or_zero(meters, meter_of(catalogue, stream));
    known_text(alloc, reader, meter, stream.name.get())
}

// The number of the meter of a stream's instrument.
fn meter_of(catalogue: &Catalogue, stream: &Stream) -> u32
    ensures { result
        ≡ meter_with (slice_get catalogue.now.instruments stream.now.instrument) }
{
    match catalogue.instruments().get(stream.instrument as usize) {
        Some(instrument) => instrument.meter,
        None => 0,
    }
}

fn at_or_zero(numbers: &[usize], place: u32) -> usize
    ensures { result ≡ slice_index_or numbers.now place 0 }
{
    match numbers.get(place as usize) {
        Some(number) => *number,
        None => 0,
    }
}

// The numbers of a reader and a meter, and a name without capitals.
#[tactic(auto, using(metric_text::specs::ListLaws::steps))]
fn known_text(alloc: Global, reader: usize, meter: usize, name: &Name) -> Result<Text, AllocError>
    ensures { IfOk result (λ text. text ≡ known_text reader meter name.now) }
{
    let folded = name.as_str().to_ascii_lowercase(alloc)?;
    let text = format!(in alloc; "{reader} {meter} {folded}")?;
    Ok(Text::from_string(text))
}

#[tactic(auto, unfolding(crate::specs::Changes::instrument_names))]
fn instrument_names(alloc: Global, old: Side<'_>, side: Side<'_>) -> Result<Items<Text>, AllocError>
    ensures { IfOk result (λ names. names ≡
        instrument_names (plan_of old.entry) (plan_of side.entry)) }
{
    let meters = meter_numbers(alloc, old, side)?;
    names_of_instruments(alloc, side.catalogue.instruments(), meters.as_slice())
}

fn names_of_instruments(
    alloc: Global,
    instruments: &[Instrument],
    meters: &[usize],
) -> Result<Items<Text>, AllocError>
    ensures { IfOk result (λ names. names ≡ map (instrument_name meters.now) instruments.now) }
{
    let mut names = Items::new(alloc);
    for instrument in instruments {
        names.push(instrument_name(alloc, instrument, meters)?)?;
    }
    Ok(names)
}

fn instrument_name(
    alloc: Global,
    instrument: &Instrument,
    meters: &[usize],
) -> Result<Text, AllocError>
    ensures { IfOk result (λ name. name ≡ instrument_name meters.now instrument.now) }
{
    let meter = at_or_zero(meters, instrument.meter);
    known_text(alloc, 0, meter, instrument.name.get())
}

/// The names of recorders.
pub(crate) fn recorder_names(
    alloc: Global,
    recorders: &[Recorder],
) -> Result<Items<Text>, AllocError>
    ensures { IfOk result (λ names. names ≡ map (λ recorder. recorder.name) recorders.now) }
{
    let mut names = Items::new(alloc);
    for recorder in recorders {
        names.push(recorder.name.copy(alloc)?)?;
    }
    Ok(names)
}
