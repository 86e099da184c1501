//! The tables at which streams are told of.
ghost use Rattle.std.specs.Prelude.{◌≡◌, slice_get};
ghost use Rattle.std.specs.Option.{option_map};
ghost use Rattle.metric_messages.specs.Places.{place_of_series, place_of_stream, place_of_two, view_of, view_or};

use crate::places::Place;
use metric_catalogue::CataloguePlace;
use metric_views::{ConfigPlace, Stream};

// The view of a stream, or another place where it has none.
fn view_or(view: Option<u32>, other: Place) -> Place
    ensures { result ≡ view_or view other }
{
    match view {
        Some(view) => Place::Config(ConfigPlace::View(view)),
        None => other,
    }
}

fn view_of(stream: Option<&Stream>) -> Option<u32>
    ensures { result ≡ view_of (option_map (λ s. s.now) stream.entry) }
{
    match stream {
        Some(stream) => stream.view,
        None => None,
    }
}

// The view of a stream, else its instrument.
pub(crate) fn place_of_stream(stream: Option<&Stream>) -> Place
    ensures { result ≡ place_of_stream (option_map (λ s. s.now) stream.entry) }
{
    match stream {
        Some(stream) => view_or(
            stream.view,
            Place::Catalogue(CataloguePlace::Instrument(stream.instrument)),
        ),
        None => Place::Config(ConfigPlace::Top),
    }
}

// The view of a stream, else its reader.
fn place_of_series(stream: Option<&Stream>) -> Place
    ensures { result ≡ place_of_series (option_map (λ s. s.now) stream.entry) }
{
    match stream {
        Some(stream) => view_or(
            stream.view,
            Place::Config(ConfigPlace::Reader(stream.reader)),
        ),
        None => Place::Config(ConfigPlace::Top),
    }
}

// Where the stream of a number is told of.
pub(crate) fn stream_place(streams: &[Stream], number: u32) -> Place
    ensures { result ≡ place_of_stream (slice_get streams.now number) }
{
    place_of_stream(streams.get(number as usize))
}

// Where the series of the stream of a number are told of.
pub(crate) fn series_place(streams: &[Stream], number: u32) -> Place
    ensures { result ≡ place_of_series (slice_get streams.now number) }
{
    place_of_series(streams.get(number as usize))
}

// The view of the stream of a number.
fn view_at(streams: &[Stream], number: u32) -> Option<u32>
    ensures { result ≡ view_of (slice_get streams.now number) }
{
    view_of(streams.get(number as usize))
}

// Of two streams the view of the later one, else of the first. Without views no two streams have one identity.
pub(crate) fn two_place(streams: &[Stream], first: u32, later: u32) -> Place
    ensures { result
        ≡ place_of_two (slice_get streams.now first) (slice_get streams.now later) }
{
    let other = view_or(
        view_at(streams, first),
        Place::Catalogue(CataloguePlace::Top),
    );
    view_or(view_at(streams, later), other)
}
