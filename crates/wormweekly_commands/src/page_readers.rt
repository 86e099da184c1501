//! Readers that words name: the one whose page is printed, and those of ways out.
ghost use Rattle.std.specs.Prelude.{◌≡◌, ◌+◌, ◌≤◌, Err, Ok, filter, if◌then◌else◌, length};
ghost use Rattle.std.specs.List.{range_with_len};
ghost use Rattle.metric_exposure.specs.declared.outlet.Outlet.TheVariants.{Prometheus};
ghost use Rattle.wormweekly_commands.specs.Exposures.{has_served};
ghost use Rattle.wormweekly_commands.specs.PageReaders.{has_reader, is_unknown, names_unknown, only_reader, reader_asked, reader_named, with_served};
ghost use Rattle.wormweekly_commands.specs.declared.fault.ConsoleFault.TheVariants.{Page};
ghost use Rattle.wormweekly_commands.specs.declared.fault.PageFault.TheVariants.{NoReader};

use crate::exposures::serves_reader;
use crate::fault::{ConsoleFault, PageFault};
use metric_base::Text;
use metric_command_lines::{has_equals, key_and_value};
use metric_exposure::Outlet;
use metric_views::{Reader, Stream};

/// The number of the reader of a name, or of the only one that pages can serve where none is named.
pub(crate) fn reader_asked(
    name: &Option<Text>,
    readers: &[Reader],
    streams: &[Stream],
) -> Result<u32, PageFault>
    requires { length readers.now ≤ 16 }
    ensures { result ≡ reader_asked name.now readers.now streams.now }
{
    match name {
        Some(name) => reader_named(name.as_str(), 0, readers),
        None => only_reader(readers.len() as u32, streams),
    }
}

// The number of the reader of a name, where the first is of a number. It calls itself at most as often as there are
// readers, of which a config has 16 at most.
fn reader_named(name: &str, number: u32, readers: &[Reader]) -> Result<u32, PageFault>
    requires { number + length readers.now ≤ 16 }
    ensures { result ≡ reader_named name.now number readers.now }
{
    match readers.split_first() {
        None => Err(PageFault::NoReader),
        Some((reader, others)) => {
            if reader.name.as_str() == name {
                Ok(number)
            } else {
                reader_named(name, number + 1, others)
            }
        }
    }
}

// The only one of so many readers that pages can serve.
fn only_reader(count: u32, streams: &[Stream]) -> Result<u32, PageFault>
    ensures { result ≡ only_reader (filter (has_served Prometheus streams.now)
        (range_with_len 0 count)) }
{
    let mut found = Err(PageFault::NoneServed);
    for reader in 0..count {
        found = with_next(streams, found, reader);
    }
    found
}

// The only one, where one more is looked at.
fn with_next(
    streams: &[Stream],
    found: Result<u32, PageFault>,
    reader: u32,
) -> Result<u32, PageFault>
    ensures { result ≡ (if has_served Prometheus streams.now reader
        then with_served found reader else found) }
{
    if serves_reader(streams, Outlet::Prometheus, reader) {
        with_served(found, reader)
    } else {
        found
    }
}

// The only one, where one more is found.
fn with_served(found: Result<u32, PageFault>, reader: u32) -> Result<u32, PageFault>
    ensures { result ≡ with_served found reader }
{
    match found {
        Err(PageFault::NoneServed) => Ok(reader),
        _ => Err(PageFault::SeveralReaders),
    }
}

/// Refuses words for ways out of which one names a reader behind `=` that is not among these: with
/// [`PageFault::NoReader`].
pub(crate) fn check_readers(words: &[Text], readers: &[Reader]) -> Result<(), ConsoleFault>
    ensures { result ≡ (if names_unknown words.now readers.now
        then Err (Page NoReader) else Ok tt) }
{
    if names_unknown(words, readers) {
        return Err(ConsoleFault::Page(PageFault::NoReader));
    }
    Ok(())
}

fn names_unknown(words: &[Text], readers: &[Reader]) -> bool
    ensures { result ≡ names_unknown words.now readers.now }
{
    words.iter().any(|word| is_unknown(readers, word.as_str()))
}

fn is_unknown(readers: &[Reader], word: &str) -> bool
    ensures { result ≡ is_unknown readers.now word.now }
{
    let (_, name) = key_and_value(word);
    has_equals(word) && !has_reader(readers, name)
}

fn has_reader(readers: &[Reader], name: &str) -> bool
    ensures { result ≡ has_reader readers.now name.now }
{
    readers.iter().any(|reader| reader.name.as_str() == name)
}
