//! Whether a certificate has an entry for each stream.
ghost use Rattle.std.specs.Prelude.{◌≡◌};
ghost use Rattle.std.specs.Option.{option_cmp};
ghost use Rattle.std.specs.Ordering.{nat_cmp};
ghost use Rattle.std.specs.Result.{result_err};
ghost use Rattle.metric_check.specs.Findings.{EntriesFind, EntryFinds, entry_order, of_stream};
ghost use Rattle.metric_check.specs.Paired.{Told};

use crate::fault::{ClaimFault, ClaimPlace};
use metric_cert::StreamSets;
use metric_plan::CheckFault;
use metric_views::Stream;
use std::cmp::Ordering;

// The first fault of the entries. They stand by reader, instrument and view, of which the default is the
// first.
pub(crate) fn check_entries(streams: &[Stream], entries: &[StreamSets]) -> Result<(), ClaimFault>
    ensures { EntriesFind streams.now entries.now (result_err result) }
{
    for (number, entry) in entries.iter().enumerate() {
        if number >= streams.len() {
            return Err(at_entry(number, CheckFault::StreamStrange));
        }
        check_entry_at(number, &streams[number], entry)?;
    }
    if entries.len() < streams.len() {
        return Err(at_entry(entries.len(), CheckFault::StreamMissing));
    }
    Ok(())
}

// A fault of the entry of a number.
pub(crate) fn at_entry(number: usize, fault: CheckFault) -> ClaimFault
    ensures { result ≡ of_stream number fault }
{
    ClaimFault {
        fault,
        place: ClaimPlace::Stream(number),
    }
}

// The first fault of an entry where that of this stream is due, told with its number.
fn check_entry_at(number: usize, stream: &Stream, entry: &StreamSets) -> Result<(), ClaimFault>
    ensures { Told (of_stream number) (EntryFinds stream.now entry.now) (result_err result) }
{
    match check_entry(stream, entry) {
        Ok(()) => Ok(()),
        Err(fault) => Err(at_entry(number, fault)),
    }
}

// The first fault of an entry where that of this stream is due.
fn check_entry(stream: &Stream, entry: &StreamSets) -> Result<(), CheckFault>
    ensures { EntryFinds stream.now entry.now (result_err result) }
{
    match entry_order(entry, stream) {
        Ordering::Less => Err(CheckFault::StreamStrange),
        Ordering::Greater => Err(CheckFault::StreamMissing),
        Ordering::Equal => Ok(()),
    }
}

// How an entry and a stream stand.
fn entry_order(entry: &StreamSets, stream: &Stream) -> Ordering
    ensures { result ≡ entry_order entry.now stream.now }
{
    let views = view_order(entry.view, stream.view);
    let instruments = entry.instrument.cmp(&stream.instrument);
    entry
        .reader
        .cmp(&stream.reader)
        .then(instruments.then(views))
}

// The default is the first, then views by number.
fn view_order(view: Option<u32>, other: Option<u32>) -> Ordering
    ensures { result ≡ option_cmp nat_cmp view other }
{
    match (view, other) {
        (None, None) => Ordering::Equal,
        (None, Some(_)) => Ordering::Less,
        (Some(_), None) => Ordering::Greater,
        (Some(view), Some(other)) => view.cmp(&other),
    }
}
