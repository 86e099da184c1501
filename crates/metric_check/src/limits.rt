//! Whether the streams have at most as many series as their limits.
ghost use Rattle.std.specs.Prelude.{◌≡◌, ◌↔◌, ◌∷◌, [], All, IfOk, IfSome, IsTrue, Some, length, unwrap_or};
ghost use Rattle.metric_bounds.specs.Amounts.{total_of};
ghost use Rattle.metric_bounds.specs.First.{Reports};
ghost use Rattle.metric_bounds.specs.Sets.{listed_of};
ghost use Rattle.metric_resolve.specs.Resolved.{IsKnown};
ghost use Rattle.metric_check.specs.Findings.{HasBound, LimitFinds, SetsFind, of_none, of_stream};
ghost use Rattle.metric_cert.specs.Valid.{IsListed};
ghost use Rattle.metric_check.specs.Known.{AreListed, AreTotals, IsLike};
ghost use Rattle.metric_check.specs.Paired.{Told};

use crate::entries::at_entry;
use crate::fault::ClaimFault;
use metric_bounds::{listed, product};
use metric_catalogue::Catalogue;
use metric_cert::{By, InstrumentBound, StreamSets};
use metric_contents::SetKey;
use metric_plan::CheckFault;
use metric_views::Stream;
use std::alloc::{AllocError, Global};
use std::collections::BTreeMap;

// Where the latest stream of each instrument and view stands: a hint, which is tested where it is used.
type Places = BTreeMap<[u32; 2], usize>;

// The first fault of the numbers of series. The bounds have the total of each instrument.
pub(crate) fn check_limits(
    alloc: Global,
    catalogue: &Catalogue,
    streams: &[Stream],
    entries: &[StreamSets],
    bounds: &[InstrumentBound],
) -> Result<(), ClaimFault>
    requires totals { AreTotals catalogue.now bounds.now }
    requires known { All (IsKnown catalogue.now) streams.now }
    ensures { Reports (of_none CheckFault.Memory)
        (SetsFind catalogue.now streams.now entries.now) result }
{
    let mut places: Places = BTreeMap::new(alloc);
    for (number, entry) in entries.iter().enumerate() {
        if number >= streams.len() {
            return Err(at_entry(number, CheckFault::BadSets));
        }
        let stream = &streams[number];
        let place = places.get(&pair_of(stream));
        let own = earlier_list(catalogue, stream, streams, entries, number, place);
        check_limit_at(alloc, catalogue, number, stream, entry, bounds, own)?;
        note_place(&mut places, stream, number)?;
    }
    if entries.len() < streams.len() {
        return Err(at_entry(entries.len(), CheckFault::BadSets));
    }
    Ok(())
}

// The fault of an entry, told with its number.
fn check_limit_at(
    alloc: Global,
    catalogue: &Catalogue,
    number: usize,
    stream: &Stream,
    entry: &StreamSets,
    bounds: &[InstrumentBound],
    own: Option<&[SetKey]>,
) -> Result<(), ClaimFault>
    requires totals { AreTotals catalogue.now bounds.now }
    requires known { IsKnown catalogue.now stream.now }
    requires own { IfSome own (λ list. listed_of catalogue.now stream.now ≡ Some list.now) }
    ensures { Reports (of_none CheckFault.Memory)
        (Told (of_stream number) (LimitFinds catalogue.now stream.now entry.now)) result }
{
    match check_limit(alloc, catalogue, stream, entry, bounds, own) {
        Ok(()) => Ok(()),
        Err(CheckFault::Memory) => Err(ClaimFault::of_none(CheckFault::Memory)),
        Err(fault) => Err(at_entry(number, fault)),
    }
}

// The fault of an entry. The list of its stream is made, unless an earlier stream has it.
fn check_limit(
    alloc: Global,
    catalogue: &Catalogue,
    stream: &Stream,
    entry: &StreamSets,
    bounds: &[InstrumentBound],
    own: Option<&[SetKey]>,
) -> Result<(), CheckFault>
    requires totals { AreTotals catalogue.now bounds.now }
    requires known { IsKnown catalogue.now stream.now }
    requires own { IfSome own (λ list. listed_of catalogue.now stream.now ≡ Some list.now) }
    ensures { Reports CheckFault.Memory
        (LimitFinds catalogue.now stream.now entry.now) result }
{
    if !has_bound(alloc, catalogue, stream, entry, bounds, own)? {
        return Err(CheckFault::BadSets);
    }
    if entry.sets > stream.limit {
        return Err(CheckFault::LimitExceeded);
    }
    Ok(())
}

// Whether an entry has the number that it names, and the list of its stream where it is by list.
fn has_bound(
    alloc: Global,
    catalogue: &Catalogue,
    stream: &Stream,
    entry: &StreamSets,
    bounds: &[InstrumentBound],
    own: Option<&[SetKey]>,
) -> Result<bool, AllocError>
    requires totals { AreTotals catalogue.now bounds.now }
    requires known { IsKnown catalogue.now stream.now }
    requires own { IfSome own (λ list. listed_of catalogue.now stream.now ≡ Some list.now) }
    ensures { IfOk result (λ has. IsTrue has ↔ HasBound catalogue.now stream.now entry.now) }
{
    match &entry.by {
        By::Product => Ok(u128::from(entry.sets) == product(catalogue, stream)),
        By::List(list) => {
            let list = list.as_slice();
            let is_listed = is_listed(alloc, catalogue, stream, list, own)?;
            Ok(has_length(is_listed, list, entry.sets))
        }
        By::Budget => Ok(has_total(catalogue, stream, entry.sets, bounds)),
    }
}

// Whether there are as many sets as the instrument of a stream may be recorded.
fn has_total(catalogue: &Catalogue, stream: &Stream, sets: u32, bounds: &[InstrumentBound]) -> bool
    requires totals { AreTotals catalogue.now bounds.now }
    requires known { IsKnown catalogue.now stream.now }
    ensures { IsTrue result ↔ (sets ≡ total_of catalogue.now stream.now.instrument) }
{
    // Only the contract speaks of the catalogue.
    let _ = catalogue;
    u64::from(sets) == bounds[stream.instrument as usize].total
}

// Whether a list is right, and there are as many sets.
fn has_length(is_right: bool, list: &[SetKey], sets: u32) -> bool
    ensures { IsTrue result ↔ (IsTrue is_right × (sets ≡ length list.now)) }
{
    is_right && sets as usize == list.len()
}

// Whether a list is that of a stream, which is given, or else made. Both stand in order, so they are compared as they
// stand.
fn is_listed(
    alloc: Global,
    catalogue: &Catalogue,
    stream: &Stream,
    list: &[SetKey],
    own: Option<&[SetKey]>,
) -> Result<bool, AllocError>
    requires { IfSome own (λ own. listed_of catalogue.now stream.now ≡ Some own.now) }
    ensures { IfOk result (λ is. IsTrue is
        ↔ (listed_of catalogue.now stream.now ≡ Some list.now)) }
{
    match own {
        Some(own) => Ok(own == list),
        None => is_made_list(alloc, catalogue, stream, list),
    }
}

fn is_made_list(
    alloc: Global,
    catalogue: &Catalogue,
    stream: &Stream,
    list: &[SetKey],
) -> Result<bool, AllocError>
    ensures { IfOk result (λ is. IsTrue is
        ↔ (listed_of catalogue.now stream.now ≡ Some list.now)) }
{
    match listed(alloc, catalogue, stream)? {
        Some(own) => Ok(own.as_slice() == list),
        None => Ok(false),
    }
}

// The instrument and the view of a stream, for whose earlier streams lists are looked up.
fn pair_of(stream: &Stream) -> [u32; 2]
    ensures { result ≡ stream.now.instrument ∷ unwrap_or stream.now.view 4294967295 ∷ [] }
{
    [stream.instrument, stream.view.unwrap_or(u32::MAX)]
}

// Notes where the latest stream of an instrument and a view stands.
fn note_place(places: &mut Places, stream: &Stream, number: usize) -> Result<(), AllocError> {
    places.insert(pair_of(stream), number)?;
    Ok(())
}

// The list of a stream, where that of the earlier one at a place is the same: so the list of an instrument and a view
// is made for one reader, and not for each.
fn earlier_list<'a>(
    catalogue: &Catalogue,
    stream: &Stream,
    streams: &[Stream],
    entries: &'a [StreamSets],
    number: usize,
    place: Option<&usize>,
) -> Option<&'a [SetKey]>
    requires { AreListed catalogue.now streams.now entries.now number }
    ensures { IfSome result (λ list. listed_of catalogue.now stream.now ≡ Some list.now) }
{
    let place = *place?;
    if place >= number {
        return None;
    }
    list_of_like(catalogue, stream, streams.get(place)?, entries.get(place)?)
}

// The list of a stream, where another one of the same instrument and the same kept keys has it in its entry.
fn list_of_like<'a>(
    catalogue: &Catalogue,
    stream: &Stream,
    other: &Stream,
    entry: &'a StreamSets,
) -> Option<&'a [SetKey]>
    requires { IsListed catalogue.now other.now entry.now.by }
    ensures { IfSome result (λ list. listed_of catalogue.now stream.now ≡ Some list.now) }
{
    // Only the contract speaks of the catalogue.
    let _ = catalogue;
    match &entry.by {
        By::List(list) => {
            if is_like(stream, other) {
                Some(list.as_slice())
            } else {
                None
            }
        }
        By::Product | By::Budget => None,
    }
}

// Whether two streams are of one instrument and keep the same keys.
fn is_like(stream: &Stream, other: &Stream) -> bool
    ensures { IsTrue result → IsLike stream.now other.now }
{
    stream.instrument == other.instrument
        && stream.kept.get().as_slice() == other.kept.get().as_slice()
}
