//! What bounds the series of each stream.
ghost use Rattle.std.specs.Prelude.{◌≡◌, ◌<◌, ◌≤◌, All, Err, IfOk, Ok, if◌then◌else◌, length, map, nat_le};
ghost use Rattle.std.specs.List.{AllZip};
ghost use Rattle.metric_resolve.specs.Applying.{all_instruments};
ghost use Rattle.metric_bounds.specs.Amounts.{total_of};
ghost use Rattle.metric_bounds.specs.First.{Asks, Reports};
ghost use Rattle.metric_bounds.specs.Safe.{SetsFit};
ghost use Rattle.metric_bounds.specs.Sets.{FlagsKeys, product_of};
ghost use Rattle.metric_make.specs.Finding.{LimitsFind, limit_exceeded};
ghost use Rattle.metric_make.specs.Making.{IsNamed, entry_by_list, entry_of, entry_past, entry_with};
ghost use Rattle.metric_cert.specs.Valid.{IsBoundAt};

use crate::fault::MakeFault;
use metric_base::Items;
use metric_bounds::{listed, product};
use metric_catalogue::Catalogue;
use metric_cert::{By, InstrumentBound, StreamSets};
use metric_contents::SetKey;
use metric_views::Stream;
use std::alloc::Global;

// An entry for each stream, or the fault of the first that may pass its limit.
pub(crate) fn entries_of(
    alloc: Global,
    catalogue: &Catalogue,
    bounds: &[InstrumentBound],
    streams: &[Stream],
) -> Result<Items<StreamSets>, MakeFault>
    requires bounds { AllZip (IsBoundAt catalogue.now streams.now) (all_instruments catalogue.now)
        bounds.now }
    requires few { length streams.now ≤ 2097152 }
    requires named { All (IsNamed catalogue.now) streams.now }
    ensures entries { IfOk result (λ entries. entries
        ≡ map (entry_of catalogue.now) streams.now) }
    ensures found { Reports MakeFault.Memory (LimitsFind catalogue.now streams.now)
        result }
{
    let mut entries = Items::new(alloc);
    for (number, stream) in streams.iter().enumerate() {
        let total = bounds[stream.instrument as usize].total;
        let entry = entry_of(alloc, catalogue, total, number as u32, stream)?;
        entries.push(entry)?;
    }
    Ok(entries)
}

// The entry of the stream of a number, whose instrument may be recorded so often.
fn entry_of(
    alloc: Global,
    catalogue: &Catalogue,
    total: u64,
    number: u32,
    stream: &Stream,
) -> Result<StreamSets, MakeFault>
    requires total { total ≡ total_of catalogue.now stream.now.instrument }
    requires flags { FlagsKeys catalogue.now stream.now }
    ensures entry { IfOk result (λ entry. entry ≡ entry_of catalogue.now stream.now) }
    ensures found { Reports MakeFault.Memory
        (Asks (SetsFit catalogue.now stream.now) (limit_exceeded number stream.now)) result }
{
    let product = product(catalogue, stream);
    if product <= u128::from(stream.limit) {
        Ok(entry_by(stream, By::Product, product as u32))
    } else {
        entry_past(alloc, catalogue, total, number, stream)
    }
}

// The same of a stream whose product is past its limit.
fn entry_past(
    alloc: Global,
    catalogue: &Catalogue,
    total: u64,
    number: u32,
    stream: &Stream,
) -> Result<StreamSets, MakeFault>
    requires total { total ≡ total_of catalogue.now stream.now.instrument }
    requires past { stream.now.limit < product_of catalogue.now stream.now }
    ensures entry { IfOk result (λ entry. entry ≡ entry_past catalogue.now stream.now) }
    ensures found { Reports MakeFault.Memory
        (Asks (SetsFit catalogue.now stream.now) (limit_exceeded number stream.now)) result }
{
    let listed = listed(alloc, catalogue, stream)?;
    match entry_by_list(stream, listed) {
        Some(entry) => Ok(entry),
        None => entry_by_budget(total, number, stream),
    }
}

// The entry by list, where there is a list within the limit.
fn entry_by_list(stream: &Stream, listed: Option<Items<SetKey>>) -> Option<StreamSets>
    ensures { result ≡ entry_by_list stream.now listed }
{
    match listed {
        Some(list) => {
            let sets = list.len();
            if sets <= stream.limit as usize {
                Some(entry_by(stream, By::List(list), sets as u32))
            } else {
                None
            }
        }
        None => None,
    }
}

// The entry by budget, where so many recordings are within the limit.
fn entry_by_budget(total: u64, number: u32, stream: &Stream) -> Result<StreamSets, MakeFault>
    ensures { result ≡ (if nat_le total stream.now.limit
        then Ok (entry_with stream.now By.Budget total)
        else Err (limit_exceeded number stream.now)) }
{
    if total <= u64::from(stream.limit) {
        Ok(entry_by(stream, By::Budget, total as u32))
    } else {
        Err(MakeFault::LimitExceeded {
            stream: number,
            reader: stream.reader,
            instrument: stream.instrument,
        })
    }
}

fn entry_by(stream: &Stream, by: By, sets: u32) -> StreamSets
    ensures { result ≡ entry_with stream.now by sets }
{
    StreamSets {
        reader: stream.reader,
        instrument: stream.instrument,
        view: stream.view,
        by,
        sets,
    }
}
