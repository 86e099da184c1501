//! The streams of all readers, in order.
ghost use Rattle.std.specs.Prelude.{◌≡◌, ◌≤◌, All, ◌++◌, IfOk, OnOk, length, map};
ghost use Rattle.std.specs.List.{filter_map, flat_map, list_any};
ghost use Rattle.metric_views.specs.Streams.{fill_by};
ghost use Rattle.metric_resolve.specs.Offers.{AreOffers, streams_of_offer};
ghost use Rattle.metric_resolve.specs.Resolved.{IsKnown, is_fit, kept, kept_of, streams_of};

use crate::offers::{Offer, offers_of};
use crate::resolved::StreamList;
use crate::selection::Selection;
use metric_base::{Few, Items};
use metric_catalogue::Catalogue;
use metric_views::{Config, Fill, Reader, Stream, Template};
use std::alloc::{AllocError, Global};

/// The streams of all readers (Metrics SDK, View), by reader, instrument and view, where the selection tells which
/// views select which instruments. There are at most 2,097,152. Fails only when out of memory.
pub fn streams_by<S: Selection>(alloc: Global, selection: &S) -> Result<StreamList, AllocError>
    ensures exact { IfOk result (λ s. s
        ≡ streams_of (S.contents selection.now) (S.setup selection.now)) }
    ensures few { IfOk result (λ s. length s ≤ 2097152) }
    ensures known { IfOk result (All (IsKnown (S.contents selection.now))) }
{
    let offers = offers_of(alloc, selection)?;
    let streams = streams_of(
        alloc,
        selection.catalogue(),
        selection.config(),
        offers.as_slice(),
    )?;
    Ok(Few::from_items(streams))
}

// The streams of all readers, in order.
fn streams_of(
    alloc: Global,
    catalogue: &Catalogue,
    config: &Config,
    offers: &[Offer],
) -> Result<Items<Stream>, AllocError>
    requires { AreOffers catalogue.now config.now offers.now }
    ensures exact { IfOk result (λ s. s ≡ streams_of catalogue.now config.now) }
    ensures few { IfOk result (λ s. length s ≤ 2097152) }
    ensures known { IfOk result (All (IsKnown catalogue.now)) }
{
    let mut streams = Items::new(alloc);
    for (number, reader) in config.readers().iter().enumerate() {
        add_reader(alloc, number as u32, reader, offers, &mut streams)?;
    }
    Ok(streams)
}

// Puts the streams of a reader last.
fn add_reader(
    alloc: Global,
    number: u32,
    reader: &Reader,
    offers: &[Offer],
    streams: &mut Items<Stream>,
) -> Result<(), AllocError>
    ensures { OnOk result (streams.new
        ≡ streams.old ++ flat_map (streams_of_offer number reader.now) offers.now) }
{
    for offer in offers {
        add_offer(alloc, number, reader, offer, streams)?;
    }
    Ok(())
}

// Puts the streams of an instrument for a reader last: those of the views that apply, or that of the
// default where none applies.
fn add_offer(
    alloc: Global,
    number: u32,
    reader: &Reader,
    offer: &Offer,
    streams: &mut Items<Stream>,
) -> Result<(), AllocError>
    ensures { OnOk result (streams.new
        ≡ streams.old ++ streams_of_offer number reader.now offer.now) }
{
    let applied = add_views(alloc, number, reader, offer.by_views.as_slice(), streams)?;
    if !applied {
        let filled = offer.default.fill(alloc, number, reader)?;
        add_kept(filled, streams)?;
    }
    Ok(())
}

// Puts the streams of the views that apply last, and answers whether there is such a view.
fn add_views(
    alloc: Global,
    number: u32,
    reader: &Reader,
    templates: &[Template],
    streams: &mut Items<Stream>,
) -> Result<bool, AllocError>
    ensures streams { OnOk result (streams.new
        ≡ streams.old ++ filter_map kept (map (fill_by number reader.now) templates.now)) }
    ensures applied { IfOk result (λ applied. applied
        ≡ list_any is_fit (map (fill_by number reader.now) templates.now)) }
{
    let mut applied = false;
    for template in templates {
        let filled = template.fill(alloc, number, reader)?;
        let fits = add_kept(filled, streams)?;
        applied = applied || fits;
    }
    Ok(applied)
}

// Puts the stream last, where one is kept, and answers whether the aggregation fits.
fn add_kept(filled: Fill, streams: &mut Items<Stream>) -> Result<bool, AllocError>
    ensures streams { OnOk result (streams.new ≡ streams.old ++ kept_of filled) }
    ensures fits { IfOk result (λ fits. fits ≡ is_fit filled) }
{
    match filled {
        Fill::Unfit => Ok(false),
        Fill::Dropped => Ok(true),
        Fill::Kept(stream) => {
            streams.push(stream)?;
            Ok(true)
        }
    }
}
