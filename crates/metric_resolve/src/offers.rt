//! What each instrument offers the readers.
ghost use Rattle.std.specs.Prelude.{◌≡◌, ◌≤◌, ◌<◌, IfOk, Some, length, slice_get};
ghost use Rattle.std.specs.List.{enumerate_from, filter_map};
ghost use Rattle.metric_resolve.specs.Applying.{meter_at};
ghost use Rattle.metric_resolve.specs.Offers.{AreOffers, IsOffer, view_template};

use crate::selection::Selection;
use metric_base::Items;
use metric_catalogue::Catalogue;
use metric_contents::{Instrument, Meter};
use metric_views::{Template, View};
use std::alloc::{AllocError, Global};

// The streams that a reader can see of an instrument.
#[derive(Drop)]
pub(crate) struct Offer {
    // Those of the views that select the instrument, in the order of the views.
    pub by_views: Items<Template>,
    // That of the default.
    pub default: Template,
}

// What each instrument offers. A view is matched with an instrument once, for all readers.
pub(crate) fn offers_of<S: Selection>(
    alloc: Global,
    selection: &S,
) -> Result<Items<Offer>, AllocError>
    ensures { IfOk result (AreOffers (S.contents selection.now) (S.setup selection.now)) }
{
    let views = selection.config().views();
    let mut offers = Items::new(alloc);
    for (number, instrument) in selection.catalogue().instruments().iter().enumerate() {
        let offer = offer_of(alloc, selection, views, number as u32, instrument)?;
        offers.push(offer)?;
    }
    Ok(offers)
}

// The meter of the instrument of a number.
pub(crate) fn meter_of(catalogue: &Catalogue, instrument: u32) -> &Meter
    requires { instrument < length catalogue.now.instruments }
    ensures { meter_at catalogue.now instrument ≡ Some result.now }
{
    let number = catalogue.instruments()[instrument as usize].meter;
    &catalogue.meters()[number as usize]
}

// What the instrument of a number offers, where these are all views.
fn offer_of<S: Selection>(
    alloc: Global,
    selection: &S,
    views: &[View],
    number: u32,
    instrument: &Instrument,
) -> Result<Offer, AllocError>
    requires views { views.now ≡ (S.setup selection.now).views }
    requires few { length views.now ≤ 256 }
    requires at { slice_get (S.contents selection.now).instruments number ≡ Some instrument.now }
    ensures { IfOk result (IsOffer (S.contents selection.now) (S.setup selection.now) number) }
{
    let by_views = templates_of(alloc, selection, views, number, instrument)?;
    let default = Template::of_default(alloc, number, instrument)?;
    Ok(Offer { by_views, default })
}

// Those of the views that select the instrument.
fn templates_of<S: Selection>(
    alloc: Global,
    selection: &S,
    views: &[View],
    number: u32,
    instrument: &Instrument,
) -> Result<Items<Template>, AllocError>
    requires views { views.now ≡ (S.setup selection.now).views }
    requires few { length views.now ≤ 256 }
    requires within { number < length (S.contents selection.now).instruments }
    ensures { IfOk result (λ templates. templates
        ≡ filter_map (view_template (S.contents selection.now) (S.setup selection.now)
        number instrument.now) (enumerate_from 0 views.now)) }
{
    let mut templates = Items::new(alloc);
    for (view_number, view) in views.iter().enumerate() {
        let view_number = view_number as u32;
        if selection.selects(view_number, number) {
            let template = Template::of_view(alloc, number, instrument, view_number, view)?;
            templates.push(template)?;
        }
    }
    Ok(templates)
}
