//! By what programs ask for instruments.
ghost use Rattle.std.specs.Prelude.{◌≡◌, IfOk};
ghost use Rattle.metric_diff.specs.Programs.{IsAsked, asked_text, asked_texts, meter_of, only_by};

use crate::names::repeated_names;
use crate::places::{Places, place_in, places_of};
use metric_base::{Items, Text};
use metric_catalogue::Catalogue;
use metric_contents::Instrument;
use std::alloc::{AllocError, Global};

/// Where the instruments of a catalogue are, by what programs ask for them.
#[derive(Drop)]
pub(crate) struct Asked {
    /// The first place of each text.
    pub(crate) places: Places,
    /// A place of each that an earlier one has, too.
    again: Places,
}

/// The places of a catalogue's instruments.
pub(crate) fn asked_of(alloc: Global, catalogue: &Catalogue) -> Result<Asked, AllocError>
    ensures { IfOk result (IsAsked (asked_texts catalogue.now)) }
{
    let texts = asked_texts(alloc, catalogue)?;
    let places = places_of(alloc, texts.as_slice())?;
    let repeated = repeated_names(alloc, texts.as_slice(), &places)?;
    let again = places_of(alloc, repeated.as_slice())?;
    Ok(Asked { places, again })
}

fn asked_texts(alloc: Global, catalogue: &Catalogue) -> Result<Items<Text>, AllocError>
    ensures { IfOk result (λ texts. texts ≡ asked_texts catalogue.now) }
{
    let mut texts = Items::new(alloc);
    for instrument in catalogue.instruments() {
        texts.push(asked_text(alloc, catalogue, instrument)?)?;
    }
    Ok(texts)
}

/// An instrument's name and that of its meter.
#[tactic(auto, using(metric_text::specs::ListLaws::steps))]
pub(crate) fn asked_text(
    alloc: Global,
    catalogue: &Catalogue,
    instrument: &Instrument,
) -> Result<Text, AllocError>
    ensures { IfOk result (λ text. text ≡ asked_text catalogue.now instrument.now) }
{
    let name = instrument.name.get().as_str();
    let meter = meter_of(catalogue, instrument);
    let text = format!(in alloc; "{name} {meter}")?;
    Ok(Text::from_string(text))
}

/// The name of its meter, which every instrument has.
pub(crate) fn meter_of<'c>(catalogue: &'c Catalogue, instrument: &Instrument) -> &'c str
    ensures { result.now ≡ meter_of catalogue.now instrument.now }
{
    match catalogue.meters().get(instrument.meter as usize) {
        Some(meter) => meter.name.as_str(),
        None => "",
    }
}

/// The place of a text, where no other one has it.
pub(crate) fn only_place(asked: &Asked, text: &str) -> Option<usize>
    ensures { result ≡ only_by asked.now text.now }
{
    match place_in(&asked.again, text) {
        Some(_) => None,
        None => place_in(&asked.places, text),
    }
}
