//! Whether programs that were made of an old catalogue go on with a new one.
ghost use Rattle.std.specs.Prelude.{◌≡◌, IfOk, length};
ghost use Rattle.std.specs.BTreeMap.{get_by_text};
ghost use Rattle.std.specs.List.{position_from};
ghost use Rattle.metric_catalogue.specs.Sound.{IsSoundInstrument};
ghost use Rattle.metric_diff.specs.Programs.{AnswersCompared, AnswersFound, AnswersPrograms, AnswersWalk, IsAsked, asked_texts, first_gone, is_gone};

use crate::asked::{Asked, asked_of, asked_text, meter_of, only_place};
use crate::names::recorder_names;
use crate::places::{Places, place_in, places_of};
use metric_base::Text;
use metric_catalogue::Catalogue;
use metric_contents::{Instrument, Recorder};
use metric_meaning::{Difference, attributes_of, expected_of, first_difference};
use std::alloc::{AllocError, Global};

/// Whether programs that were made of an old catalogue go on with a new one.
#[derive(Drop)]
pub enum Programs {
    /// All go on.
    GoOn,
    /// All but those in C go on, which ask for an instrument by its number: some instrument has another one.
    GoOnButInC,
    /// They have to be made again: an old instrument is not there, or means something else.
    OtherInstrument {
        /// The number of the old instrument.
        old: usize,
        /// What is other, in words.
        difference: Text,
    },
    /// They have to be made again: no new recorder has the name of an old one.
    NoRecorder {
        /// The number of the old recorder.
        old: usize,
    },
}

// What a program that was made for an old instrument finds: the new one at a place, or none that it takes, in words.
#[derive(Drop)]
enum Found {
    At(usize),
    Differs(Text),
}

/// Whether programs that were made of the old catalogue go on with the new one. A program asks for each instrument by its
/// name and that of its meter, which has to be one alone, and takes it where it means what the old one is; in C it asks by
/// its number; and it asks for each recorder by its name. The first old instrument that differs is told, else the first old
/// recorder that is gone. Takes n log n for n instruments, and a step for each value. Fails only when out of memory.
pub fn programs_of(alloc: Global, old: &Catalogue, new: &Catalogue) -> Result<Programs, AllocError>
    ensures { IfOk result (AnswersPrograms old.now new.now) }
{
    let programs = walked(alloc, old, new)?;
    if matches!(programs, Programs::OtherInstrument { .. }) {
        return Ok(programs);
    }
    match first_gone(alloc, old.recorders(), new.recorders())? {
        Some(old) => Ok(Programs::NoRecorder { old }),
        None => Ok(programs),
    }
}

// The same of the instruments alone.
fn walked(alloc: Global, old: &Catalogue, new: &Catalogue) -> Result<Programs, AllocError>
    ensures { IfOk result (AnswersWalk old.now new.now) }
{
    let asked = asked_of(alloc, new)?;
    let mut is_moved = false;
    for (number, instrument) in old.instruments().iter().enumerate() {
        match found_for(alloc, old, new, &asked, instrument)? {
            Found::At(place) => is_moved = is_moved || place != number,
            Found::Differs(difference) => {
                return Ok(Programs::OtherInstrument {
                    old: number,
                    difference,
                });
            }
        }
    }
    Ok(if is_moved {
        Programs::GoOnButInC
    } else {
        Programs::GoOn
    })
}

fn found_for(
    alloc: Global,
    old: &Catalogue,
    new: &Catalogue,
    asked: &Asked,
    instrument: &Instrument,
) -> Result<Found, AllocError>
    requires sound { IsSoundInstrument (length old.now.meters) instrument.now }
    requires asked { IsAsked (asked_texts new.now) asked.now }
    ensures { IfOk result (AnswersFound old.now new.now instrument.now) }
{
    let text = asked_text(alloc, old, instrument)?;
    match only_place(asked, text.as_str()) {
        Some(place) => compared(alloc, old, new, instrument, place),
        None => Ok(Found::Differs(why_none(alloc, asked, text.as_str())?)),
    }
}

// Whether the new instrument at a place means what the old one is.
fn compared(
    alloc: Global,
    old: &Catalogue,
    new: &Catalogue,
    instrument: &Instrument,
    place: usize,
) -> Result<Found, AllocError>
    requires { IsSoundInstrument (length old.now.meters) instrument.now }
    ensures { IfOk result (AnswersCompared old.now new.now instrument.now place) }
{
    let keys = attributes_of(alloc, instrument)?;
    let expected = expected_of(meter_of(old, instrument), instrument, keys.as_slice());
    match first_difference(new, place, &expected) {
        None => Ok(Found::At(place)),
        Some(difference) => Ok(Found::Differs(words_of(alloc, &difference)?)),
    }
}

fn words_of(alloc: Global, difference: &Difference<'_, '_>) -> Result<Text, AllocError> {
    let words = format!(in alloc; "{difference}")?;
    Ok(Text::from_string(words))
}

fn why_none(alloc: Global, asked: &Asked, text: &str) -> Result<Text, AllocError> {
    match place_in(&asked.places, text) {
        Some(_) => Text::new(alloc, "several instruments have its name and its meter's"),
        None => words_of(alloc, &Difference::NoInstrument),
    }
}

// The number of the first old recorder of whose name there is no new one.
fn first_gone(
    alloc: Global,
    olds: &[Recorder],
    news: &[Recorder],
) -> Result<Option<usize>, AllocError>
    ensures { IfOk result (λ gone. gone ≡ first_gone olds.now news.now) }
{
    let names = recorder_names(alloc, news)?;
    let places = places_of(alloc, names.as_slice())?;
    let gone = first_none_of(olds, &places);
    Ok(gone)
}

fn first_none_of(olds: &[Recorder], places: &Places) -> Option<usize>
    ensures { result ≡ position_from (is_gone (get_by_text places.now)) 0 olds.now }
{
    olds.iter().position(|recorder| is_gone(places, recorder))
}

fn is_gone(places: &Places, recorder: &Recorder) -> bool
    ensures { result ≡ is_gone (get_by_text places.now) recorder.now }
{
    place_in(places, recorder.name.as_str()).is_none()
}
