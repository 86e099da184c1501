//! What a person is told of a remark.
ghost use Rattle.std.specs.Prelude.{◌≡◌, IfOk};
ghost use Rattle.metric_messages.specs.Places.{RemarkNames, RemarkStands, place_of_remark, streams_in};

use crate::buckets::bucket_message;
use crate::collected::{words_of_idle_reader, words_of_level};
use crate::diagnosis::Diagnosis;
use crate::missed::words_of_nothing;
use crate::named::{instrument_of, recorder_of};
use crate::places::{Place, placed, position_of, source_of};
use crate::sources::Pair;
use crate::unsafe_parts::{collision_message, limit_message};
use crate::unused::words_of_unused;
use metric_catalogue::{Catalogue, CataloguePlace};
use metric_lint::{KeyList, Remark};
use metric_views::{ConfigPlace, View};
use std::alloc::{AllocError, Global};

/// What a person is told of a remark of `lint`: the place of the view, the recorder or the instrument that it is about,
/// and what looks like a mistake. The file is the catalogue for recorders, budgets and values, else the config. A
/// reader that has no stream, or delta streams of what has a level, has its own place. Two streams of one identity
/// stand at the view of the later one, else of the first; budgets that give a stream more series than its limit, at its
/// view, else at its reader; buckets that tell nothing, at the view or the instrument; that there is no recorder or no
/// reader, at the top. Of a remark that `lint` does not give on this pair the words may be less exact. Fails only when
/// out of memory.
pub fn diagnose_remark<'t>(
    alloc: Global,
    pair: Pair<'t>,
    remark: Remark,
) -> Result<Diagnosis<'t, Remark>, AllocError>
    ensures fault { IfOk result (λ told. told.fault ≡ remark) }
    ensures file { IfOk result (λ told. RemarkNames pair.entry remark told.file.now) }
    ensures place { IfOk result (λ told. RemarkStands pair.entry remark told.position) }
{
    let (place, words) = remark_message(alloc, pair, remark)?;
    let position = position_of(alloc, pair, place)?;
    Ok(Diagnosis::new(source_of(pair, place), remark, position, words))
}

fn remark_message(
    alloc: Global,
    pair: Pair<'_>,
    remark: Remark,
) -> Result<(Place, String), AllocError>
    ensures { IfOk result (λ told. told.0
        ≡ place_of_remark (streams_in pair.entry) remark) }
{
    match remark {
        Remark::Unfit { view, instrument } => placed(
            place_of_view(view),
            words_of_unfit(alloc, pair, view, instrument),
        ),
        Remark::Collision { first, later } => collision_message(alloc, pair, first, later),
        Remark::SelectsNothing { view } => placed(
            place_of_view(view),
            words_of_nothing(alloc, pair, view),
        ),
        Remark::UnknownKey { view, list, place } => placed(
            place_of_view(view),
            words_of_key(alloc, pair, view, list, place),
        ),
        Remark::UnusedBoundaries { view } => {
            placed(place_of_view(view), words_of_view(alloc, view, UNUSED))
        }
        Remark::SaysNothing { view } => {
            placed(
                place_of_view(view),
                words_of_view(alloc, view, SAYS_NOTHING),
            )
        }
        Remark::KeptAndExcluded { view, place } => placed(
            place_of_view(view),
            words_of_both(alloc, pair, view, place),
        ),
        Remark::Unrecorded { instrument } => placed(
            Place::Catalogue(CataloguePlace::Instrument(instrument)),
            words_of_instrument(alloc, pair, instrument, UNRECORDED),
        ),
        Remark::NothingAllowed { instrument } => placed(
            Place::Catalogue(CataloguePlace::Instrument(instrument)),
            words_of_instrument(alloc, pair, instrument, NOTHING),
        ),
        Remark::OneValue { instrument } => placed(
            Place::Catalogue(CataloguePlace::Instrument(instrument)),
            words_of_instrument(alloc, pair, instrument, ONE_VALUE),
        ),
        Remark::UnusedValue {
            instrument,
            key,
            value,
        } => placed(
            Place::Catalogue(CataloguePlace::Instrument(instrument)),
            words_of_unused(alloc, pair, instrument, key, value),
        ),
        Remark::OneBucket { stream } | Remark::FarBoundaries { stream } => {
            bucket_message(alloc, pair, remark, stream)
        }
        Remark::OverBudget { instrument, limit } => limit_message(alloc, pair, instrument, limit),
        Remark::NoBudget { recorder } => placed(
            Place::Catalogue(CataloguePlace::Recorder(recorder)),
            words_of_idle(alloc, pair, recorder),
        ),
        Remark::NoRecorder => placed(
            Place::Catalogue(CataloguePlace::Top),
            String::from_str(alloc, NO_RECORDER),
        ),
        Remark::NoStream { reader } => placed(
            Place::Config(ConfigPlace::Reader(reader)),
            words_of_idle_reader(alloc, pair, reader),
        ),
        Remark::LevelDelta { reader, kind } => placed(
            Place::Config(ConfigPlace::Reader(reader)),
            words_of_level(alloc, pair, reader, kind),
        ),
        Remark::NoReader => placed(
            Place::Config(ConfigPlace::Top),
            String::from_str(alloc, NO_READER),
        ),
    }
}

const UNUSED: &str = "gives boundaries, and no stream of it is a histogram";

const SAYS_NOTHING: &str =
    "has no criterion and no setting: it selects each instrument and changes nothing";

const NO_RECORDER: &str = "there is no recorder, so nothing can be recorded";

const NO_READER: &str = "there is no reader, so nothing is collected";

fn words_of_view(alloc: Global, view: u32, what: &str) -> Result<String, AllocError> {
    format!(in alloc; "view {view} {what}")
}

fn place_of_view(view: u32) -> Place
    ensures { result ≡ Place.Config (ConfigPlace.View view) }
{
    Place::Config(ConfigPlace::View(view))
}

fn words_of_unfit(
    alloc: Global,
    pair: Pair<'_>,
    view: u32,
    instrument: u32,
) -> Result<String, AllocError> {
    let instrument = instrument_of(pair.catalogue, instrument);
    format!(in alloc;
        "view {view} selects {instrument} and names an aggregation that does not fit it: a gauge has no sum"
    )
}

// A key that no selected instrument declares.
fn words_of_key(
    alloc: Global,
    pair: Pair<'_>,
    view: u32,
    list: KeyList,
    place: u32,
) -> Result<String, AllocError> {
    let field = field_of(list);
    let key = match pair.config.views().get(view as usize) {
        Some(view) => key_at(view, list, place),
        None => "",
    };
    format!(in alloc;
        "view {view}: field {field:?}: no selected instrument declares the key {key:?}"
    )
}

// A key that a view keeps and excludes.
fn words_of_both(
    alloc: Global,
    pair: Pair<'_>,
    view: u32,
    place: u32,
) -> Result<String, AllocError> {
    let key = match pair.config.views().get(view as usize) {
        Some(view) => key_at(view, KeyList::Keep, place),
        None => "",
    };
    format!(in alloc;
        "view {view}: the key {key:?} is in \"keep\" and in \"exclude\" too, so it is left out"
    )
}

fn field_of(list: KeyList) -> &'static str {
    match list {
        KeyList::Keep => "keep",
        KeyList::Exclude => "exclude",
    }
}

// The key at a place of a list of a view.
fn key_at(view: &View, list: KeyList, place: u32) -> &str {
    let keys = match list {
        KeyList::Keep => &view.settings.keep,
        KeyList::Exclude => &view.settings.exclude,
    };
    match keys {
        Some(keys) => match keys.as_slice().get(place as usize) {
            Some(key) => key.as_str(),
            None => "",
        },
        None => "",
    }
}

const UNRECORDED: &str =
    "no recorder has a budget for it, and it has no spare, so nobody can record on it";

const NOTHING: &str = "field \"allowed\" lists no combination, so no recording can be made on it";

const ONE_VALUE: &str = "its range is one value, so that no recording tells anything";

fn words_of_instrument(
    alloc: Global,
    pair: Pair<'_>,
    instrument: u32,
    words: &str,
) -> Result<String, AllocError> {
    let instrument = instrument_of(pair.catalogue, instrument);
    format!(in alloc; "{instrument}: {words}")
}

// A recorder without a budget: it can ask for a grant where an instrument has a spare.
fn words_of_idle(alloc: Global, pair: Pair<'_>, recorder: u32) -> Result<String, AllocError> {
    let has_spare = has_spare(pair.catalogue);
    let recorder = recorder_of(pair.catalogue, recorder);
    if has_spare {
        format!(in alloc; "{recorder} has no budget, and records only by a grant")
    } else {
        format!(in alloc; "{recorder} has no budget, so it can record nothing")
    }
}

// Whether some instrument has a spare.
fn has_spare(catalogue: &Catalogue) -> bool {
    catalogue
        .instruments()
        .iter()
        .any(|instrument| instrument.spare > 0)
}
