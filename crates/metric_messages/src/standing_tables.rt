//! Whether a place of a text is that of a fault.
ghost use Rattle.std.specs.Prelude.{◌≡◌, ◌&&◌, ◌||◌, map, not};
ghost use Rattle.metric_messages.specs.Marks.{certificate_marks, chosen, entry_in, entry_marks, field_marks, kind_name, known_names, marks_in_catalogue, marks_in_config, marks_of, missing_marks, unknown_marks};
ghost use Rattle.metric_messages.specs.Tables.{catalogue_table, config_table, header_of, in_catalogue, in_config, instrument_table, key_table};

use crate::spot::{Spot, TableFault};
use crate::standing::{
    has_word, headers, is_header, is_listed, is_nth, is_other, is_plain, is_table,
};
use metric_catalogue::{CatalogueDefect, CatalogueField, CataloguePlace, CatalogueSpot};
use metric_cert::CertList;
use metric_contents::Kind;
use metric_views::{ConfigField, ConfigPlace, ConfigSpot, ViewDefect, kind_names};

// Whether what a fault is of stands behind the first part of a text, at the front of the other.
pub(crate) fn stands(text: &[u8], spot: Spot, before: &[u8], rest: &[u8]) -> bool
    ensures { result ≡ marks_of text.now spot before.now rest.now }
{
    match spot {
        Spot::Text => true,
        Spot::Table(TableFault::Catalogue(defect, spot)) => {
            catalogue_stands(defect, spot, is_plain(text), before, rest)
        }
        Spot::Table(TableFault::Config(defect, spot)) => {
            config_stands(defect, spot, is_plain(text), before, rest)
        }
        Spot::Entry(list, number) => { certificate_stands(list, number, text, before, rest) }
        Spot::Nowhere(_) => false,
    }
}

fn catalogue_stands(
    defect: CatalogueDefect,
    spot: CatalogueSpot,
    plain: bool,
    before: &[u8],
    rest: &[u8],
) -> bool
    ensures { result ≡ (marks_in_catalogue defect spot plain before.now rest.now
        && (not plain || in_catalogue spot.place before.now rest.now)) }
{
    marks_in_catalogue(defect, spot, plain, before, rest)
        && (!plain || in_catalogue(spot.place, before, rest))
}

fn marks_in_catalogue(
    defect: CatalogueDefect,
    spot: CatalogueSpot,
    plain: bool,
    before: &[u8],
    rest: &[u8],
) -> bool
    ensures { result ≡ marks_in_catalogue defect spot plain before.now rest.now }
{
    match defect {
        CatalogueDefect::MissingField => missing_marks(spot, plain, before, rest),
        CatalogueDefect::UnknownField => unknown_marks(spot, before, rest),
        _ => field_marks(entry_in(spot), spot.field, before, rest),
    }
}

fn missing_marks(spot: CatalogueSpot, plain: bool, before: &[u8], rest: &[u8]) -> bool
    ensures { result ≡ missing_marks spot.entry spot plain before.now rest.now }
{
    match spot.entry {
        None => {
            catalogue_table(spot.place, plain, before, rest) || has_word(spot.field.name(), rest)
        }
        Some(entry) => entry_marks(spot.field, entry, before, rest),
    }
}

fn unknown_marks(spot: CatalogueSpot, before: &[u8], rest: &[u8]) -> bool
    ensures { result ≡ unknown_marks spot.entry spot before.now rest.now }
{
    match spot.entry {
        None => is_other(metric_catalogue::field_names(spot.place, 1), before, rest),
        Some(entry) => entry_marks(spot.field, entry, before, rest),
    }
}

// The entry of a spot, where its field is a list.
pub(crate) fn entry_in(spot: CatalogueSpot) -> Option<u32>
    ensures { result ≡ entry_in spot }
{
    match spot.field {
        CatalogueField::Budget => None,
        _ => spot.entry,
    }
}

fn field_marks(entry: Option<u32>, field: CatalogueField, before: &[u8], rest: &[u8]) -> bool
    ensures { result ≡ field_marks entry field before.now rest.now }
{
    match entry {
        None => has_word(field.name(), rest),
        Some(entry) => entry_marks(field, entry, before, rest),
    }
}

// The entry of a field's list, which of groups may be a table by its header.
fn entry_marks(field: CatalogueField, entry: u32, before: &[u8], rest: &[u8]) -> bool
    ensures { result ≡ entry_marks field entry before.now rest.now }
{
    match field {
        CatalogueField::Group => {
            is_header("[[meter.group]]", rest) || is_listed("group", entry as usize, before)
        }
        field => is_listed(field.name(), entry as usize, before),
    }
}

fn catalogue_table(place: CataloguePlace, plain: bool, before: &[u8], rest: &[u8]) -> bool
    ensures { result ≡ catalogue_table place plain before.now rest.now }
{
    match place {
        CataloguePlace::Top => before.len() == 0,
        CataloguePlace::Meter(_) => is_table("[[meter]]", plain, rest),
        CataloguePlace::Instrument(_) => instrument_table(plain, rest),
        CataloguePlace::Key(_, _) => key_table(plain, rest),
        CataloguePlace::SharedKey(_) => is_table("[[key]]", plain, rest),
        CataloguePlace::Recorder(_) => is_table("[[recorder]]", plain, rest),
        CataloguePlace::Budget(_, _) => is_table("[[recorder.budget]]", plain, rest),
    }
}

fn instrument_table(plain: bool, rest: &[u8]) -> bool
    ensures { result ≡ instrument_table plain rest.now }
{
    is_table("[[meter.instrument]]", plain, rest)
        || is_table("[[meter.group.instrument]]", plain, rest)
}

fn key_table(plain: bool, rest: &[u8]) -> bool
    ensures { result ≡ key_table plain rest.now }
{
    is_table("[[meter.instrument.key]]", plain, rest)
        || is_table("[[meter.group.key]]", plain, rest)
        || is_table("[[meter.group.instrument.key]]", plain, rest)
}

fn in_catalogue(place: CataloguePlace, before: &[u8], rest: &[u8]) -> bool
    ensures { result ≡ in_catalogue place before.now rest.now }
{
    match place {
        CataloguePlace::Top => true,
        CataloguePlace::Meter(number) => is_nth("", "[[meter]]", number as usize, before, rest),
        CataloguePlace::Instrument(number) => {
            is_nth("", INSTRUMENT, number as usize, before, rest)
        }
        CataloguePlace::Key(number, key) => {
            is_nth("", INSTRUMENT, number as usize, before, rest)
                && is_nth(
                    INSTRUMENT,
                    "[[meter.instrument.key]]",
                    key as usize,
                    before,
                    rest,
                )
        }
        CataloguePlace::SharedKey(number) => is_nth("", "[[key]]", number as usize, before, rest),
        CataloguePlace::Recorder(number) => is_nth("", RECORDER, number as usize, before, rest),
        CataloguePlace::Budget(number, budget) => {
            is_nth("", RECORDER, number as usize, before, rest)
                && is_nth(
                    RECORDER,
                    "[[recorder.budget]]",
                    budget as usize,
                    before,
                    rest,
                )
        }
    }
}

const INSTRUMENT: &str = "[[meter.instrument]]";

const RECORDER: &str = "[[recorder]]";

fn config_stands(
    defect: ViewDefect,
    spot: ConfigSpot,
    plain: bool,
    before: &[u8],
    rest: &[u8],
) -> bool
    ensures { result ≡ (marks_in_config defect spot plain before.now rest.now
        && (not plain || in_config spot.place before.now rest.now)) }
{
    marks_in_config(defect, spot, plain, before, rest)
        && (!plain || in_config(spot.place, before, rest))
}

fn marks_in_config(
    defect: ViewDefect,
    spot: ConfigSpot,
    plain: bool,
    before: &[u8],
    rest: &[u8],
) -> bool
    ensures { result ≡ marks_in_config defect spot plain before.now rest.now }
{
    match defect {
        ViewDefect::MissingField => {
            config_table(spot.place, plain, before, rest) || has_word(spot.field.name(), rest)
        }
        ViewDefect::UnknownField => is_other(known_names(spot.field, spot.place), before, rest),
        _ => has_word(chosen(spot.kind, spot.field.name()), rest),
    }
}

// The names that a table has, or that a field has which makes choices.
pub(crate) fn known_names(field: ConfigField, place: ConfigPlace) -> &'static [&'static str]
    ensures { map (λ name. name.now) result.now ≡ known_names field place }
{
    match field {
        ConfigField::Unknown => metric_views::field_names(place),
        _ => kind_names(),
    }
}

fn chosen(kind: Option<Kind>, name: &'static str) -> &'static str
    ensures { result.now ≡ chosen kind name.now }
{
    match kind {
        None => name,
        Some(kind) => kind_name(kind),
    }
}

// The name of a kind of instrument.
pub(crate) fn kind_name(kind: Kind) -> &'static str
    ensures { result.now ≡ kind_name kind }
{
    match kind {
        Kind::Counter => "counter",
        Kind::UpDownCounter => "up_down_counter",
        Kind::Histogram => "histogram",
        Kind::Gauge => "gauge",
    }
}

fn config_table(place: ConfigPlace, plain: bool, before: &[u8], rest: &[u8]) -> bool
    ensures { result ≡ config_table place plain before.now rest.now }
{
    match place {
        ConfigPlace::Top => before.len() == 0,
        ConfigPlace::Reader(_) => is_table("[[reader]]", plain, rest),
        ConfigPlace::View(_) => is_table("[[view]]", plain, rest),
    }
}

fn in_config(place: ConfigPlace, before: &[u8], rest: &[u8]) -> bool
    ensures { result ≡ in_config place before.now rest.now }
{
    match place {
        ConfigPlace::Top => true,
        ConfigPlace::Reader(number) => is_nth("", "[[reader]]", number as usize, before, rest),
        ConfigPlace::View(number) => is_nth("", "[[view]]", number as usize, before, rest),
    }
}

fn certificate_stands(
    list: CertList,
    number: usize,
    text: &[u8],
    before: &[u8],
    rest: &[u8],
) -> bool
    ensures { result ≡ certificate_marks list number text.now before.now rest.now }
{
    let header = header_of(list);
    if headers("", header, text) == 0 {
        is_listed(list.name(), number, before)
    } else {
        is_header(header, rest) && (!is_plain(text) || is_nth("", header, number, before, rest))
    }
}

fn header_of(list: CertList) -> &'static str
    ensures { result.now ≡ header_of list }
{
    match list {
        CertList::Reason => "[[reason]]",
        CertList::Stream => "[[stream]]",
        CertList::Bound => "[[bound]]",
        CertList::Order => "[[order]]",
    }
}
