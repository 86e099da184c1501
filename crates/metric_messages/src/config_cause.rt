//! The cause of a fault of a config, and the way to its field.
use crate::cause::{Cause, Named};
use crate::choices::{aggregation_words, gauge_aggregation_words, temporality_words};
use crate::mistake::{Mistake, Wrong};
use crate::reasons::{
    Entries, of_boundaries, of_format, of_list, of_name, of_pattern, of_value, of_word,
};
use crate::site::Site;
use crate::standing_tables::{kind_name, known_names};
use crate::tables::name_in;
use crate::way::{Way, table_on};
use metric_contents::Kind;
use metric_views::{ConfigField, ConfigPlace, ConfigSpot, ViewDefect, kind_names};
use std::alloc::Global;
use toml::{Table, Value};

// The way to what is wrong in the top table of a config, and the cause.
pub(crate) fn config_cause<'v>(
    alloc: Global,
    top: &'v Table,
    defect: ViewDefect,
    spot: ConfigSpot,
) -> (Way<'v>, Cause<'v>) {
    let site = site_of(top, defect, spot);
    let mistake = Mistake {
        field: spot.field.name(),
        part: part_of(spot),
        wrong: wrong_of(alloc, defect, spot, site),
    };
    (
        site.way,
        Cause {
            outer: subject_of(top, spot.place),
            inner: None,
            mistake,
        },
    )
}

// Where the field of a spot is, and its value.
fn site_of<'v>(top: &'v Table, defect: ViewDefect, spot: ConfigSpot) -> Site<'v> {
    match (defect, spot.kind) {
        (ViewDefect::UnknownField, _) => unknown_site(top, spot),
        (_, Some(kind)) => choice_site(top, spot, kind),
        (_, None) => known_site(top, spot),
    }
}

// Where the field is that the table of a spot does not know, or that of its choices.
fn unknown_site<'v>(top: &'v Table, spot: ConfigSpot) -> Site<'v> {
    let names = known_names(spot.field, spot.place);
    Site::of_other(top, way_to_choices(spot), names)
}

// The way to the choices of a field, or to the table itself.
fn way_to_choices<'v>(spot: ConfigSpot) -> Way<'v> {
    let name = spot.field.name();
    let way = way_to(spot.place);
    if name.is_empty() {
        way
    } else {
        way.then(name, None)
    }
}

fn choice_site<'v>(top: &'v Table, spot: ConfigSpot, kind: Kind) -> Site<'v> {
    Site::of_known(top, way_to_choices(spot), kind_name(kind), None)
}

fn known_site<'v>(top: &'v Table, spot: ConfigSpot) -> Site<'v> {
    Site::of_known(top, way_to(spot.place), spot.field.name(), None)
}

// The way to the table of a place.
fn way_to<'v>(place: ConfigPlace) -> Way<'v> {
    match place {
        ConfigPlace::Top => Way::top(),
        ConfigPlace::Reader(number) => Way::top().element("reader", number),
        ConfigPlace::View(number) => Way::top().element("view", number),
    }
}

// The table of a place as a person knows it.
fn subject_of<'v>(top: &'v Table, place: ConfigPlace) -> Option<Named<'v>> {
    match place {
        ConfigPlace::Top => None,
        ConfigPlace::Reader(number) => {
            let name = match table_on(top, way_to(place)) {
                Some(table) => name_in(table),
                None => None,
            };
            Some(Named::new("reader", number, name))
        }
        ConfigPlace::View(number) => Some(Named::new("view", number, None)),
    }
}

// The kind of instrument whose choice is wrong.
fn part_of(spot: ConfigSpot) -> &'static str {
    match spot.kind {
        Some(kind) => kind_name(kind),
        None => "",
    }
}

// What is wrong with the field.
fn wrong_of<'v>(alloc: Global, defect: ViewDefect, spot: ConfigSpot, site: Site<'v>) -> Wrong<'v> {
    let value = site.value;
    match defect {
        ViewDefect::MissingField => site.missing(),
        ViewDefect::WrongKind => wrong_kind(spot, value),
        ViewDefect::UnknownField => Wrong::Unknown(site.name, known_names(spot.field, spot.place)),
        ViewDefect::BadPattern => of_pattern(alloc, value),
        ViewDefect::BadName => match spot.field {
            ConfigField::StreamName => of_name(alloc, value),
            _ => of_value(value, "a name, which has one character at least"),
        },
        ViewDefect::BadBoundaries => of_boundaries(value),
        ViewDefect::BadLimit => of_value(value, "a whole number from 1 to 1000000"),
        ViewDefect::DuplicateReader => Wrong::Plain(": an earlier reader has the same name"),
        ViewDefect::TooMany => Wrong::TooMany(most_of(spot.field, value)),
    }
}

// That a value is of another kind than the field takes.
fn wrong_kind<'v>(spot: ConfigSpot, value: Option<&'v Value>) -> Wrong<'v> {
    match spot.field {
        ConfigField::Format => of_format(value, "config", "1"),
        ConfigField::Reader | ConfigField::View => of_list(value, Entries::Tables),
        ConfigField::InstrumentType => of_word(value, kind_names()),
        ConfigField::Boundaries => of_list(value, Entries::Numbers),
        ConfigField::Keep | ConfigField::Exclude => of_list(value, Entries::Texts),
        ConfigField::Temporality | ConfigField::Aggregation | ConfigField::Limit => {
            wrong_choice(spot, value)
        }
        ConfigField::Unknown
        | ConfigField::Name
        | ConfigField::InstrumentName
        | ConfigField::InstrumentUnit
        | ConfigField::MeterName
        | ConfigField::MeterVersion
        | ConfigField::MeterSchemaUrl
        | ConfigField::StreamName
        | ConfigField::Description => of_value(value, "text"),
    }
}

// That a reader's choice for a kind, or what a view chooses, is of another kind.
fn wrong_choice<'v>(spot: ConfigSpot, value: Option<&'v Value>) -> Wrong<'v> {
    match (spot.place, spot.kind, spot.field) {
        (ConfigPlace::Reader(_), None, _) => of_value(value, "a table"),
        (_, _, ConfigField::Limit) => of_value(value, "a whole number"),
        (_, _, ConfigField::Temporality) => of_word(value, temporality_words()),
        (_, Some(Kind::Gauge), _) => of_word(value, gauge_aggregation_words()),
        _ => of_word(value, aggregation_words()),
    }
}

// The most that a field may have.
fn most_of(field: ConfigField, value: Option<&Value>) -> &'static str {
    match field {
        ConfigField::Reader => "16 readers",
        ConfigField::View => "256 views",
        ConfigField::Boundaries => "128 boundaries",
        ConfigField::Keep | ConfigField::Exclude => most_of_keys(value),
        ConfigField::Unknown
        | ConfigField::Format
        | ConfigField::Name
        | ConfigField::Temporality
        | ConfigField::Aggregation
        | ConfigField::Limit
        | ConfigField::InstrumentName
        | ConfigField::InstrumentType
        | ConfigField::InstrumentUnit
        | ConfigField::MeterName
        | ConfigField::MeterVersion
        | ConfigField::MeterSchemaUrl
        | ConfigField::StreamName
        | ConfigField::Description => CHARACTERS,
    }
}

const CHARACTERS: &str = "1023 characters";

// The most keys of a list.
fn most_of_keys(value: Option<&Value>) -> &'static str {
    match value {
        Some(value) if value.as_array().is_some() => "64 keys, each of 1023 characters,",
        _ => CHARACTERS,
    }
}
