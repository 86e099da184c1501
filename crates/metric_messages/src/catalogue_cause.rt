//! The cause of a fault of a catalogue, and the way to its field.
use crate::cause::{Cause, Named};
use crate::mistake::{Mistake, Wrong};
use crate::reasons::{
    Entries, number_of, of_boundaries, of_format, of_list, of_name, of_range, of_repeated, of_span,
    of_unit, of_value, of_word,
};
use crate::site::Site;
use crate::standing_tables::entry_in;
use crate::tables::{
    id_in, instrument_at, instrument_count, is_among, name_in, near_id, near_instrument,
    other_field,
};
use crate::way::{Way, table_on};
use metric_catalogue::{
    CatalogueDefect, CatalogueField, CataloguePlace, CatalogueSpot, field_names, names_in,
};
use metric_views::kind_names;
use std::alloc::Global;
use toml::{Table, Value};

// The way to what is wrong in the top table of a catalogue, and the cause.
pub(crate) fn catalogue_cause<'v>(
    alloc: Global,
    top: &'v Table,
    defect: CatalogueDefect,
    spot: CatalogueSpot,
) -> (Way<'v>, Cause<'v>) {
    let site = site_of(top, defect, spot);
    let mistake = Mistake {
        field: spot.field.name(),
        part: "",
        wrong: wrong_of(alloc, top, defect, spot, site),
    };
    let (outer, inner) = subjects_of(top, spot.place);
    (
        site.way,
        Cause {
            outer,
            inner,
            mistake,
        },
    )
}

// Where the field of a spot is, and its value.
fn site_of<'v>(top: &'v Table, defect: CatalogueDefect, spot: CatalogueSpot) -> Site<'v> {
    match (defect, spot.entry) {
        (CatalogueDefect::UnknownField, None) => unknown_site(top, spot),
        _ => known_site(top, spot),
    }
}

// Where the field is that the table of a spot does not know.
fn unknown_site<'v>(top: &'v Table, spot: CatalogueSpot) -> Site<'v> {
    let names = field_names(spot.place, format_of(top));
    Site::of_other(top, way_to(top, spot.place), names)
}

fn known_site<'v>(top: &'v Table, spot: CatalogueSpot) -> Site<'v> {
    let way = way_to_field(top, spot);
    Site::of_known(top, way, spot.field.name(), entry_in(spot))
}

// The way to the table that has the field of a spot: of an instrument that lacks it, to its group.
fn way_to_field<'v>(top: &Table, spot: CatalogueSpot) -> Way<'v> {
    match spot.place {
        CataloguePlace::Instrument(number) => {
            way_to_group(top, number, spot.field.name()).unwrap_or(way_to(top, spot.place))
        }
        place => way_to(top, place),
    }
}

// The way to the group of an instrument that lacks a field which its group has.
fn way_to_group<'v>(top: &Table, number: u32, field: &str) -> Option<Way<'v>> {
    let at = instrument_at(top, number as usize);
    let group = Way::top()
        .then("meter", Some(at.meter))
        .then("group", Some(at.group?));
    let own = table_on(top, way_to_instrument(top, number))?;
    if own.get(field).is_none() && table_on(top, group)?.get(field).is_some() {
        Some(group)
    } else {
        None
    }
}

// The number of the format, where the file has it.
fn format_of(top: &Table) -> u8 {
    match number_of(top.get("format")) {
        Some(1) => 1,
        Some(3) => 3,
        _ => 2,
    }
}

// The way to the table of a place.
fn way_to<'v>(top: &Table, place: CataloguePlace) -> Way<'v> {
    match place {
        CataloguePlace::Top => Way::top(),
        CataloguePlace::Meter(number) => Way::top().element("meter", number),
        CataloguePlace::Instrument(number) => way_to_instrument(top, number),
        CataloguePlace::Key(number, key) => way_to_group(top, number, "key")
            .unwrap_or(way_to_instrument(top, number))
            .element("key", key),
        CataloguePlace::SharedKey(number) => Way::top().element("key", number),
        CataloguePlace::Recorder(number) => Way::top().element("recorder", number),
        CataloguePlace::Budget(number, budget) => Way::top()
            .element("recorder", number)
            .element("budget", budget),
    }
}

fn way_to_instrument<'v>(top: &Table, number: u32) -> Way<'v> {
    let at = instrument_at(top, number as usize);
    let meter = Way::top().then("meter", Some(at.meter));
    let list = match at.group {
        Some(group) => meter.then("group", Some(group)),
        None => meter,
    };
    list.then("instrument", Some(at.number))
}

// The table of a place as a person knows it, with the one that it stands in where that is an instrument or a recorder.
fn subjects_of<'v>(
    top: &'v Table,
    place: CataloguePlace,
) -> (Option<Named<'v>>, Option<Named<'v>>) {
    let name = name_on(top, place);
    match place {
        CataloguePlace::Top => (None, None),
        CataloguePlace::Meter(number) => (Some(Named::new("meter", number, name)), None),
        CataloguePlace::Instrument(number) => (Some(Named::new("instrument", number, name)), None),
        CataloguePlace::Recorder(number) => (Some(Named::new("recorder", number, name)), None),
        CataloguePlace::SharedKey(number) => (Some(Named::new("key", number, name)), None),
        CataloguePlace::Key(number, key) => {
            let outer = name_on(top, CataloguePlace::Instrument(number));
            let outer = Named::new("instrument", number, outer);
            (Some(outer), Some(Named::new("key", key, name)))
        }
        CataloguePlace::Budget(number, budget) => {
            let outer = name_on(top, CataloguePlace::Recorder(number));
            let outer = Named::new("recorder", number, outer);
            (Some(outer), Some(Named::new("budget", budget, None)))
        }
    }
}

fn name_on(top: &Table, place: CataloguePlace) -> Option<&str> {
    let table = table_on(top, way_to(top, place))?;
    match place {
        CataloguePlace::SharedKey(_) => id_in(table),
        _ => name_in(table),
    }
}

// What is wrong with the field.
fn wrong_of<'v>(
    alloc: Global,
    top: &'v Table,
    defect: CatalogueDefect,
    spot: CatalogueSpot,
    site: Site<'v>,
) -> Wrong<'v> {
    let value = site.value;
    match defect {
        CatalogueDefect::MissingField => missing(spot, site),
        CatalogueDefect::WrongKind => wrong_kind(top, spot, value),
        CatalogueDefect::UnknownField => unknown_field(top, spot, site),
        CatalogueDefect::BadName => bad_name(alloc, spot, value),
        CatalogueDefect::BadUnit => of_unit(alloc, value),
        CatalogueDefect::BadRange => bad_range(spot, value),
        CatalogueDefect::BadBoundaries => of_boundaries(value),
        CatalogueDefect::DuplicateValue => of_repeated(value),
        CatalogueDefect::UnknownInstrument => no_instrument(top, spot, value),
        CatalogueDefect::AmbiguousInstrument => {
            Wrong::Entry(budget_name(spot, value), AMBIGUOUS)
        }
        CatalogueDefect::UnknownKey => no_key(top, value),
        CatalogueDefect::TooMany => Wrong::TooMany(most_of(spot)),
        CatalogueDefect::BadCombination => Wrong::Combination(spot.entry.unwrap_or(0), UNFIT),
        CatalogueDefect::DuplicateCombination => {
            Wrong::Combination(spot.entry.unwrap_or(0), REPEATED)
        }
        CatalogueDefect::DuplicateMeter => Wrong::Plain(SAME_METER),
        CatalogueDefect::DuplicateInstrument => Wrong::Plain(SAME_INSTRUMENT),
        CatalogueDefect::DuplicateKey => Wrong::Plain(match spot.field {
            CatalogueField::Id => SAME_ID,
            _ => SAME_KEY,
        }),
        CatalogueDefect::DuplicateRecorder => Wrong::Plain(SAME_RECORDER),
        CatalogueDefect::DuplicateBudget => Wrong::Plain(match spot.place {
            CataloguePlace::Budget(_, _) => SAME_BUDGET,
            _ => TWO_BUDGETS,
        }),
        CatalogueDefect::ReservedKey => Wrong::Plain(RESERVED),
    }
}

const UNFIT: &str =
    " does not fit the keys: it has one entry for each key, the number of a value from 1 on, or 0 if the key is optional";

const REPEATED: &str = " repeats an earlier one";

const SAME_METER: &str = ": an earlier meter has the same name, version and schema_url";

const SAME_INSTRUMENT: &str =
    ": an earlier instrument of the meter has the same name, without ASCII case";

const SAME_KEY: &str = ": an earlier key of the instrument has the same name";

const SAME_ID: &str = ": an earlier key has the same id";

const TWO_BUDGETS: &str = ": it names an instrument twice, by its name alone and after its meter";

const AMBIGUOUS: &str =
    " stands for instruments of several meters: write that of the meter and a slash before it";

const NO_AMOUNT: &str = " is not a whole number from 0 on";

const SAME_RECORDER: &str = ": an earlier recorder has the same name";

const SAME_BUDGET: &str = ": an earlier budget of the recorder is for the same instrument";

const RESERVED: &str = ": this name marks the overflow point, and no key may have it";

// That a field is missing, or a field of a table in the list that it is.
fn missing<'v>(spot: CatalogueSpot, site: Site<'v>) -> Wrong<'v> {
    match (spot.entry, site.value) {
        (Some(number), Some(value)) => Wrong::EntryNotA(number, value, SPAN),
        _ => site.missing(),
    }
}

const SPAN: &str = "a range with from and to, two whole numbers";

// That a value is of another kind than the field takes.
fn wrong_kind<'v>(top: &Table, spot: CatalogueSpot, value: Option<&'v Value>) -> Wrong<'v> {
    match spot.field {
        CatalogueField::Format => of_format(value, "catalogue", formats_of(top)),
        CatalogueField::Kind => of_word(value, kind_names()),
        CatalogueField::Range => of_value(value, "two whole numbers"),
        CatalogueField::Boundaries => of_list(value, Entries::Numbers),
        CatalogueField::Spare | CatalogueField::Amount | CatalogueField::Count => {
            of_value(value, "a whole number")
        }
        CatalogueField::Optional => of_value(value, "true or false"),
        CatalogueField::Values | CatalogueField::Allowed => wrong_entry(top, spot, value),
        CatalogueField::Key => wrong_key(spot, value),
        CatalogueField::Budget if format_of(top) == 3 => match spot.place {
            CataloguePlace::Instrument(_) => of_value(value, "a whole number"),
            _ => of_value(value, "a table of numbers by the names of instruments"),
        },
        CatalogueField::Meter | CatalogueField::Recorder | CatalogueField::Budget => {
            of_list(value, Entries::Tables)
        }
        CatalogueField::Group => wrong_group(spot, value),
        CatalogueField::Instrument => match spot.place {
            CataloguePlace::Budget(_, _) => of_value(value, "the number of an instrument"),
            _ => of_list(value, Entries::Tables),
        },
        CatalogueField::Unknown
        | CatalogueField::Id
        | CatalogueField::Name
        | CatalogueField::Version
        | CatalogueField::SchemaUrl
        | CatalogueField::Unit
        | CatalogueField::Other
        | CatalogueField::Description => of_value(value, "text"),
    }
}

// The formats that may stand in place of the one of a file: one of format 3 has a fault there where it was not opened.
fn formats_of(top: &Table) -> &'static str {
    if format_of(top) == 3 {
        "1 and 2"
    } else {
        "1 to 3"
    }
}

// That the list of groups, or the instruments of an entry of it, are of another kind.
fn wrong_group<'v>(spot: CatalogueSpot, value: Option<&'v Value>) -> Wrong<'v> {
    match (spot.entry, value) {
        (Some(number), Some(value)) => {
            Wrong::EntryNotA(
                number,
                value,
                "a group, whose instrument is a list of tables",
            )
        }
        _ => of_list(value, Entries::Tables),
    }
}

// That the list of an instrument's keys, or an entry of it, is of another kind.
fn wrong_key<'v>(spot: CatalogueSpot, value: Option<&'v Value>) -> Wrong<'v> {
    match (spot.entry, value) {
        (Some(number), Some(value)) => {
            Wrong::EntryNotA(number, value, "the id of a key, or a table")
        }
        _ => of_list(value, Entries::Tables),
    }
}

// That no instrument has the number, or the name, that a budget has.
fn no_instrument<'v>(top: &'v Table, spot: CatalogueSpot, value: Option<&'v Value>) -> Wrong<'v> {
    match (spot.place, number_of(value)) {
        (CataloguePlace::Recorder(_), _) => {
            let name = budget_name(spot, value);
            Wrong::NoSuch(
                "no instrument has the name ",
                name,
                near_instrument(top, name),
            )
        }
        (_, Some(number)) => Wrong::NoInstrument(number, instrument_count(top)),
        _ => of_value(value, "the number of an instrument"),
    }
}

// The name of the budget that a spot is of, in the order of names.
fn budget_name<'v>(spot: CatalogueSpot, value: Option<&'v Value>) -> &'v str {
    let Some(Value::Table(budget)) = value else {
        return "";
    };
    match budget.keys().nth(spot.entry.unwrap_or(0) as usize) {
        Some(name) => name.as_str(),
        None => "",
    }
}

// That no key has the id that an instrument names.
fn no_key<'v>(top: &'v Table, value: Option<&'v Value>) -> Wrong<'v> {
    let id = match value {
        Some(value) => value.as_str().unwrap_or(""),
        None => "",
    };
    Wrong::NoSuch("no key has the id ", id, near_id(top, id))
}

// That a value of a key or a combination, or the list of them, is of another kind.
fn wrong_entry<'v>(top: &Table, spot: CatalogueSpot, value: Option<&'v Value>) -> Wrong<'v> {
    match (spot.entry, value, spot.field) {
        (Some(number), Some(value), CatalogueField::Values) => {
            Wrong::EntryNotA(number, value, value_words(top, value))
        }
        (Some(number), Some(value), _) => Wrong::EntryNotA(
            number,
            value,
            "a list of whole numbers",
        ),
        _ => of_value(value, "a list"),
    }
}

// What a value of a key is to be, where it is none.
fn value_words(top: &Table, value: &Value) -> &'static str {
    if value.as_table().is_some() && format_of(top) == 3 {
        SPAN
    } else {
        "text, a whole number, true or false"
    }
}

// That the table does not know a field, or does only in a later or an earlier format.
fn unknown_field<'v>(top: &Table, spot: CatalogueSpot, site: Site<'v>) -> Wrong<'v> {
    if spot.entry.is_some() {
        let names = names_in(spot.field);
        return Wrong::Unknown(other_in(site.value, names), names);
    }
    let name = site.name;
    if is_among(field_names(spot.place, 2), name) {
        return if format_of(top) == 3 {
            Wrong::Earlier(name, "budget")
        } else {
            Wrong::Later(name)
        };
    }
    Wrong::Unknown(name, field_names(spot.place, format_of(top)))
}

// The first field of a table, by name, that is none of these.
fn other_in<'v>(value: Option<&'v Value>, names: &[&str]) -> &'v str {
    match value {
        Some(Value::Table(table)) => other_field(table, names).unwrap_or(""),
        _ => "",
    }
}

fn bad_name<'v>(alloc: Global, spot: CatalogueSpot, value: Option<&'v Value>) -> Wrong<'v> {
    match spot.place {
        CataloguePlace::Instrument(_) => of_name(alloc, value),
        _ => of_value(value, "a name, which has one character at least"),
    }
}

fn bad_range<'v>(spot: CatalogueSpot, value: Option<&'v Value>) -> Wrong<'v> {
    match spot.field {
        CatalogueField::Range => of_range(value),
        CatalogueField::Values => of_span(value),
        CatalogueField::Count => of_value(value, "a whole number from 1 to 64"),
        CatalogueField::Budget => match spot.place {
            CataloguePlace::Instrument(_) => of_value(value, "a whole number from 0 on"),
            _ => Wrong::Entry(budget_name(spot, value), NO_AMOUNT),
        },
        _ => of_value(value, "a whole number from 0 on"),
    }
}

// The most that a field may have.
fn most_of(spot: CatalogueSpot) -> &'static str {
    match spot.field {
        CatalogueField::Meter => "64 meters",
        CatalogueField::Recorder => "64 recorders",
        CatalogueField::Instrument => INSTRUMENTS,
        CatalogueField::Group => match spot.entry {
            Some(_) => INSTRUMENTS,
            None => "64 groups",
        },
        CatalogueField::Boundaries => "128 boundaries",
        CatalogueField::Key => match spot.place {
            CataloguePlace::Top => "512 keys",
            _ => "8 keys",
        },
        CatalogueField::Allowed => "4096 combinations",
        CatalogueField::Values => most_of_values(spot.entry),
        CatalogueField::Budget => "512 budgets",
        CatalogueField::Other => "1000 values with it, and 1023 characters,",
        CatalogueField::Unknown
        | CatalogueField::Format
        | CatalogueField::Id
        | CatalogueField::Count
        | CatalogueField::Name
        | CatalogueField::Version
        | CatalogueField::SchemaUrl
        | CatalogueField::Kind
        | CatalogueField::Unit
        | CatalogueField::Description
        | CatalogueField::Range
        | CatalogueField::Spare
        | CatalogueField::Optional
        | CatalogueField::Amount => CHARACTERS,
    }
}

const INSTRUMENTS: &str = "512 instruments of all meters";

const CHARACTERS: &str = "1023 characters";

// The most values, or characters of one value.
fn most_of_values(entry: Option<u32>) -> &'static str {
    match entry {
        Some(_) => CHARACTERS,
        None => "1000 values",
    }
}
