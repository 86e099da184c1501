//! Why a text is no catalogue.
ghost use Rattle.std.specs.Prelude.{◌≡◌};
ghost use Rattle.metric_catalogue.specs.Faults.{entry_at, field_at};

use std::alloc::AllocError;
use std::fmt;
use thiserror::Error;

/// The table that has a fault. Meters, instruments and recorders are numbered from 0 in the order of the file,
/// instruments through all meters, of each its own before those of its groups; keys from 0 in their instrument, and
/// budgets in their recorder.
#[derive(Clone, Copy, Debug, PartialEq, Eq, Drop)]
pub enum CataloguePlace {
    /// The top table.
    Top,
    /// The meter of this number.
    Meter(u32),
    /// The instrument of this number.
    Instrument(u32),
    /// Of the instrument of the first number, the key of the second.
    Key(u32, u32),
    /// The key of this number among those that instruments name by their ids.
    SharedKey(u32),
    /// The recorder of this number.
    Recorder(u32),
    /// Of the recorder of the first number, the budget of the second.
    Budget(u32, u32),
}

/// A field of a table of a catalogue.
#[derive(Clone, Copy, Debug, PartialEq, Eq, Drop)]
pub enum CatalogueField {
    /// A field that the format does not name for the table: the first such one, by name.
    Unknown,
    /// `format` at the top.
    Format,
    /// `id` of a key.
    Id,
    /// `meter` at the top.
    Meter,
    /// `recorder` at the top.
    Recorder,
    /// `name` of a meter, an instrument, a key or a recorder.
    Name,
    /// `version` of a meter.
    Version,
    /// `schema_url` of a meter.
    SchemaUrl,
    /// `instrument` of a meter, or of a budget.
    Instrument,
    /// `group` of a meter; an entry of it is a group, with its own `instrument` and what it has that is unknown.
    Group,
    /// `kind` of an instrument.
    Kind,
    /// `unit` of an instrument.
    Unit,
    /// `description` of an instrument.
    Description,
    /// `range` of an instrument.
    Range,
    /// `boundaries` of an instrument.
    Boundaries,
    /// `key` of an instrument, or at the top.
    Key,
    /// `allowed` of an instrument.
    Allowed,
    /// `spare` of an instrument in format 2.
    Spare,
    /// `values` of a key.
    Values,
    /// `other` of a key.
    Other,
    /// `optional` of a key.
    Optional,
    /// `count` of a recorder.
    Count,
    /// `budget` of a recorder, in format 3 also of an instrument.
    Budget,
    /// `amount` of a budget.
    Amount,
}

/// Where a fault is: the field of a table, and the entry of its list where the fault is of one.
#[derive(Clone, Copy, Debug, PartialEq, Eq, Drop)]
pub struct CatalogueSpot {
    /// The table.
    pub place: CataloguePlace,
    /// The first of its fields that is wrong.
    pub field: CatalogueField,
    /// The number of the entry in the field's list, or among the names of its table in their order, from 0.
    pub entry: Option<u32>,
}

impl CataloguePlace {
    // A field of the table.
    pub(crate) fn field(self, field: CatalogueField) -> CatalogueSpot
        ensures { result ≡ field_at self field }
    {
        CatalogueSpot {
            place: self,
            field,
            entry: None,
        }
    }
}

impl CatalogueSpot {
    // An entry of the field's list.
    pub(crate) fn entry(self, number: u32) -> CatalogueSpot
        ensures { result ≡ entry_at self number }
    {
        CatalogueSpot {
            place: self.place,
            field: self.field,
            entry: Some(number),
        }
    }
}

impl fmt::Display for CatalogueSpot {
    ghost use Rattle.std.specs.Prelude.{Some};
    ghost use Rattle.metric_catalogue.specs.FaultPlaces.{place_text};

    ghost output = { λ spot. Some (place_text spot.place) };

    fn fmt<W: fmt::Write>(&self, f: &mut fmt::Formatter<W>) -> fmt::Result {
        self.place.fmt(f)
    }
}

/// What is wrong with a table of a catalogue.
#[derive(Clone, Copy, Debug, PartialEq, Eq, Drop)]
pub enum CatalogueDefect {
    /// A needed field is missing, or a key has an empty list of values.
    MissingField,
    /// A field's value is of another kind than the format says.
    WrongKind,
    /// The table has a field that the format does not name.
    UnknownField,
    /// An instrument's name is no name, or a key's or recorder's name is empty.
    BadName,
    /// An instrument's unit is no unit.
    BadUnit,
    /// An earlier meter has the same name, version and schema URL.
    DuplicateMeter,
    /// An earlier instrument of the meter has the same name without ASCII case.
    DuplicateInstrument,
    /// An earlier key of the instrument has the same name, or an earlier key the same id.
    DuplicateKey,
    /// A value stands twice in a key's list.
    DuplicateValue,
    /// A key has the name of the attribute that marks the overflow point.
    ReservedKey,
    /// A range is empty, also one among values, a counter's or histogram's has negative values, an amount is negative,
    /// or a count is not from 1 to 64.
    BadRange,
    /// Boundaries do not rise strictly.
    BadBoundaries,
    /// A budget is for an instrument that the catalogue does not have.
    UnknownInstrument,
    /// An earlier recorder has the same name.
    DuplicateRecorder,
    /// An earlier budget of the recorder is for the same instrument.
    DuplicateBudget,
    /// A list or a text is longer than its limit.
    TooMany,
    /// A row of allowed combinations has not one entry for each key, or one that the key does not have.
    BadCombination,
    /// A row of allowed combinations stands twice.
    DuplicateCombination,
    /// No key has the id that an instrument names.
    UnknownKey,
    /// Instruments of several meters have the name that a budget has.
    AmbiguousInstrument,
}

/// Why a text is no catalogue.
#[derive(Clone, Copy, Debug, PartialEq, Eq, Drop, Error)]
pub enum CatalogueFault {
    /// The text is no TOML.
    #[error("1 NotToml")]
    NotToml,
    /// The field of a table has a defect, and is the first that has one.
    #[error("{0} at {1}")]
    At(CatalogueDefect, CatalogueSpot),
    /// Out of memory.
    #[error("18 Memory")]
    Memory,
}

impl From<AllocError> for CatalogueFault {
    ghost use Rattle.std.specs.Prelude.{◌≡◌};
    ghost use Rattle.metric_catalogue.specs.declared.fault.CatalogueFault.TheVariants.{Memory};

    ghost from_gives = { λ _ e. e ≡ Memory };

    fn from(_refused: AllocError) -> CatalogueFault {
        CatalogueFault::Memory
    }
}

impl fmt::Display for CatalogueDefect {
    ghost use Rattle.std.specs.Prelude.{Some};
    ghost use Rattle.metric_catalogue.specs.Defects.{defect_text};

    ghost output = { λ defect. Some (defect_text defect) };

    fn fmt<W: fmt::Write>(&self, f: &mut fmt::Formatter<W>) -> fmt::Result {
        f.write_str(match self {
            CatalogueDefect::MissingField => "2 MissingField",
            CatalogueDefect::WrongKind => "3 WrongKind",
            CatalogueDefect::UnknownField => "4 UnknownField",
            CatalogueDefect::BadName => "5 BadName",
            CatalogueDefect::BadUnit => "6 BadUnit",
            CatalogueDefect::DuplicateMeter => "7 DuplicateMeter",
            CatalogueDefect::DuplicateInstrument => "8 DuplicateInstrument",
            CatalogueDefect::DuplicateKey => "9 DuplicateKey",
            CatalogueDefect::DuplicateValue => "10 DuplicateValue",
            CatalogueDefect::ReservedKey => "11 ReservedKey",
            CatalogueDefect::BadRange => "12 BadRange",
            CatalogueDefect::BadBoundaries => "13 BadBoundaries",
            CatalogueDefect::UnknownInstrument => "14 UnknownInstrument",
            CatalogueDefect::DuplicateRecorder => "15 DuplicateRecorder",
            CatalogueDefect::DuplicateBudget => "16 DuplicateBudget",
            CatalogueDefect::TooMany => "17 TooMany",
            CatalogueDefect::BadCombination => "19 BadCombination",
            CatalogueDefect::DuplicateCombination => "20 DuplicateCombination",
            CatalogueDefect::UnknownKey => "21 UnknownKey",
            CatalogueDefect::AmbiguousInstrument => "22 AmbiguousInstrument",
        })
    }
}

impl fmt::Display for CataloguePlace {
    ghost use Rattle.std.specs.Prelude.{Some};
    ghost use Rattle.metric_catalogue.specs.FaultPlaces.{place_text};

    ghost output = { λ place. Some (place_text place) };

    fn fmt<W: fmt::Write>(&self, f: &mut fmt::Formatter<W>) -> fmt::Result {
        match self {
            CataloguePlace::Top => f.write_str("top"),
            CataloguePlace::Meter(number) => write!(f, "meter {number}"),
            CataloguePlace::Instrument(number) | CataloguePlace::Key(number, _) => {
                write!(f, "instrument {number}")
            }
            CataloguePlace::SharedKey(number) => write!(f, "key {number}"),
            CataloguePlace::Recorder(number) | CataloguePlace::Budget(number, _) => {
                write!(f, "recorder {number}")
            }
        }
    }
}
