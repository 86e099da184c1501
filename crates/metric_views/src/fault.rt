//! Why a text is no config.
ghost use Rattle.std.specs.Prelude.{◌≡◌};
ghost use Rattle.metric_views.specs.Faults.{faults_at, field_at, of_kind};

use metric_contents::Kind;
use metric_table::FieldFaults;
use std::alloc::AllocError;
use std::fmt;
use thiserror::Error;

/// The reader or view whose table has a fault, each numbered from 0 in the order of the file.
#[derive(Clone, Copy, Debug, PartialEq, Eq, Drop)]
pub enum ConfigPlace {
    /// The top table.
    Top,
    /// The reader of this number.
    Reader(u32),
    /// The view of this number.
    View(u32),
}

/// A field of a table of a config.
#[derive(Clone, Copy, Debug, PartialEq, Eq, Drop)]
pub enum ConfigField {
    /// A field that the format does not name for the table: the first such one, by name.
    Unknown,
    /// `format` at the top.
    Format,
    /// `reader` at the top.
    Reader,
    /// `view` at the top.
    View,
    /// `name` of a reader.
    Name,
    /// `temporality` of a reader.
    Temporality,
    /// `aggregation` of a reader or a view.
    Aggregation,
    /// `limit` of a reader or a view.
    Limit,
    /// `instrument_name` of a view.
    InstrumentName,
    /// `instrument_type` of a view.
    InstrumentType,
    /// `instrument_unit` of a view.
    InstrumentUnit,
    /// `meter_name` of a view.
    MeterName,
    /// `meter_version` of a view.
    MeterVersion,
    /// `meter_schema_url` of a view.
    MeterSchemaUrl,
    /// `stream_name` of a view.
    StreamName,
    /// `description` of a view.
    Description,
    /// `boundaries` of a view.
    Boundaries,
    /// `keep` of a view.
    Keep,
    /// `exclude` of a view.
    Exclude,
}

/// Where a fault is: the field of a table, and where that has a choice for each kind of instrument, the kind.
#[derive(Clone, Copy, Debug, PartialEq, Eq, Drop)]
pub struct ConfigSpot {
    /// The table.
    pub place: ConfigPlace,
    /// The first of its fields that is wrong.
    pub field: ConfigField,
    /// The kind whose choice is wrong.
    pub kind: Option<Kind>,
}

impl ConfigPlace {
    // A field of the table.
    pub(crate) fn field(self, field: ConfigField) -> ConfigSpot
        ensures { result ≡ field_at self field }
    {
        ConfigSpot {
            place: self,
            field,
            kind: None,
        }
    }
}

impl ConfigSpot {
    // The choice of the field for a kind.
    pub(crate) fn of_kind(self, kind: Kind) -> ConfigSpot
        ensures { result ≡ of_kind self kind }
    {
        ConfigSpot {
            place: self.place,
            field: self.field,
            kind: Some(kind),
        }
    }
}

impl fmt::Display for ConfigSpot {
    ghost use Rattle.std.specs.Prelude.{Some};
    ghost use Rattle.metric_views.specs.Places.{place_text};

    ghost output = { λ spot. Some (place_text spot.place) };

    fn fmt<W: fmt::Write>(&self, f: &mut fmt::Formatter<W>) -> fmt::Result {
        self.place.fmt(f)
    }
}

/// What is wrong with a field of a config.
#[derive(Clone, Copy, Debug, PartialEq, Eq, Drop)]
pub enum ViewDefect {
    /// A needed field is missing.
    MissingField,
    /// A field's value is of another kind than the format says, or a reader names a sum for gauges.
    WrongKind,
    /// The table has a field that the format does not name.
    UnknownField,
    /// A view's instrument name is no pattern.
    BadPattern,
    /// A reader's name is empty, or a view's stream name is no instrument name.
    BadName,
    /// Boundaries do not rise strictly.
    BadBoundaries,
    /// A cardinality limit is outside 1 to 1,000,000.
    BadLimit,
    /// An earlier reader has the same name.
    DuplicateReader,
    /// A list or a text is longer than its limit.
    TooMany,
}

/// Why a text is no config.
#[derive(Clone, Copy, Debug, PartialEq, Eq, Drop, Error)]
pub enum ViewFault {
    /// The text is no TOML.
    #[error("1 NotToml")]
    NotToml,
    /// The field of a table has a defect, and is the first that has one.
    #[error("{0} at {1}")]
    At(ViewDefect, ConfigSpot),
    /// Out of memory.
    #[error("11 Memory")]
    Memory,
}

impl From<AllocError> for ViewFault {
    ghost use Rattle.std.specs.Prelude.{◌≡◌};
    ghost use Rattle.metric_views.specs.declared.fault.ViewFault.TheVariants.{Memory};

    ghost from_gives = { λ _ e. e ≡ Memory };

    fn from(_refused: AllocError) -> ViewFault {
        ViewFault::Memory
    }
}

impl fmt::Display for ConfigPlace {
    ghost use Rattle.std.specs.Prelude.{Some};
    ghost use Rattle.metric_views.specs.Places.{place_text};

    ghost output = { λ place. Some (place_text place) };

    fn fmt<W: fmt::Write>(&self, f: &mut fmt::Formatter<W>) -> fmt::Result {
        match self {
            ConfigPlace::Top => f.write_str("top"),
            ConfigPlace::Reader(number) => write!(f, "reader {number}"),
            ConfigPlace::View(number) => write!(f, "view {number}"),
        }
    }
}

impl fmt::Display for ViewDefect {
    ghost use Rattle.std.specs.Prelude.{Some};
    ghost use Rattle.metric_views.specs.Defects.{defect_text};

    ghost output = { λ defect. Some (defect_text defect) };

    fn fmt<W: fmt::Write>(&self, f: &mut fmt::Formatter<W>) -> fmt::Result {
        f.write_str(match self {
            ViewDefect::MissingField => "2 MissingField",
            ViewDefect::WrongKind => "3 WrongKind",
            ViewDefect::UnknownField => "4 UnknownField",
            ViewDefect::BadPattern => "5 BadPattern",
            ViewDefect::BadName => "6 BadName",
            ViewDefect::BadBoundaries => "7 BadBoundaries",
            ViewDefect::BadLimit => "8 BadLimit",
            ViewDefect::DuplicateReader => "9 DuplicateReader",
            ViewDefect::TooMany => "10 TooMany",
        })
    }
}

// What each fault of a field is that the format does not name for the table.
pub(crate) fn unknown_at(at: ConfigPlace) -> FieldFaults<ViewFault>
    ensures { result ≡ faults_at (field_at at ConfigField.Unknown) }
{
    faults_at(at.field(ConfigField::Unknown))
}

// What each fault of a field is.
pub(crate) fn faults_at(at: ConfigSpot) -> FieldFaults<ViewFault>
    ensures { result ≡ faults_at at }
{
    FieldFaults {
        missing: ViewFault::At(ViewDefect::MissingField, at),
        wrong_kind: ViewFault::At(ViewDefect::WrongKind, at),
        unknown: ViewFault::At(ViewDefect::UnknownField, at),
        too_many: ViewFault::At(ViewDefect::TooMany, at),
        memory: ViewFault::Memory,
    }
}
