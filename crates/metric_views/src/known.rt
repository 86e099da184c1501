//! The names of the fields of each table.
ghost use Rattle.std.specs.Prelude.{◌≡◌, map};
ghost use Rattle.metric_table.specs.Fields.{now_of};
ghost use Rattle.metric_views.specs.FieldWords.{field_name, names_at};
ghost use Rattle.metric_views.specs.Readers.{kind_names};

use crate::by_kind::KIND_FIELDS;
use crate::fault::{ConfigField, ConfigPlace};
use crate::readers::READER_FIELDS;
use crate::reading::TOP_FIELDS;
use crate::views::VIEW_FIELDS;

impl ConfigField {
    /// The name of the field in a file, empty for one that the format does not name.
    pub fn name(self) -> &'static str
        ensures { result.now ≡ field_name self }
    {
        match self {
            ConfigField::Unknown => "",
            ConfigField::Format => "format",
            ConfigField::Reader => "reader",
            ConfigField::View => "view",
            ConfigField::Name => "name",
            ConfigField::Temporality => "temporality",
            ConfigField::Aggregation => "aggregation",
            ConfigField::Limit => "limit",
            ConfigField::InstrumentName => "instrument_name",
            ConfigField::InstrumentType => "instrument_type",
            ConfigField::InstrumentUnit => "instrument_unit",
            ConfigField::MeterName => "meter_name",
            ConfigField::MeterVersion => "meter_version",
            ConfigField::MeterSchemaUrl => "meter_schema_url",
            ConfigField::StreamName => "stream_name",
            ConfigField::Description => "description",
            ConfigField::Boundaries => "boundaries",
            ConfigField::Keep => "keep",
            ConfigField::Exclude => "exclude",
        }
    }
}

/// The names of the fields that a table may have, in the order in which they are read.
#[tactic(auto, using(crate::proofs::FieldNames::field_names))]
pub fn field_names(place: ConfigPlace) -> &'static [&'static str]
    ensures { map now_of result.now ≡ names_at place }
{
    match place {
        ConfigPlace::Top => &TOP_FIELDS,
        ConfigPlace::Reader(_) => &READER_FIELDS,
        ConfigPlace::View(_) => &VIEW_FIELDS,
    }
}

/// The names of the kinds of instruments, as a reader's tables of choices have them.
#[tactic(auto, using(crate::proofs::FieldNames::field_names))]
pub fn kind_names() -> &'static [&'static str]
    ensures { map now_of result.now ≡ kind_names }
{
    &KIND_FIELDS
}
