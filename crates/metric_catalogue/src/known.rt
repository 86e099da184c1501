//! The names of the fields of each table.
ghost use Rattle.std.specs.Prelude.{◌≡◌, map};
ghost use Rattle.metric_table.specs.Fields.{now_of};
ghost use Rattle.metric_catalogue.specs.Catalogues.{top_names};
ghost use Rattle.metric_catalogue.specs.FieldWords.{field_name, names_at, names_in};
ghost use Rattle.metric_catalogue.specs.Instruments.{instrument_fields};
ghost use Rattle.metric_catalogue.specs.Meters.{meter_names};

use crate::catalogue::{SHARED_TOP_FIELDS, TOP_FIELDS};
use crate::fault::{CatalogueField, CataloguePlace};
use crate::groups::GROUP_FIELDS;
use crate::instruments::{INSTRUMENT_FIELDS, SHARED_INSTRUMENT_FIELDS};
use crate::keys::KEY_FIELDS;
use crate::meters::{METER_FIELDS, SHARED_METER_FIELDS};
use crate::recorders::{BUDGET_FIELDS, RECORDER_FIELDS};
use crate::seats::SEAT_FIELDS;
use crate::shared_keys::SHARED_FIELDS;
use crate::values::SPAN_FIELDS;

impl CatalogueField {
    /// The name of the field in a file, empty for one that the format does not name.
    pub fn name(self) -> &'static str
        ensures { result.now ≡ field_name self }
    {
        match self {
            CatalogueField::Unknown => "",
            CatalogueField::Format => "format",
            CatalogueField::Id => "id",
            CatalogueField::Meter => "meter",
            CatalogueField::Recorder => "recorder",
            CatalogueField::Name => "name",
            CatalogueField::Version => "version",
            CatalogueField::SchemaUrl => "schema_url",
            CatalogueField::Instrument => "instrument",
            CatalogueField::Group => "group",
            CatalogueField::Kind => "kind",
            CatalogueField::Unit => "unit",
            CatalogueField::Description => "description",
            CatalogueField::Range => "range",
            CatalogueField::Boundaries => "boundaries",
            CatalogueField::Key => "key",
            CatalogueField::Allowed => "allowed",
            CatalogueField::Spare => "spare",
            CatalogueField::Values => "values",
            CatalogueField::Other => "other",
            CatalogueField::Optional => "optional",
            CatalogueField::Count => "count",
            CatalogueField::Budget => "budget",
            CatalogueField::Amount => "amount",
        }
    }
}

// The names of the fields of the top table.
#[tactic(auto, using(crate::proofs::FieldNames::field_names))]
pub(crate) fn top_names(is_shared: bool) -> &'static [&'static str]
    ensures { map now_of result.now ≡ top_names is_shared }
{
    if is_shared {
        &SHARED_TOP_FIELDS
    } else {
        &TOP_FIELDS
    }
}

// The names of the fields of a meter.
#[tactic(auto, using(crate::proofs::FieldNames::field_names))]
pub(crate) fn meter_names(is_shared: bool) -> &'static [&'static str]
    ensures { map now_of result.now ≡ meter_names is_shared }
{
    if is_shared {
        &SHARED_METER_FIELDS
    } else {
        &METER_FIELDS
    }
}

// The names of the fields of an instrument, of which format 1 has all but the last two, and format 3 another last.
#[tactic(auto, using(crate::proofs::FieldNames::field_names))]
pub(crate) fn instrument_names(format: u8) -> &'static [&'static str]
    ensures { map now_of result.now ≡ instrument_fields format }
{
    if format == 1 {
        &INSTRUMENT_FIELDS[..7]
    } else if format == 3 {
        &SHARED_INSTRUMENT_FIELDS
    } else {
        &INSTRUMENT_FIELDS
    }
}

/// The names of the fields that a table may have in a file of this format, in the order in which they are read.
#[tactic(auto, using(crate::proofs::FieldNames::field_names))]
pub fn field_names(place: CataloguePlace, format: u8) -> &'static [&'static str]
    ensures { map now_of result.now ≡ names_at format place }
{
    match place {
        CataloguePlace::Top => top_names(format == 3),
        CataloguePlace::Meter(_) => meter_names(format == 3),
        CataloguePlace::Instrument(_) => instrument_names(format),
        CataloguePlace::Key(_, _) => &KEY_FIELDS,
        CataloguePlace::SharedKey(_) => &SHARED_FIELDS,
        CataloguePlace::Recorder(_) => if format == 3 {
            &SEAT_FIELDS
        } else {
            &RECORDER_FIELDS
        },
        CataloguePlace::Budget(_, _) => &BUDGET_FIELDS,
    }
}

/// The names of the fields of a table that stands in the list of a field: of a range among the values of a key, of a group
/// of a meter.
#[tactic(auto, using(crate::proofs::FieldNames::field_names))]
pub fn names_in(field: CatalogueField) -> &'static [&'static str]
    ensures { map now_of result.now ≡ names_in field }
{
    match field {
        CatalogueField::Values => &SPAN_FIELDS,
        CatalogueField::Group => &GROUP_FIELDS,
        _ => &[],
    }
}
