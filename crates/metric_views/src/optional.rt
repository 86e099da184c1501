//! The fields of a view, each of which may be absent.
ghost use Rattle.std.specs.Prelude.{◌≡◌, Result, Ok, Err, MatchResult};
ghost use Rattle.toml.specs.Data.{Data};
ghost use Rattle.toml.specs.View.{table_view, view};
ghost use Rattle.metric_base.specs.Steps.{Gives, with_fault};
ghost use Rattle.metric_names.specs.Names.{name_of};
ghost use Rattle.metric_glob.specs.Patterns.{pattern_of};
ghost use Rattle.metric_views.specs.declared.fault.ConfigSpot.{ConfigSpot};
ghost use Rattle.metric_views.specs.declared.fault.ViewFault.{ViewFault};
ghost use Rattle.metric_views.specs.Views.{optional_field};

use crate::by_kind::{aggregation_of, limit_of, text_at};
use crate::choices::Aggregation;
use crate::fault::{ConfigSpot, ViewDefect, ViewFault, faults_at};
use metric_base::{Boundaries, Few, Shared, Text, is_rising};
use metric_contents::Kind;
use metric_glob::{Pattern, PatternFault};
use metric_names::{Name, NameFault};
use metric_table::{integers_of, member, short_text, text_of, texts_of};
use std::alloc::Global;
use toml::{Table, Value};

// A kind of field that a view can have. It is no type that crates above see: they would all carry what TOML's values
// are.
pub(crate) trait Field {
    // What such a field is read as.
    type Read: Drop;

    // What a value is read as, or its first fault.
    ghost read_as: { ConfigSpot → Data → Result Self.Read ViewFault };

    // What a value is read as.
    fn read(alloc: Global, value: &Value, at: ConfigSpot) -> Result<Self::Read, ViewFault>
        ensures { Gives ViewFault.Memory result (read_as at (view value.now)) };
}

// The value of a field, where the table has it.
#[tactic(auto, unfolding(crate::specs::Views::optional_field))]
pub(crate) fn optional_field<F: Field>(
    alloc: Global,
    table: &Table,
    name: &str,
    at: ConfigSpot,
) -> Result<Option<F::Read>, ViewFault>
    ensures { Gives ViewFault.Memory result
        (optional_field (F.read_as at) name.now (table_view table.now)) }
{
    match member(table, name) {
        Some(value) => {
            let value = F::read(alloc, value, at)?;
            Ok(Some(value))
        }
        None => Ok(None),
    }
}

// The value of a field that streams share, where the table has it.
pub(crate) fn shared_field<F: Field>(
    alloc: Global,
    table: &Table,
    name: &str,
    at: ConfigSpot,
) -> Result<Option<Shared<F::Read>>, ViewFault>
    ensures { Gives ViewFault.Memory result
        (optional_field (F.read_as at) name.now (table_view table.now)) }
{
    match optional_field::<F>(alloc, table, name, at)? {
        Some(value) => {
            let shared = Shared::new(alloc, value)?;
            Ok(Some(shared))
        }
        None => Ok(None),
    }
}

// A text.
pub(crate) struct TextField;

impl Field for TextField {
    ghost use Rattle.metric_views.specs.Views.{text_at};

    type Read = Text;

    ghost read_as = { text_at };

    #[tactic(auto, unfolding(crate::specs::Views::text_at, metric_table::specs::Fields::short_text_of))]
    fn read(alloc: Global, value: &Value, at: ConfigSpot) -> Result<Text, ViewFault> {
        let faults = faults_at(at);
        let text = text_of(value, &faults)?;
        let text = short_text(text, &faults)?;
        let text = Text::new(alloc, text)?;
        Ok(text)
    }
}

// A pattern.
pub(crate) struct PatternField;

impl Field for PatternField {
    ghost use Rattle.metric_views.specs.Views.{pattern_at};

    type Read = Pattern;

    ghost read_as = { pattern_at };

    #[tactic(auto, unfolding(crate::specs::Views::pattern_at))]
    fn read(alloc: Global, value: &Value, at: ConfigSpot) -> Result<Pattern, ViewFault> {
        let text = text_at(value, at)?;
        pattern(alloc, text, at)
    }
}

fn pattern(alloc: Global, text: &str, at: ConfigSpot) -> Result<Pattern, ViewFault>
    ensures { Gives ViewFault.Memory result
        (with_fault (λ _. ViewFault.At ViewDefect.BadPattern at) (pattern_of text.now)) }
{
    match Pattern::parse(alloc, text) {
        Ok(pattern) => Ok(pattern),
        Err(PatternFault::Memory) => Err(ViewFault::Memory),
        Err(_) => Err(ViewFault::At(ViewDefect::BadPattern, at)),
    }
}

// A name.
pub(crate) struct NameField;

impl Field for NameField {
    ghost use Rattle.metric_views.specs.Views.{name_at};

    type Read = Name;

    ghost read_as = { name_at };

    #[tactic(auto, unfolding(crate::specs::Views::name_at))]
    fn read(alloc: Global, value: &Value, at: ConfigSpot) -> Result<Name, ViewFault> {
        let text = text_at(value, at)?;
        name(alloc, text, at)
    }
}

fn name(alloc: Global, text: &str, at: ConfigSpot) -> Result<Name, ViewFault>
    ensures { Gives ViewFault.Memory result
        (with_fault (λ _. ViewFault.At ViewDefect.BadName at) (name_of text.now)) }
{
    match Name::parse(alloc, text) {
        Ok(name) => Ok(name),
        Err(NameFault::Memory) => Err(ViewFault::Memory),
        Err(_) => Err(ViewFault::At(ViewDefect::BadName, at)),
    }
}

// A kind of instrument.
pub(crate) struct KindField;

impl Field for KindField {
    ghost use Rattle.metric_views.specs.Views.{kind_at};

    type Read = Kind;

    ghost read_as = { kind_at };

    #[tactic(auto, unfolding(crate::specs::Views::kind_at))]
    fn read(_alloc: Global, value: &Value, at: ConfigSpot) -> Result<Kind, ViewFault> {
        let text = text_at(value, at)?;
        Kind::named(text).ok_or(ViewFault::At(ViewDefect::WrongKind, at))
    }
}

// An aggregation.
pub(crate) struct AggregationField;

impl Field for AggregationField {
    ghost use Rattle.metric_views.specs.Readers.{aggregation_of};

    type Read = Aggregation;

    ghost read_as = { aggregation_of };

    fn read(_alloc: Global, value: &Value, at: ConfigSpot) -> Result<Aggregation, ViewFault> {
        aggregation_of(value, at)
    }
}

// A cardinality limit.
pub(crate) struct LimitField;

impl Field for LimitField {
    ghost use Rattle.metric_views.specs.Readers.{limit_of};

    type Read = u32;

    ghost read_as = { limit_of };

    fn read(_alloc: Global, value: &Value, at: ConfigSpot) -> Result<u32, ViewFault> {
        limit_of(value, at)
    }
}

// Boundaries that rise.
pub(crate) struct BoundariesField;

impl Field for BoundariesField {
    ghost use Rattle.metric_views.specs.Views.{boundaries_at};

    type Read = Boundaries;

    ghost read_as = { boundaries_at };

    #[tactic(auto, unfolding(crate::specs::Views::boundaries_at))]
    fn read(alloc: Global, value: &Value, at: ConfigSpot) -> Result<Boundaries, ViewFault> {
        let boundaries = integers_of(alloc, value, 128, &faults_at(at))?;
        if is_rising(boundaries.as_slice()) {
            Ok(Boundaries::from_few(Few::from_items(boundaries)))
        } else {
            Err(ViewFault::At(ViewDefect::BadBoundaries, at))
        }
    }
}

// Names of keys.
pub(crate) struct KeysField;

impl Field for KeysField {
    ghost use Rattle.metric_views.specs.Views.{keys_at};

    type Read = Few<Text, 64>;

    ghost read_as = { keys_at };

    #[tactic(auto, unfolding(crate::specs::Views::keys_at))]
    fn read(alloc: Global, value: &Value, at: ConfigSpot) -> Result<Few<Text, 64>, ViewFault> {
        let keys = texts_of(alloc, value, 64, &faults_at(at))?;
        Ok(Few::from_items(keys))
    }
}
