//! The tables of a reader that give a choice for each kind of instrument.
ghost use Rattle.std.specs.Prelude.{◌≡◌, codes, Result};
ghost use Rattle.toml.specs.Data.{Data};
ghost use Rattle.toml.specs.View.{table_view, view};
ghost use Rattle.metric_contents.specs.declared.contents.Kind.{Kind};
ghost use Rattle.metric_views.specs.declared.fault.ConfigSpot.{ConfigSpot};
ghost use Rattle.metric_views.specs.declared.fault.ViewFault.{ViewFault};
ghost use Rattle.metric_table.specs.Fields.{Reads, now_of, only, text_of};
ghost use Rattle.metric_views.specs.Faults.{faults_at, field_at, of_kind};
ghost use Rattle.metric_views.specs.Choices.{aggregation_named, temporality_named};
ghost use Rattle.metric_views.specs.Readers.{aggregation_for, aggregation_of, choice_at, choices_by_kind, choices_field, choices_of, for_all, is_limit, limit_of, temporality_of};

use crate::choices::{Aggregation, ByKind, Temporality, is_unfit};
use crate::fault::{ConfigField, ConfigPlace, ConfigSpot, ViewDefect, ViewFault, faults_at};
use metric_contents::Kind;
use metric_table::{integer_of, member, only, table_of, text_of};
use toml::{Table, Value};

// The cardinality limit where the config gives none (Metrics SDK, cardinality limits).
const DEFAULT_LIMIT: u32 = 2000;

// What a reader can choose for a kind of instrument. It is no type that crates above see: they would all carry what
// TOML's values are.
pub(crate) trait Choice {
    // What is chosen.
    type Chosen: Copy + Drop;

    // The choice where the config gives none.
    ghost usual: { Self.Chosen };

    // The choice that a value gives for a kind, or its first fault.
    ghost chosen: { ConfigSpot → Kind → Data → Result Self.Chosen ViewFault };

    // The choice where the config gives none.
    fn when_absent() -> Self::Chosen
        ensures { result ≡ usual };

    // The choice that a value gives for a kind.
    fn read(value: &Value, kind: Kind, at: ConfigSpot) -> Result<Self::Chosen, ViewFault>
        ensures { result ≡ chosen at kind (view value.now) };
}

// The text that a value is.
pub(crate) fn text_at(value: &Value, at: ConfigSpot) -> Result<&str, ViewFault>
    ensures { Reads now_of result (text_of (faults_at at) (view value.now)) }
{
    text_of(value, &faults_at(at))
}

// The choices of a reader's field.
#[tactic(auto, unfolding(crate::specs::Readers::choices_field))]
pub(crate) fn choices_field<C: Choice>(
    table: &Table,
    name: &str,
    at: ConfigPlace,
    field: ConfigField,
) -> Result<ByKind<C::Chosen>, ViewFault>
    ensures { result ≡ choices_field C.usual C.chosen (field_at at field) name.now
        (table_view table.now) }
{
    let at = at.field(field);
    match member(table, name) {
        Some(value) => {
            let table = table_of(value, &faults_at(at))?;
            choices_of::<C>(table, at)
        }
        None => Ok(for_all(C::when_absent())),
    }
}

fn for_all<T: Copy>(choice: T) -> ByKind<T>
    ensures { result ≡ for_all choice }
{
    ByKind {
        counter: choice,
        up_down_counter: choice,
        histogram: choice,
        gauge: choice,
    }
}

#[tactic(auto, unfolding(crate::specs::Readers::choices_of), using(crate::proofs::FieldNames::field_names))]
fn choices_of<C: Choice>(table: &Table, at: ConfigSpot) -> Result<ByKind<C::Chosen>, ViewFault>
    ensures { result ≡ choices_of C.usual C.chosen at (table_view table.now) }
{
    only(table, &KIND_FIELDS, &faults_at(at))?;
    choices_by_kind::<C>(table, at)
}

// The choices of a table, kind by kind.
#[tactic(auto, unfolding(crate::specs::Readers::choices_by_kind))]
fn choices_by_kind<C: Choice>(table: &Table, at: ConfigSpot) -> Result<ByKind<C::Chosen>, ViewFault>
    ensures { result ≡ choices_by_kind C.usual C.chosen at (table_view table.now) }
{
    let counter = choice_at::<C>(table, "counter", Kind::Counter, at)?;
    let up_down_counter = choice_at::<C>(table, "up_down_counter", Kind::UpDownCounter, at)?;
    let histogram = choice_at::<C>(table, "histogram", Kind::Histogram, at)?;
    let gauge = choice_at::<C>(table, "gauge", Kind::Gauge, at)?;
    Ok(ByKind {
        counter,
        up_down_counter,
        histogram,
        gauge,
    })
}

// The fields of a table of choices.
pub(crate) const KIND_FIELDS: [&str; 4] = ["counter", "up_down_counter", "histogram", "gauge"];

#[tactic(auto, unfolding(crate::specs::Readers::choice_at))]
fn choice_at<C: Choice>(
    table: &Table,
    name: &str,
    kind: Kind,
    at: ConfigSpot,
) -> Result<C::Chosen, ViewFault>
    ensures { result ≡ choice_at C.usual (C.chosen (of_kind at kind) kind) name.now
        (table_view table.now) }
{
    match member(table, name) {
        Some(value) => C::read(value, kind, at.of_kind(kind)),
        None => Ok(C::when_absent()),
    }
}

// How sums of a kind are reported.
pub(crate) struct TemporalityChoice;

impl Choice for TemporalityChoice {
    ghost use Rattle.metric_views.specs.declared.choices.Temporality.TheVariants.{Cumulative};
    ghost use Rattle.metric_views.specs.Readers.{temporality_of};

    type Chosen = Temporality;

    ghost usual = { Cumulative };

    ghost chosen = { λ at _ d. temporality_of at d };

    fn when_absent() -> Temporality {
        Temporality::Cumulative
    }

    fn read(value: &Value, _kind: Kind, at: ConfigSpot) -> Result<Temporality, ViewFault> {
        temporality_of(value, at)
    }
}

#[tactic(auto, unfolding(crate::specs::Readers::temporality_of))]
fn temporality_of(value: &Value, at: ConfigSpot) -> Result<Temporality, ViewFault>
    ensures { result ≡ temporality_of at (view value.now) }
{
    let text = text_at(value, at)?;
    temporality_named(text).ok_or(ViewFault::At(ViewDefect::WrongKind, at))
}

fn temporality_named(text: &str) -> Option<Temporality>
    ensures { result ≡ temporality_named text.now }
{
    match text {
        "delta" => Some(Temporality::Delta),
        "cumulative" => Some(Temporality::Cumulative),
        _ => None,
    }
}

// How recordings of a kind are aggregated.
pub(crate) struct AggregationChoice;

impl Choice for AggregationChoice {
    ghost use Rattle.metric_views.specs.declared.choices.Aggregation.TheVariants.{Default};
    ghost use Rattle.metric_views.specs.Readers.{aggregation_for};

    type Chosen = Aggregation;

    ghost usual = { Default };

    ghost chosen = { aggregation_for };

    fn when_absent() -> Aggregation {
        Aggregation::Default
    }

    #[tactic(auto, unfolding(crate::specs::Readers::aggregation_for))]
    fn read(value: &Value, kind: Kind, at: ConfigSpot) -> Result<Aggregation, ViewFault> {
        let aggregation = aggregation_of(value, at)?;
        if is_unfit(kind, aggregation) {
            Err(ViewFault::At(ViewDefect::WrongKind, at))
        } else {
            Ok(aggregation)
        }
    }
}

// The aggregation that a value names.
#[tactic(auto, unfolding(crate::specs::Readers::aggregation_of))]
pub(crate) fn aggregation_of(value: &Value, at: ConfigSpot) -> Result<Aggregation, ViewFault>
    ensures { result ≡ aggregation_of at (view value.now) }
{
    let text = text_at(value, at)?;
    aggregation_named(text).ok_or(ViewFault::At(ViewDefect::WrongKind, at))
}

fn aggregation_named(text: &str) -> Option<Aggregation>
    ensures { result ≡ aggregation_named text.now }
{
    match text {
        "default" => Some(Aggregation::Default),
        "drop" => Some(Aggregation::Drop),
        "sum" => Some(Aggregation::Sum),
        "last_value" => Some(Aggregation::LastValue),
        "explicit_bucket_histogram" => Some(Aggregation::ExplicitBucketHistogram),
        _ => None,
    }
}

// How many series a stream of a kind can have.
pub(crate) struct LimitChoice;

impl Choice for LimitChoice {
    ghost use Rattle.metric_views.specs.Readers.{limit_of};

    type Chosen = u32;

    ghost usual = { 2000 };

    ghost chosen = { λ at _ d. limit_of at d };

    fn when_absent() -> u32 {
        DEFAULT_LIMIT
    }

    fn read(value: &Value, _kind: Kind, at: ConfigSpot) -> Result<u32, ViewFault> {
        limit_of(value, at)
    }
}

// The cardinality limit that a value is.
#[tactic(auto, unfolding(crate::specs::Readers::limit_of))]
pub(crate) fn limit_of(value: &Value, at: ConfigSpot) -> Result<u32, ViewFault>
    ensures { result ≡ limit_of at (view value.now) }
{
    let number = integer_of(value, &faults_at(at))?;
    if (1..=1_000_000).contains(&number) {
        Ok(number as u32)
    } else {
        Err(ViewFault::At(ViewDefect::BadLimit, at))
    }
}
