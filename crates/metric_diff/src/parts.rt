//! In which parts two streams differ.
ghost use Rattle.std.specs.Prelude.{◌≡◌, ◌++◌, OnOk, not};
ghost use Rattle.std.specs.List.{flat_map, list_all, list_any};
ghost use Rattle.std.specs.Ordering.{int_eq};
ghost use Rattle.std.specs.Str.{bytes_eq};
ghost use Rattle.metric_names.specs.Names.{folded};
ghost use Rattle.metric_views.specs.Selection.{is_kind};
ghost use Rattle.metric_diff.specs.Changes.{when_other};
ghost use Rattle.metric_diff.specs.Parts.{all_parts, differs, has_other_boundaries, is_alike, is_same_temporality, keeps_boundaries, part_changes, source_name, when};

use crate::change::{Change, StreamPart};
use metric_base::Items;
use metric_catalogue::Catalogue;
use metric_views::{Stream, StreamAggregation, Temporality, is_of_kind};
use std::alloc::AllocError;

/// An old stream and a new one, with their numbers.
#[derive(Clone, Copy)]
pub(crate) struct Numbers {
    pub(crate) old: usize,
    pub(crate) new: usize,
}

/// A stream of a catalogue.
#[derive(Clone, Copy)]
pub(crate) struct Sourced<'s> {
    pub(crate) catalogue: &'s Catalogue,
    pub(crate) stream: &'s Stream,
}

/// Puts a change last, where it holds.
pub(crate) fn add_when(
    changes: &mut Items<Change>,
    holds: bool,
    change: Change,
) -> Result<(), AllocError>
    ensures { OnOk result (changes.new ≡ changes.old ++ when holds change) }
{
    if holds {
        changes.push(change)?;
    }
    Ok(())
}

/// Puts a change last, where both numbers are there and differ.
pub(crate) fn add_when_other(
    changes: &mut Items<Change>,
    change: Change,
    old: Option<u128>,
    new: Option<u128>,
) -> Result<(), AllocError>
    ensures { OnOk result (changes.new ≡ changes.old ++ when_other change old new) }
{
    match (old, new) {
        (Some(one), Some(other)) => add_when(changes, one != other, change),
        _ => Ok(()),
    }
}

/// Puts a change last for each part in which two streams differ.
pub(crate) fn add_parts(
    changes: &mut Items<Change>,
    of: Numbers,
    old: Sourced<'_>,
    new: Sourced<'_>,
) -> Result<(), AllocError>
    ensures { OnOk result (changes.new ≡ changes.old ++ part_changes of.old of.new
        old.entry.catalogue.now new.entry.catalogue.now old.entry.stream.now new.entry.stream.now
        all_parts) }
{
    let parts = [
        StreamPart::Name,
        StreamPart::Description,
        StreamPart::Unit,
        StreamPart::Kind,
        StreamPart::Aggregation,
        StreamPart::Boundaries,
        StreamPart::MoreBoundaries,
        StreamPart::Limit,
        StreamPart::Temporality,
        StreamPart::Instrument,
    ];
    add_these(changes, parts.as_slice(), of, old, new)
}

#[tactic(auto, using(metric_text::specs::ListLaws::steps))]
fn add_these(
    changes: &mut Items<Change>,
    parts: &[StreamPart],
    of: Numbers,
    old: Sourced<'_>,
    new: Sourced<'_>,
) -> Result<(), AllocError>
    ensures { OnOk result (changes.new ≡ changes.old ++ part_changes of.old of.new
        old.entry.catalogue.now new.entry.catalogue.now old.entry.stream.now new.entry.stream.now
        parts.now) }
{
    for part in parts {
        let change = Change::StreamChanged {
            old: of.old,
            new: of.new,
            part: *part,
        };
        add_when(changes, differs(*part, old, new), change)?;
    }
    Ok(())
}

// Whether two streams differ in a part.
fn differs(part: StreamPart, old: Sourced<'_>, new: Sourced<'_>) -> bool
    ensures { result ≡ differs part old.entry.catalogue.now new.entry.catalogue.now
        old.entry.stream.now new.entry.stream.now }
{
    let one = old.stream;
    let other = new.stream;
    match part {
        StreamPart::Name => are_others(one.name.get().as_str(), other.name.get().as_str()),
        StreamPart::Description => {
            are_others(
                one.description.get().as_str(),
                other.description.get().as_str(),
            )
        }
        StreamPart::Unit => are_others(one.unit.get().as_str(), other.unit.get().as_str()),
        StreamPart::Kind => !is_of_kind(&Some(one.kind), other.kind),
        StreamPart::Aggregation => !is_alike(&one.aggregation, &other.aggregation),
        StreamPart::Boundaries => {
            has_other_boundaries(&one.aggregation, &other.aggregation)
                && !keeps_boundaries(&one.aggregation, &other.aggregation)
        }
        StreamPart::MoreBoundaries => {
            has_other_boundaries(&one.aggregation, &other.aggregation)
                && keeps_boundaries(&one.aggregation, &other.aggregation)
        }
        StreamPart::Limit => one.limit != other.limit,
        StreamPart::Temporality => !is_same_temporality(one.temporality, other.temporality),
        StreamPart::Instrument => has_other_source(old, new),
    }
}

// Whether the instruments of two streams have other names.
fn has_other_source(old: Sourced<'_>, new: Sourced<'_>) -> bool
    ensures { result ≡ not (bytes_eq
        (folded (source_name old.entry.catalogue.now old.entry.stream.now))
        (folded (source_name new.entry.catalogue.now new.entry.stream.now))) }
{
    let name = source_name(old.catalogue, old.stream);
    !name.eq_ignore_ascii_case(source_name(new.catalogue, new.stream))
}

fn source_name<'s>(catalogue: &'s Catalogue, stream: &Stream) -> &'s str
    ensures { result.now ≡ source_name catalogue.now stream.now }
{
    match catalogue.instruments().get(stream.instrument as usize) {
        Some(instrument) => instrument.name.get().as_str(),
        None => "",
    }
}

fn are_others(old: &str, new: &str) -> bool
    ensures { result ≡ not (bytes_eq old.now new.now) }
{
    old != new
}

fn is_alike(old: &StreamAggregation, new: &StreamAggregation) -> bool
    ensures { result ≡ is_alike old.now new.now }
{
    match old {
        StreamAggregation::Sum => matches!(new, StreamAggregation::Sum),
        StreamAggregation::LastValue => matches!(new, StreamAggregation::LastValue),
        StreamAggregation::Histogram(_) => matches!(new, StreamAggregation::Histogram(_)),
    }
}

// Whether both are histograms, with other boundaries.
fn has_other_boundaries(old: &StreamAggregation, new: &StreamAggregation) -> bool
    ensures { result ≡ has_other_boundaries old.now new.now }
{
    match (old, new) {
        (StreamAggregation::Histogram(old), StreamAggregation::Histogram(new)) => {
            old.get().as_slice() != new.get().as_slice()
        }
        _ => false,
    }
}

// Whether both are histograms, and each boundary of the first is one of the second.
fn keeps_boundaries(old: &StreamAggregation, new: &StreamAggregation) -> bool
    ensures { result ≡ keeps_boundaries old.now new.now }
{
    match (old, new) {
        (StreamAggregation::Histogram(old), StreamAggregation::Histogram(new)) => {
            has_each(new.get().as_slice(), old.get().as_slice())
        }
        _ => false,
    }
}

fn has_each(others: &[i64], boundaries: &[i64]) -> bool
    ensures { result
        ≡ list_all (λ boundary. list_any (int_eq boundary) others.now) boundaries.now }
{
    boundaries
        .iter()
        .all(|boundary| has_boundary(others, *boundary))
}

fn has_boundary(boundaries: &[i64], boundary: i64) -> bool
    ensures { result ≡ list_any (int_eq boundary) boundaries.now }
{
    boundaries.iter().any(|other| boundary == *other)
}

fn is_same_temporality(old: Temporality, new: Temporality) -> bool
    ensures { result ≡ is_same_temporality old new }
{
    match (old, new) {
        (Temporality::Delta, Temporality::Delta) => true,
        (Temporality::Cumulative, Temporality::Cumulative) => true,
        _ => false,
    }
}
