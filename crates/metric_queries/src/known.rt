//! What is known of the series that there are.
ghost use Rattle.std.specs.Prelude.{◌≡◌, false, [], IfOk, map};
ghost use Rattle.std.specs.List.{list_any};
ghost use Rattle.std.specs.Str.{bytes_eq};
ghost use Rattle.metric_queries.specs.ByKeys.{served_matches, takes_at};
ghost use Rattle.metric_queries.specs.Matching.{name_label};
ghost use Rattle.metric_queries.specs.Remarks.{is_servers, server_names};

use crate::asked::{Asked, part_of};
use crate::judging::QueryRemark;
use crate::matching::{can_match, has_name, is_fixed, overflow_text};
use crate::points::takes_at;
use crate::sample::Sample;
use crate::served::Served;
use metric_base::{Copied, Items, Text};
use metric_contents::Key;
use metric_family::{MetricType, label_of, text_of};
use metric_names::AttrValue;
use metric_promql::{NAME_LABEL, QueryKind, Selector};
use std::alloc::{AllocError, Global};

/// What is known of the series that there are.
#[derive(Clone, Copy)]
pub struct Known<'a, 'p> {
    /// The labels that a server adds to each line, beside `job` and `instance`.
    pub added: &'a [Text],
    /// The names that rules record, of whose labels nothing is known, in order.
    pub recorded: &'a [String],
    /// The streams of pages.
    pub served: &'a [Served<'p>],
}

// A name that is an expression is held against so many recorded names; with more it is not judged.
const MOST_RECORDED: usize = 1_000;

// The names that a server writes itself, and what describes a target.
fn server_names() -> &'static [&'static str]
    ensures { map (λ name. name.now) result.now ≡ server_names }
{
    &[
        "up",
        "target_info",
        "scrape_duration_seconds",
        "scrape_samples_scraped",
        "scrape_samples_post_metric_relabeling",
        "scrape_series_added",
        "ALERTS",
        "ALERTS_FOR_STATE",
    ]
}

/// Whether a name is asked for that a server writes itself.
pub(crate) fn is_servers(alloc: Global, asked: &[Asked]) -> Result<bool, AllocError>
    ensures { IfOk result (λ answer. answer ≡ is_servers asked.now) }
{
    if !asks_for_name(asked) {
        return Ok(false);
    }
    Ok(takes_some(alloc, server_names(), asked)?)
}

// Whether a matcher is of the name.
fn asks_for_name(asked: &[Asked]) -> bool
    ensures { result ≡ list_any (λ one. bytes_eq one.label name_label) asked.now }
{
    asked.iter().any(|one| one.label.as_str() == NAME_LABEL)
}

// Whether one of these names is asked for.
fn takes_some(alloc: Global, names: &[&str], asked: &[Asked]) -> Result<bool, AllocError>
    ensures { IfOk result (λ answer. answer
        ≡ list_any (λ name. takes_at name_label name.now asked.now) names.now) }
{
    for name in names {
        if takes_at(alloc, NAME_LABEL, name, asked)? {
            return Ok(true);
        }
    }
    Ok(false)
}

/// Whether rules may record a name that is asked for. Where none do, it is false.
pub(crate) fn is_recorded(
    alloc: Global,
    recorded: &[String],
    selector: &Selector,
    asked: &[Asked],
) -> Result<bool, AllocError>
    ensures { IfOk result (λ answer. recorded.now ≡ [] → answer ≡ false) }
{
    if recorded.is_empty() {
        return Ok(false);
    }
    if let Some(name) = selector.name() {
        return Ok(has_text(recorded, name));
    }
    for own in recorded.iter().take(MOST_RECORDED) {
        if takes_at(alloc, NAME_LABEL, own.as_str(), asked)? {
            return Ok(true);
        }
    }
    Ok(recorded.len() > MOST_RECORDED)
}

// Whether a text is among others, which are in order.
fn has_text(texts: &[String], wanted: &str) -> bool {
    let place = texts.partition_point(|text| text.as_str() < wanted);
    match texts.get(place) {
        Some(text) => text.as_str() == wanted,
        None => false,
    }
}

/// Whether some line of these streams fulfils what is asked.
pub(crate) fn can_match_some(
    alloc: Global,
    added: &[Text],
    streams: &[Served<'_>],
    asked: &[Asked],
) -> Result<bool, AllocError>
    ensures { IfOk result (λ answer. answer
        ≡ list_any (λ served. served_matches added.now served asked.now) streams.now) }
{
    for served in streams {
        if can_match(alloc, added, served, asked)? {
            return Ok(true);
        }
    }
    Ok(false)
}

/// The places of the streams that have a sample of a name that is asked for.
pub(crate) fn places_of(
    alloc: Global,
    known: &Known<'_, '_>,
    asked: &[Asked],
) -> Result<Vec<usize>, AllocError> {
    let mut places = Vec::new(alloc);
    for (place, served) in known.served.iter().enumerate() {
        if has_name(alloc, served, asked)? {
            places.push(place)?;
        }
    }
    Ok(places)
}

/// Whether some line of the streams at these places fulfils what is asked.
pub(crate) fn can_match_at(
    alloc: Global,
    known: &Known<'_, '_>,
    places: &[usize],
    asked: &[Asked],
) -> Result<bool, AllocError> {
    for place in places {
        if let Some(served) = known.served.get(*place) {
            if can_match(alloc, known.added, served, asked)? {
                return Ok(true);
            }
        }
    }
    Ok(false)
}

/// The number of the first stream at these places.
pub(crate) fn first_of(known: &Known<'_, '_>, places: &[usize]) -> Option<usize> {
    let served = known.served.get(*places.first()?)?;
    Some(served.number)
}

/// Whether some stream at these places is of a type.
pub(crate) fn has_type(known: &Known<'_, '_>, places: &[usize], kind: MetricType) -> bool {
    for place in places {
        if let Some(served) = known.served.get(*place) {
            if served.kind == kind {
                return true;
            }
        }
    }
    false
}

/// Whether some line of the streams at these places can have a label.
pub(crate) fn have_label(known: &Known<'_, '_>, places: &[usize], label: &str) -> bool {
    for place in places {
        if let Some(served) = known.served.get(*place) {
            if has_label(known.added, served, label) {
                return true;
            }
        }
    }
    false
}

/// Whether some lines of the streams at these places are of buckets.
pub(crate) fn have_buckets(
    alloc: Global,
    known: &Known<'_, '_>,
    places: &[usize],
    asked: &[Asked],
) -> Result<bool, AllocError> {
    for place in places {
        if let Some(served) = known.served.get(*place) {
            if has_buckets(alloc, served, asked)? {
                return Ok(true);
            }
        }
    }
    Ok(false)
}

fn has_buckets(alloc: Global, served: &Served<'_>, asked: &[Asked]) -> Result<bool, AllocError> {
    match (served.samples.as_slice().first(), served.kind) {
        (Some(sample), MetricType::Histogram) => {
            takes_at(alloc, NAME_LABEL, sample.name.as_str(), asked)
        }
        _ => Ok(false),
    }
}

fn has_label(added: &[Text], served: &Served<'_>, label: &str) -> bool {
    if !is_fixed(added, served, label) {
        return true;
    }
    let is_mark = label == "otel_metric_overflow";
    if is_mark {
        return served.can_overflow;
    }
    !overflow_text(served.meter, label).is_empty()
}

/// The texts of which one could stand in the place of what is told of: names of samples, labels, values or boundaries.
/// Fails only when out of memory.
pub fn choices_of(
    alloc: Global,
    known: &Known<'_, '_>,
    selector: &Selector,
    remark: QueryRemark,
) -> Result<Items<Text>, AllocError> {
    let mut choices = Items::new(alloc);
    let name = part_of(alloc, selector.tests.as_slice(), &[])?;
    let label = label_at(alloc, selector, remark.matcher)?;
    for served in known.served {
        match remark.kind {
            QueryKind::UnknownFamily | QueryKind::UnknownSuffix | QueryKind::LeftOut => {
                add_names(alloc, &mut choices, served.samples.as_slice())?;
            }
            kind => {
                if has_name(alloc, served, name.as_slice())? {
                    add_choices(alloc, &mut choices, served, kind, label.as_str())?;
                }
            }
        }
    }
    Ok(choices)
}

// The label of a matcher, empty where there is none.
fn label_at(
    alloc: Global,
    selector: &Selector,
    matcher: Option<usize>,
) -> Result<Text, AllocError> {
    let tests = selector.tests.as_slice();
    match tests.get(matcher.unwrap_or(usize::MAX)) {
        Some(test) => test.label.copy(alloc),
        None => Text::new(alloc, ""),
    }
}

// Puts the labels last that lines of a stream have, or what one of theirs may be.
fn add_choices(
    alloc: Global,
    choices: &mut Items<Text>,
    served: &Served<'_>,
    kind: QueryKind,
    label: &str,
) -> Result<(), AllocError> {
    match kind {
        QueryKind::UnknownLabel => add_texts(alloc, choices, served.kept_labels.as_slice()),
        QueryKind::UnknownBoundary => add_boundaries(alloc, choices, served.samples.as_slice()),
        QueryKind::UnknownValue | QueryKind::MatchesNone => {
            add_values(alloc, choices, served.instrument.keys.as_slice(), label)
        }
        _ => Ok(()),
    }
}

fn add_names(
    alloc: Global,
    choices: &mut Items<Text>,
    samples: &[Sample],
) -> Result<(), AllocError> {
    for sample in samples {
        choices.push(sample.name.copy(alloc)?)?;
    }
    Ok(())
}

fn add_texts(alloc: Global, choices: &mut Items<Text>, texts: &[Text]) -> Result<(), AllocError> {
    for text in texts {
        choices.push(text.copy(alloc)?)?;
    }
    Ok(())
}

fn add_boundaries(
    alloc: Global,
    choices: &mut Items<Text>,
    samples: &[Sample],
) -> Result<(), AllocError> {
    for sample in samples {
        add_texts(alloc, choices, sample.marks.as_slice())?;
    }
    Ok(())
}

// Puts the values last that keys of a label have.
fn add_values(
    alloc: Global,
    choices: &mut Items<Text>,
    keys: &[Key],
    label: &str,
) -> Result<(), AllocError> {
    for key in keys {
        let own = label_of(alloc, key.name.as_str())?;
        if own.as_str() == label {
            add_texts_of(alloc, choices, key.values.as_slice())?;
        }
    }
    Ok(())
}

fn add_texts_of(
    alloc: Global,
    choices: &mut Items<Text>,
    values: &[AttrValue],
) -> Result<(), AllocError> {
    for value in values {
        choices.push(text_of(alloc, value)?)?;
    }
    Ok(())
}
