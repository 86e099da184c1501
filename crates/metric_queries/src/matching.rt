//! Whether a selector can match a line of a stream.
ghost use Rattle.std.specs.Prelude.{◌≡◌, ◌&&◌, ◌||◌, IfOk, codes};
ghost use Rattle.std.specs.List.{list_any};
ghost use Rattle.std.specs.Str.{bytes_eq};
ghost use Rattle.metric_exposure.specs.Laws.{text_at};
ghost use Rattle.metric_family.specs.Labels.{scope_labels};
ghost use Rattle.metric_family.specs.Words.{is_among};
ghost use Rattle.metric_queries.specs.ByKeys.{is_fixed, is_free, is_histogram, is_sample_asked, mask_at, masks_of, overflow_labels, served_matches, takes_at, takes_fixed, takes_overflow};
ghost use Rattle.metric_queries.specs.Matching.{is_moved, is_open, is_open_by, own_labels};

use crate::asked::Asked;
use crate::points::{has_set, mask_of, takes_at};
use crate::sample::Sample;
use crate::served::Served;
use crate::test::takes;
use metric_base::{Items, Text};
use metric_contents::{Key, Meter};
use metric_family::{MetricType, label_of};
use metric_promql::NAME_LABEL;
use std::alloc::{AllocError, Global};

/// Whether some line that a page can have of a stream fulfils what is asked, where a server adds these labels to each.
/// Fails only when out of memory.
pub fn can_match(
    alloc: Global,
    added: &[Text],
    served: &Served<'_>,
    asked: &[Asked],
) -> Result<bool, AllocError>
    ensures { IfOk result (λ answer. answer
        ≡ served_matches added.now served.now asked.now) }
{
    if !has_sample(alloc, served, asked)? {
        return Ok(false);
    }
    if takes_fixed(alloc, added, served, asked)? {
        let masks = masks_of(alloc, added, served, asked)?;
        if has_set(masks.as_slice(), &served.instrument.allowed) {
            return Ok(true);
        }
    }
    if !served.can_overflow {
        return Ok(false);
    }
    takes_overflow(alloc, added, served, asked)
}

// Whether some sample has a name and a boundary that are asked for.
fn has_sample(alloc: Global, served: &Served<'_>, asked: &[Asked]) -> Result<bool, AllocError>
    ensures { IfOk result (λ answer. answer
        ≡ list_any (is_sample_asked served.now.kind asked.now) served.now.samples) }
{
    let samples = served.samples.as_slice();
    for sample in samples {
        if is_sample_asked(alloc, served.kind, asked, sample)? {
            return Ok(true);
        }
    }
    Ok(false)
}

/// Whether some sample has a name that is asked for, whatever its boundaries are.
pub(crate) fn has_name(
    alloc: Global,
    served: &Served<'_>,
    asked: &[Asked],
) -> Result<bool, AllocError> {
    for sample in served.samples.as_slice() {
        if takes_at(alloc, NAME_LABEL, sample.name.as_str(), asked)? {
            return Ok(true);
        }
    }
    Ok(false)
}

fn is_sample_asked(
    alloc: Global,
    kind: MetricType,
    asked: &[Asked],
    sample: &Sample,
) -> Result<bool, AllocError>
    ensures { IfOk result (λ answer. answer ≡ is_sample_asked kind asked.now sample.now) }
{
    if !takes_at(alloc, NAME_LABEL, sample.name.as_str(), asked)? {
        return Ok(false);
    }
    if kind != MetricType::Histogram {
        return Ok(true);
    }
    has_mark(alloc, asked, sample.marks.as_slice())
}

// Whether some boundary of a sample is asked for.
fn has_mark(alloc: Global, asked: &[Asked], marks: &[Text]) -> Result<bool, AllocError>
    ensures { IfOk result (λ answer. answer
        ≡ list_any (λ mark. takes_at (codes "le") mark asked.now) marks.now) }
{
    for mark in marks {
        if takes_at(alloc, "le", mark.as_str(), asked)? {
            return Ok(true);
        }
    }
    Ok(false)
}

/// Whether a label is not judged, where lines have these: a server writes it itself, or moves a text there.
pub(crate) fn is_open(added: &[Text], labels: &[Text], label: &str) -> bool
    ensures { result ≡ is_open added.now labels.now label.now }
{
    label != NAME_LABEL && label != "le" && is_open_by_some(added, labels, label)
}

// The same of a label that says nothing of which sample a line is of.
fn is_open_by_some(added: &[Text], labels: &[Text], label: &str) -> bool
    ensures { result ≡ list_any (is_open_by labels.now label.now) (own_labels added.now) }
{
    is_open_by("job", labels, label)
        || is_open_by("instance", labels, label)
        || added
            .iter()
            .any(|own| is_open_by(own.as_str(), labels, label))
}

// The same of one label that a server writes itself.
fn is_open_by(own: &str, labels: &[Text], label: &str) -> bool
    ensures { result ≡ is_open_by labels.now label.now own.now }
{
    label == own || (is_among(labels, own) && is_moved(label, own))
}

pub(crate) fn is_among(labels: &[Text], label: &str) -> bool
    ensures { result ≡ is_among labels.now label.now }
{
    labels.iter().any(|other| label == other.as_str())
}

fn is_moved(label: &str, own: &str) -> bool
    ensures { result ≡ is_moved label.now own.now }
{
    let label = label.as_bytes();
    label.starts_with(b"exported_") && label.ends_with(own.as_bytes())
}

// Whether the matchers of labels that each line has alike take their texts.
fn takes_fixed(
    alloc: Global,
    added: &[Text],
    served: &Served<'_>,
    asked: &[Asked],
) -> Result<bool, AllocError>
    ensures { IfOk result (λ answer. answer ≡ takes_fixed added.now served.now.kind
        served.now.kept_labels (scope_labels served.now.meter.now) asked.now) }
{
    for one in asked {
        let label = one.label.as_str();
        if is_fixed(added, served, label)
            && !takes(alloc, &one.test, scope_text(served.meter, label))?
        {
            return Ok(false);
        }
    }
    Ok(true)
}

/// Whether neither the name, nor a bucket, nor a kept key has a label.
pub(crate) fn is_fixed(added: &[Text], served: &Served<'_>, label: &str) -> bool
    ensures { result
        ≡ is_fixed added.now served.now.kind served.now.kept_labels label.now }
{
    !(is_free(added, served, label) || is_among(served.kept_labels.as_slice(), label))
}

// Whether a label is of the name or of a bucket, or is not judged.
fn is_free(added: &[Text], served: &Served<'_>, label: &str) -> bool
    ensures { result
        ≡ is_free added.now served.now.kind served.now.kept_labels label.now }
{
    is_of_sample(served.kind, label) || is_open(added, served.kept_labels.as_slice(), label)
}

// Whether a label says which sample a line is of.
pub(crate) fn is_of_sample(kind: MetricType, label: &str) -> bool
    ensures { result ≡ (bytes_eq label.now (codes "__name__")
        || (is_histogram kind && bytes_eq label.now (codes "le"))) }
{
    label == NAME_LABEL || (kind == MetricType::Histogram && label == "le")
}

// The text of a label of the scope, empty where it has none.
fn scope_text<'m>(meter: &'m Meter, label: &str) -> &'m str
    ensures { result.now ≡ text_at (scope_labels meter.now) label.now }
{
    match label {
        "otel_scope_name" => meter.name.as_str(),
        "otel_scope_version" => meter.version.as_str(),
        "otel_scope_schema_url" => meter.schema_url.as_str(),
        _ => "",
    }
}

// Of each key, which of its entries are asked for.
fn masks_of(
    alloc: Global,
    added: &[Text],
    served: &Served<'_>,
    asked: &[Asked],
) -> Result<Items<Items<bool>>, AllocError>
    ensures { IfOk result (λ masks. masks ≡ masks_of added.now served.now.kept_labels
        served.now.instrument.now.keys served.now.stream.now.kept asked.now) }
{
    let mut masks = Items::new(alloc);
    let labels = served.kept_labels.as_slice();
    let keys = served.instrument.keys.as_slice();
    let kept = served.stream.kept.get().as_slice();
    for (key, keep) in keys.iter().zip(kept) {
        masks.push(mask_at(alloc, added, labels, asked, key, *keep)?)?;
    }
    Ok(masks)
}

fn mask_at(
    alloc: Global,
    added: &[Text],
    labels: &[Text],
    asked: &[Asked],
    key: &Key,
    keep: bool,
) -> Result<Items<bool>, AllocError>
    ensures { IfOk result (λ mask. mask
        ≡ mask_at added.now labels.now asked.now (key.now, keep)) }
{
    let label = label_of(alloc, key.name.as_str())?;
    let is_judged = keep && !is_open(added, labels, label.as_str());
    mask_of(alloc, label.as_str(), is_judged, key, asked)
}

// Whether the labels of an overflow point are asked for.
fn takes_overflow(
    alloc: Global,
    added: &[Text],
    served: &Served<'_>,
    asked: &[Asked],
) -> Result<bool, AllocError>
    ensures { IfOk result (λ answer. answer ≡ takes_overflow added.now served.now.kind
        served.now.kept_labels served.now.meter.now asked.now) }
{
    for one in asked {
        let label = one.label.as_str();
        if !is_free(added, served, label)
            && !takes(alloc, &one.test, overflow_text(served.meter, label))?
        {
            return Ok(false);
        }
    }
    Ok(true)
}

// The text of a label of the overflow point.
pub(crate) fn overflow_text<'m>(meter: &'m Meter, label: &str) -> &'m str
    ensures { result.now ≡ text_at (overflow_labels meter.now) label.now }
{
    if label == "otel_metric_overflow" {
        return "true";
    }
    scope_text(meter, label)
}
