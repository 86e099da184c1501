//! Keys whose labels or whose values' texts do not tell them apart.
ghost use Rattle.std.specs.Prelude.{◌≡◌, ◌++◌, ◌∷◌, [], ◌≤◌, false, map, IfOk, OnOk, length, slice_get, if◌then◌else◌};
ghost use Rattle.std.specs.List.{list_any};
ghost use Rattle.std.specs.Option.{option_map, unwrap_or};
ghost use Rattle.metric_family.specs.Labels.{label_of};
ghost use Rattle.metric_family.specs.Words.{is_among};
ghost use Rattle.metric_exposure.specs.KeyFaults.{all_key_faults, are_confused, key_faults, label_fault, reserved_labels};
ghost use Rattle.metric_exposure.specs.KeyFaults.{scope_taken};
ghost use Rattle.metric_exposure.specs.KeyTexts.{is_empty_text, text_value};

use crate::fault::ExposureFault;
use crate::renames::add_merged;
use metric_base::{Items, Text};
use metric_contents::{Key, Meter, Values};
use metric_family::{MetricType, is_bad_label, label_of, text_of};
use metric_names::AttrValue;
use std::alloc::{AllocError, Global};

/// The labels that no key of a stream may have: those that a line has beside its keys', and those under which a server
/// would make two series one. Fails only when out of memory.
#[tactic(auto, unfolding(crate::specs::KeyFaults::reserved_labels))]
pub(crate) fn reserved_labels(
    alloc: Global,
    kind: MetricType,
    meter: Option<&Meter>,
    keys: &[Key],
    kept: &[bool],
) -> Result<Vec<Text>, AllocError>
    ensures { IfOk result (λ labels. labels.items
        ≡ reserved_labels kind (option_map (λ m. m.now) meter.entry) keys.now kept.now) }
{
    let mut labels = Vec::new(alloc);
    push_if(alloc, &mut labels, kind == MetricType::Histogram, "le")?;
    push_if(alloc, &mut labels, true, "otel_metric_overflow")?;
    if let Some(meter) = meter {
        add_scope(alloc, &mut labels, meter)?;
    }
    add_merged(alloc, &mut labels, keys, kept, "job")?;
    add_merged(alloc, &mut labels, keys, kept, "instance")?;
    Ok(labels)
}

// Puts the labels of a scope last: one whose text is empty stands in no line.
fn add_scope(alloc: Global, labels: &mut Vec<Text>, meter: &Meter) -> Result<(), AllocError>
    ensures { OnOk result (labels.new.items ≡ labels.old.items ++ scope_taken meter.now) }
{
    let has_name = !meter.name.as_str().is_empty();
    let has_version = !meter.version.as_str().is_empty();
    let has_schema_url = !meter.schema_url.as_str().is_empty();
    push_if(alloc, labels, has_name, "otel_scope_name")?;
    push_if(alloc, labels, has_version, "otel_scope_version")?;
    push_if(alloc, labels, has_schema_url, "otel_scope_schema_url")?;
    Ok(())
}

/// Puts a label last, where this holds.
pub(crate) fn push_if(
    alloc: Global,
    labels: &mut Vec<Text>,
    test: bool,
    label: &str,
) -> Result<(), AllocError>
    ensures { OnOk result (labels.new.items
        ≡ labels.old.items ++ (if test then label.now ∷ [] else [])) }
{
    if !test {
        return Ok(());
    }
    labels.push(Text::new(alloc, label)?)?;
    Ok(())
}

/// Puts the faults of the kept keys of a stream last, in declared order. None of them may have these labels.
pub(crate) fn add_key_faults(
    alloc: Global,
    faults: &mut Vec<ExposureFault>,
    number: usize,
    mut labels: Vec<Text>,
    keys: &[Key],
    kept: &[bool],
) -> Result<(), AllocError>
    ensures { OnOk result (faults.new.items
        ≡ faults.old.items ++ all_key_faults number labels.items keys.now kept.now) }
{
    for (place, key) in keys.iter().enumerate() {
        if is_kept(kept, place) {
            let label = label_of(alloc, key.name.as_str())?;
            let taken = labels.as_slice();
            add_faults_of(alloc, faults, number, place, taken, label.as_str(), key)?;
            labels.push(label)?;
        }
    }
    Ok(())
}

fn is_kept(kept: &[bool], place: usize) -> bool
    ensures { result ≡ unwrap_or (slice_get kept.now place) false }
{
    kept.get(place).copied().unwrap_or(false)
}

// Puts the faults of a key with its label last, where these labels are taken.
fn add_faults_of(
    alloc: Global,
    faults: &mut Vec<ExposureFault>,
    number: usize,
    place: usize,
    taken: &[Text],
    label: &str,
    key: &Key,
) -> Result<(), AllocError>
    requires { label.now ≡ label_of key.now.name }
    ensures { OnOk result (faults.new.items ≡ faults.old.items
        ++ key_faults number place taken.now key.now) }
{
    if let Some(fault) = label_fault(number, place, taken, label) {
        faults.push(fault)?;
    }
    if are_confused(alloc, key)? {
        faults.push(ExposureFault::ValueCollision {
            stream: number,
            key: place,
        })?;
    }
    Ok(())
}

fn label_fault(number: usize, place: usize, taken: &[Text], label: &str) -> Option<ExposureFault>
    ensures { result ≡ label_fault number place taken.now label.now }
{
    if is_bad_label(label) {
        return Some(ExposureFault::BadLabel {
            stream: number,
            key: place,
        });
    }
    if has_label(taken, label) {
        return Some(ExposureFault::LabelCollision {
            stream: number,
            key: place,
        });
    }
    None
}

fn has_label(taken: &[Text], label: &str) -> bool
    ensures { result ≡ is_among taken.now label.now }
{
    taken.iter().any(|other| label == other.as_str())
}

// Whether two values of a key have one text, or the key may be absent and a value has the empty text.
#[tactic(auto, unfolding(crate::specs::KeyFaults::are_confused))]
fn are_confused(alloc: Global, key: &Key) -> Result<bool, AllocError>
    ensures { IfOk result (λ answer. answer ≡ are_confused key.now) }
{
    let texts = texts_of(alloc, key.values.as_slice())?;
    if key.optional && has_empty_text(texts.as_slice()) {
        return Ok(true);
    }
    let distinct = Values::from_items(alloc, texts)?;
    Ok(distinct.is_none())
}

/// The texts of some values, as values.
pub(crate) fn texts_of(alloc: Global, values: &[AttrValue]) -> Result<Items<AttrValue>, AllocError>
    requires { length values.now ≤ 1000 }
    ensures texts { IfOk result (λ texts. texts ≡ map text_value values.now) }
    ensures few { IfOk result (λ texts. length texts ≤ 1000) }
{
    let mut texts = Items::new(alloc);
    for value in values {
        texts.push(AttrValue::Text(text_of(alloc, value)?))?;
    }
    Ok(texts)
}

pub(crate) fn has_empty_text(texts: &[AttrValue]) -> bool
    ensures { result ≡ list_any is_empty_text texts.now }
{
    texts.iter().any(|text| matches!(text, AttrValue::Text(text) if text.as_str().is_empty()))
}
