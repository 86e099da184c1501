//! Labels.
ghost use Rattle.std.specs.Prelude.{◌≡◌, ◌∷◌, ◌++◌, map, OnOk};
ghost use Rattle.metric_names.specs.Values.{value_text};
ghost use Rattle.metric_lines.specs.Keys.{attributes_of};
ghost use Rattle.metric_contents.specs.Attributes.{given_by_owned};
ghost use Rattle.metric_family.specs.Labels.{attribute_label, label_of, point_labels, scope_labels, series_labels};
ghost use Rattle.metric_exposition.specs.LabelTexts.{comma_after, labels_text, quoted, with_label, with_labels};
ghost use Rattle.metric_exposition.specs.Targets.{resource_labels};

use crate::escape::push_escaped;
use itoa::Buffer;
use metric_contents::{Key, Meter, OwnedAttr, SetKey};
use metric_family::push_label;
use metric_lines::attribute_of;
use metric_names::AttrValue;
use metric_text::{push_byte, push_text};
use std::alloc::AllocError;

/// Makes these the labels of a point, in place of those that were there: of its series, and of its scope.
pub(crate) fn fill_point_labels(
    labels: &mut Vec<u8>,
    meter: &Meter,
    keys: &[Key],
    kept: &[bool],
    set: &Option<SetKey>,
) -> Result<(), AllocError>
    ensures { OnOk result (labels.new.items
        ≡ labels_text (point_labels meter.now keys.now kept.now set.now)) }
{
    labels.clear();
    push_series(labels, keys, kept, set)?;
    push_scope(labels, meter)
}

// Writes the labels of a series, or the mark of the overflow series, which has no set key.
fn push_series(
    labels: &mut Vec<u8>,
    keys: &[Key],
    kept: &[bool],
    set: &Option<SetKey>,
) -> Result<(), AllocError>
    ensures { OnOk result (labels.new.items
        ≡ with_labels labels.old.items (series_labels keys.now kept.now set.now)) }
{
    match set {
        Some(set) => push_attributes(labels, keys, kept, set.as_slice()),
        None => push_named(labels, "otel_metric_overflow", "true"),
    }
}

// Writes the labels of the attributes that are kept and present.
fn push_attributes(
    labels: &mut Vec<u8>,
    keys: &[Key],
    kept: &[bool],
    set: &[u16],
) -> Result<(), AllocError>
    ensures { OnOk result (labels.new.items ≡ with_labels labels.old.items
        (map attribute_label (attributes_of keys.now kept.now set.now))) }
{
    let Some((key, keys)) = keys.split_first() else {
        return Ok(());
    };
    let Some((keep, kept)) = kept.split_first() else {
        return Ok(());
    };
    let Some((entry, set)) = set.split_first() else {
        return Ok(());
    };
    if let Some(pair) = attribute_of(key, *keep, *entry) {
        push_attribute(labels, pair.key, pair.value)?;
    }
    push_attributes(labels, keys, kept, set)
}

fn push_scope(labels: &mut Vec<u8>, meter: &Meter) -> Result<(), AllocError>
    ensures { OnOk result
        (labels.new.items ≡ with_labels labels.old.items (scope_labels meter.now)) }
{
    push_named(labels, "otel_scope_name", meter.name.as_str())?;
    push_named(labels, "otel_scope_version", meter.version.as_str())?;
    push_named(labels, "otel_scope_schema_url", meter.schema_url.as_str())
}

/// Makes these the labels of a resource's attributes, in place of those that were there.
pub(crate) fn fill_resource_labels(
    labels: &mut Vec<u8>,
    attributes: &[OwnedAttr],
) -> Result<(), AllocError>
    ensures { OnOk result (labels.new.items ≡ resource_labels attributes.now) }
{
    labels.clear();
    push_owned(labels, attributes)
}

// Writes the labels of a resource's attributes.
fn push_owned(labels: &mut Vec<u8>, attributes: &[OwnedAttr]) -> Result<(), AllocError>
    ensures { OnOk result (labels.new.items ≡ with_labels labels.old.items
        (map (λ attribute. attribute_label (given_by_owned attribute)) attributes.now)) }
{
    let Some((attribute, attributes)) = attributes.split_first() else {
        return Ok(());
    };
    push_attribute(labels, attribute.key.as_str(), &attribute.value)?;
    push_owned(labels, attributes)
}

fn push_attribute(labels: &mut Vec<u8>, key: &str, value: &AttrValue) -> Result<(), AllocError>
    ensures { OnOk result (labels.new.items
        ≡ with_label labels.old.items (attribute_label (key.now, value.now))) }
{
    match value {
        AttrValue::Text(text) => push_told(labels, key, text.as_str()),
        AttrValue::Whole(number) => push_told(labels, key, Buffer::new().format(*number)),
        AttrValue::Flag(true) => push_told(labels, key, "true"),
        AttrValue::Flag(false) => push_told(labels, key, "false"),
    }
}

// Writes the label of a key with a text, unless that is empty.
#[tactic(auto, unfolding(crate::specs::LabelTexts::with_label))]
fn push_told(labels: &mut Vec<u8>, key: &str, text: &str) -> Result<(), AllocError>
    ensures { OnOk result (labels.new.items
        ≡ with_label labels.old.items (label_of key.now, text.now)) }
{
    if text.is_empty() {
        return Ok(());
    }
    push_comma(labels)?;
    push_label(labels, key)?;
    push_quoted(labels, text)
}

// Writes a label of this name with a text, unless that is empty.
#[tactic(auto, unfolding(crate::specs::LabelTexts::with_label))]
fn push_named(labels: &mut Vec<u8>, name: &str, text: &str) -> Result<(), AllocError>
    ensures { OnOk result (labels.new.items ≡ with_label labels.old.items (name.now, text.now)) }
{
    if text.is_empty() {
        return Ok(());
    }
    push_comma(labels)?;
    push_text(labels, name)?;
    push_quoted(labels, text)
}

#[tactic(auto, unfolding(crate::specs::LabelTexts::comma_after))]
fn push_comma(labels: &mut Vec<u8>) -> Result<(), AllocError>
    ensures { OnOk result (labels.new.items ≡ comma_after labels.old.items) }
{
    if labels.is_empty() {
        return Ok(());
    }
    push_byte(labels, b',')
}

#[tactic(auto, unfolding(crate::specs::LabelTexts::quoted))]
fn push_quoted(labels: &mut Vec<u8>, text: &str) -> Result<(), AllocError>
    ensures { OnOk result (labels.new.items ≡ labels.old.items ++ quoted text.now) }
{
    push_text(labels, "=\"")?;
    push_escaped(labels, true, text.as_bytes())?;
    push_text(labels, "\"")
}
