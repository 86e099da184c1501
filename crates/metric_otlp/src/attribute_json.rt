//! Attributes in JSON.
ghost use Rattle.std.specs.Prelude.{◌≡◌, [], ◌++◌, OnOk};
ghost use Rattle.metric_lines.specs.Keys.{attributes_of};
ghost use Rattle.metric_text.specs.Lists.{led_by};
ghost use Rattle.metric_contents.specs.Attributes.{given_by_owned};
ghost use Rattle.metric_otlp.specs.SeriesJson.{any_value_json, attribute_json, series_json};
ghost use Rattle.metric_otlp.specs.Written.{entries_at};

use crate::attribute::OVERFLOW_KEY;
use crate::member::{Member, push_object};
use crate::series::{Entries, Form, Series, entry_at};
use metric_contents::{Key, OwnedAttr, SetKey};
use metric_lines::attribute_of;
use metric_names::AttrValue;
use metric_text::push_text;
use std::alloc::{AllocError, Global};

/// Writes the attributes of a series, or the mark of the overflow series, with commas between.
#[tactic(auto, unfolding(crate::specs::SeriesJson::series_json), using(metric_text::specs::ListLaws::joined_is_led))]
pub(crate) fn push_series(
    alloc: Global,
    out: &mut Vec<u8>,
    series: &Series<'_>,
    set: &Option<SetKey>,
) -> Result<(), AllocError>
    ensures { OnOk result (out.new.items
        ≡ out.old.items ++ series_json series.now.keys.now series.now.kept.now set.now) }
{
    match set {
        Some(set) => push_set(alloc, out, series, set.as_slice()),
        None => push_attribute(alloc, out, OVERFLOW_KEY, &AttrValue::Flag(true)),
    }
}

// Writes the attributes of a set key, where there are such from those that are written once for all points.
#[tactic(auto, using(crate::proofs::WrittenLaws::written_with_commas))]
fn push_set(
    alloc: Global,
    out: &mut Vec<u8>,
    series: &Series<'_>,
    set: &[u16],
) -> Result<(), AllocError>
    ensures { OnOk result (out.new.items ≡ out.old.items ++ led_by [] attribute_json
        (attributes_of series.now.keys.now series.now.kept.now set.now)) }
{
    match series.attributes(Form::Json) {
        Some(all) => push_entries(out, "", all, set),
        None => push_attributes(alloc, out, "", series.keys, series.kept, set),
    }
}

#[tactic(auto, unfolding(crate::specs::Written::entries_at))]
fn push_entries(
    out: &mut Vec<u8>,
    before: &str,
    all: &[Entries],
    set: &[u16],
) -> Result<(), AllocError>
    ensures { OnOk result (out.new.items ≡ out.old.items
        ++ led_by before.now (λ text. text) (entries_at all.now set.now)) }
{
    let Some((entries, all)) = all.split_first() else {
        return Ok(());
    };
    let Some((entry, set)) = set.split_first() else {
        return Ok(());
    };
    match entry_at(entries, *entry) {
        Some(text) => {
            push_text(out, before)?;
            out.extend_from_slice(text)?;
            push_entries(out, ",", all, set)
        }
        None => push_entries(out, before, all, set),
    }
}

// Writes the attributes that are kept and present, with a text before the first and commas between.
fn push_attributes(
    alloc: Global,
    out: &mut Vec<u8>,
    before: &str,
    keys: &[Key],
    kept: &[bool],
    set: &[u16],
) -> Result<(), AllocError>
    ensures { OnOk result (out.new.items ≡ out.old.items
        ++ led_by before.now attribute_json (attributes_of keys.now kept.now set.now)) }
{
    let Some((key, keys)) = keys.split_first() else {
        return Ok(());
    };
    let Some((keep, kept)) = kept.split_first() else {
        return Ok(());
    };
    let Some((entry, set)) = set.split_first() else {
        return Ok(());
    };
    match attribute_of(key, *keep, *entry) {
        Some(pair) => {
            push_text(out, before)?;
            push_attribute(alloc, out, pair.key, pair.value)?;
            push_attributes(alloc, out, ",", keys, kept, set)
        }
        None => push_attributes(alloc, out, before, keys, kept, set),
    }
}

/// Writes the attributes of a resource, with a text before the first and commas between.
pub(crate) fn push_owned(
    alloc: Global,
    out: &mut Vec<u8>,
    before: &str,
    attributes: &[OwnedAttr],
) -> Result<(), AllocError>
    ensures { OnOk result (out.new.items ≡ out.old.items ++ led_by before.now
        (λ attribute. attribute_json (given_by_owned attribute)) attributes.now) }
{
    let Some((attribute, attributes)) = attributes.split_first() else {
        return Ok(());
    };
    push_text(out, before)?;
    push_attribute(alloc, out, attribute.key.as_str(), &attribute.value)?;
    push_owned(alloc, out, ",", attributes)
}

/// Writes an attribute.
#[tactic(auto, unfolding(crate::specs::SeriesJson::attribute_json))]
pub(crate) fn push_attribute(
    alloc: Global,
    out: &mut Vec<u8>,
    key: &str,
    value: &AttrValue,
) -> Result<(), AllocError>
    ensures { OnOk result (out.new.items ≡ out.old.items ++ attribute_json (key.now, value.now)) }
{
    let mut text = Vec::new(alloc);
    push_any_value(&mut text, value)?;
    push_object(
        out,
        &[
            Member::Text("key", key),
            Member::Object("value", text.as_slice()),
        ],
    )
}

fn push_any_value(out: &mut Vec<u8>, value: &AttrValue) -> Result<(), AllocError>
    ensures { OnOk result (out.new.items ≡ out.old.items ++ any_value_json value.now) }
{
    match value {
        AttrValue::Text(text) => push_object(out, &[Member::Text("stringValue", text.as_str())]),
        AttrValue::Whole(number) => push_object(out, &[Member::Signed("intValue", *number)]),
        AttrValue::Flag(true) => push_text(out, "{\"boolValue\":true}"),
        AttrValue::Flag(false) => push_text(out, "{\"boolValue\":false}"),
    }
}
