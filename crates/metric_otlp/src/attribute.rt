//! Attributes.
ghost use Rattle.std.specs.Prelude.{◌≡◌, ◌++◌, OnOk};
ghost use Rattle.std.specs.List.{concat, flat_map};
ghost use Rattle.metric_lines.specs.Keys.{attributes_of};
ghost use Rattle.metric_wire.specs.Wire.{block};
ghost use Rattle.metric_otlp.specs.Series.{any_value, attribute_field, series_fields, text_field};
ghost use Rattle.metric_otlp.specs.Written.{entries_at};

use crate::field::push_text;
use crate::series::{Entries, Form, Series, entry_at};
use metric_contents::{Key, SetKey};
use metric_lines::attribute_of;
use metric_names::AttrValue;
use metric_wire::{begin_block, end_block, push_block, push_varint_field};
use std::alloc::AllocError;

/// The key of the overflow point's only attribute (Metrics SDK, overflow attribute).
pub(crate) const OVERFLOW_KEY: &str = "otel.metric.overflow";

/// Writes the attributes of a series, or the mark of the overflow series, which has no set key.
#[tactic(auto, unfolding(crate::specs::Series::series_fields))]
pub(crate) fn push_series(
    out: &mut Vec<u8>,
    field: u32,
    series: &Series<'_>,
    set: &Option<SetKey>,
) -> Result<(), AllocError>
    ensures { OnOk result (out.new.items ≡ out.old.items
        ++ series_fields field series.now.keys.now series.now.kept.now set.now) }
{
    match set {
        Some(set) => push_set(out, field, series, set.as_slice()),
        None => push_attribute(out, field, OVERFLOW_KEY, &AttrValue::Flag(true)),
    }
}

// Writes the attributes of a set key, where there are such from those that are written once for all points.
#[tactic(auto, using(crate::proofs::WrittenLaws::written_in_a_row))]
fn push_set(
    out: &mut Vec<u8>,
    field: u32,
    series: &Series<'_>,
    set: &[u16],
) -> Result<(), AllocError>
    ensures { OnOk result (out.new.items ≡ out.old.items ++ flat_map (attribute_field field)
        (attributes_of series.now.keys.now series.now.kept.now set.now)) }
{
    match series.attributes(Form::Bytes(field)) {
        Some(all) => push_entries(out, all, set),
        None => push_attributes(out, field, series.keys, series.kept, set),
    }
}

#[tactic(auto, unfolding(crate::specs::Written::entries_at))]
fn push_entries(out: &mut Vec<u8>, all: &[Entries], set: &[u16]) -> Result<(), AllocError>
    ensures { OnOk result (out.new.items ≡ out.old.items ++ concat (entries_at all.now set.now)) }
{
    let Some((entries, all)) = all.split_first() else {
        return Ok(());
    };
    let Some((entry, set)) = set.split_first() else {
        return Ok(());
    };
    if let Some(bytes) = entry_at(entries, *entry) {
        out.extend_from_slice(bytes)?;
    }
    push_entries(out, all, set)
}

// Writes the attributes that are kept and present.
fn push_attributes(
    out: &mut Vec<u8>,
    field: u32,
    keys: &[Key],
    kept: &[bool],
    set: &[u16],
) -> Result<(), AllocError>
    ensures { OnOk result (out.new.items ≡ out.old.items
        ++ flat_map (attribute_field field) (attributes_of keys.now kept.now set.now)) }
{
    let Some((key, keys)) = keys.split_first() else {
        return Ok(());
    };
    let Some((keep, kept)) = kept.split_first() else {
        return Ok(());
    };
    let Some((entry, set)) = set.split_first() else {
        return Ok(());
    };
    if let Some(pair) = attribute_of(key, *keep, *entry) {
        push_attribute(out, field, pair.key, pair.value)?;
    }
    push_attributes(out, field, keys, kept, set)
}

/// Writes an attribute: a message `KeyValue`.
#[tactic(auto, unfolding(crate::specs::Series::attribute_field), using(metric_wire::specs::ClosingLaws::closing))]
pub(crate) fn push_attribute(
    out: &mut Vec<u8>,
    field: u32,
    key: &str,
    value: &AttrValue,
) -> Result<(), AllocError>
    ensures { OnOk result (out.new.items
        ≡ out.old.items ++ attribute_field field (key.now, value.now)) }
{
    let place = begin_block(out, field)?;
    push_pair(out, key, value)?;
    end_block(out, place)
}

fn push_pair(out: &mut Vec<u8>, key: &str, value: &AttrValue) -> Result<(), AllocError>
    ensures { OnOk result (out.new.items
        ≡ out.old.items ++ (text_field 1 key.now ++ block 2 (any_value value.now))) }
{
    push_text(out, 1, key)?;
    push_value(out, value)
}

// Writes the value of an attribute: a message `AnyValue`.
#[tactic(auto, using(metric_wire::specs::ClosingLaws::closing))]
fn push_value(out: &mut Vec<u8>, value: &AttrValue) -> Result<(), AllocError>
    ensures { OnOk result (out.new.items ≡ out.old.items ++ block 2 (any_value value.now)) }
{
    let place = begin_block(out, 2)?;
    push_any_value(out, value)?;
    end_block(out, place)
}

fn push_any_value(out: &mut Vec<u8>, value: &AttrValue) -> Result<(), AllocError>
    ensures { OnOk result (out.new.items ≡ out.old.items ++ any_value value.now) }
{
    match value {
        AttrValue::Text(text) => push_block(out, 1, text.as_str().as_bytes()),
        AttrValue::Flag(flag) => push_varint_field(out, 2, u64::from(*flag)),
        AttrValue::Whole(number) => push_varint_field(out, 3, number.cast_unsigned()),
    }
}
