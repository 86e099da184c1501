//! The keys of a stream: as attributes with their values, and by name.
ghost use Rattle.std.specs.Prelude.{◌≡◌, ◌++◌, OnOk};
ghost use Rattle.std.specs.Option.{option_copied, option_map};
ghost use Rattle.metric_text.specs.Lists.{led_by};
ghost use Rattle.metric_text.specs.Written.{quoted};
ghost use Rattle.metric_lines.specs.Keys.{attribute_of, attribute_text, attributes_of};
ghost use Rattle.metric_lines.specs.Keys.{kept_names, names_text, series_text, value_at};

use metric_contents::{Key, SetKey, Values};
use metric_names::AttrValue;
use metric_text::{Pair, push_pair, push_quoted, push_text};
use std::alloc::AllocError;

/// The key of the overflow point's only attribute (Metrics SDK, overflow attribute).
const OVERFLOW_KEY: &str = "otel.metric.overflow";

/// Writes the attributes of a series, or the mark of the overflow series, which has no set key.
#[tactic(auto, unfolding(crate::specs::Keys::series_text), using(metric_text::specs::ListLaws::joined_is_led))]
pub(crate) fn push_series(
    out: &mut Vec<u8>,
    keys: &[Key],
    kept: &[bool],
    set: &Option<SetKey>,
) -> Result<(), AllocError>
    ensures { OnOk result (out.new.items ≡ out.old.items ++ series_text keys.now kept.now set.now) }
{
    match set {
        Some(set) => push_attributes(out, "", keys, kept, set.as_slice()),
        None => push_pair(out, OVERFLOW_KEY, &AttrValue::Flag(true)),
    }
}

// Writes the attributes that are kept and present, with a text before the first and commas between.
fn push_attributes(
    out: &mut Vec<u8>,
    before: &str,
    keys: &[Key],
    kept: &[bool],
    set: &[u16],
) -> Result<(), AllocError>
    ensures { OnOk result (out.new.items ≡ out.old.items
        ++ led_by before.now attribute_text (attributes_of keys.now kept.now set.now)) }
{
    let Some((key, keys)) = keys.split_first() else {
        return Ok(());
    };
    let Some((keep, kept)) = kept.split_first() else {
        return Ok(());
    };
    let Some((entry, set)) = set.split_first() else {
        return Ok(());
    };
    match attribute_of(key, *keep, *entry) {
        Some(pair) => {
            push_text(out, before)?;
            push_pair(out, pair.key, pair.value)?;
            push_attributes(out, ",", keys, kept, set)
        }
        None => push_attributes(out, before, keys, kept, set),
    }
}

/// The attribute of a key in a series, where the stream keeps the key and the entry of the set key names a value of it.
pub fn attribute_of(key: &Key, keep: bool, entry: u16) -> Option<Pair<'_>>
    ensures { option_map (λ pair. (pair.key.now, pair.value.now)) result
        ≡ attribute_of key.now keep entry }
{
    if !keep {
        return None;
    }
    let value = value_at(&key.values, entry)?;
    Some(Pair {
        key: key.name.as_str(),
        value,
    })
}

// The value that an entry of a set key names.
fn value_at(values: &Values, entry: u16) -> Option<&AttrValue>
    ensures { option_copied result ≡ value_at values.now entry }
{
    if entry == 0 {
        return None;
    }
    values.as_slice().get(usize::from(entry - 1))
}

/// Writes the names of the kept keys, with commas between.
#[tactic(auto, unfolding(crate::specs::Keys::names_text), using(metric_text::specs::ListLaws::joined_is_led))]
pub(crate) fn push_names(out: &mut Vec<u8>, keys: &[Key], kept: &[bool]) -> Result<(), AllocError>
    ensures { OnOk result (out.new.items ≡ out.old.items ++ names_text keys.now kept.now) }
{
    push_kept(out, "", keys, kept)
}

// Writes the names of the kept keys, with a text before the first and commas between.
fn push_kept(out: &mut Vec<u8>, before: &str, keys: &[Key], kept: &[bool]) -> Result<(), AllocError>
    ensures { OnOk result (out.new.items ≡ out.old.items
        ++ led_by before.now quoted (kept_names keys.now kept.now)) }
{
    let Some((key, keys)) = keys.split_first() else {
        return Ok(());
    };
    let Some((keep, kept)) = kept.split_first() else {
        return Ok(());
    };
    if !*keep {
        return push_kept(out, before, keys, kept);
    }
    push_text(out, before)?;
    push_quoted(out, key.name.as_str())?;
    push_kept(out, ",", keys, kept)
}
