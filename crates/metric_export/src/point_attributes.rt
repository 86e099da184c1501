//! The attributes of a point.
ghost use Rattle.std.specs.Prelude.{◌≡◌, ◌++◌, OnOk, map};
ghost use Rattle.std.specs.Option.{option_copied, option_map};
ghost use Rattle.metric_base.specs.Steps.{GivesBy};
ghost use Rattle.metric_contents.specs.Attributes.{given_by};
ghost use Rattle.metric_lines.specs.Keys.{attribute_of, attributes_of, value_at};
ghost use Rattle.metric_export.specs.Attributes.{declared_keys, point_attributes, series_attributes};

use crate::belonging::own_plan;
use crate::fault::ExportFault;
use metric_contents::{Attr, Key, SetKey, Values};
use metric_history::{Batch, Point};
use metric_names::{AttrValue, ValueRef};
use metric_plan::Plan;
use metric_views::Stream;
use std::alloc::{AllocError, Global};

/// The key of the overflow point's only attribute (Metrics SDK, overflow attribute).
const OVERFLOW_KEY: &str = "otel.metric.overflow";

/// The attributes of a point of a batch, in a stream of its plan: of the keys that the stream's instrument declares, in
/// declared order, those that the stream keeps and that are present, each with its value. The overflow point has the one
/// attribute `otel.metric.overflow` with the value true.
///
/// # Errors
///
/// [`ExportFault::OtherPlan`] exactly where the batch was not collected of this plan or one of the same texts, and
/// `Memory`.
pub fn attributes<'a>(
    alloc: Global,
    plan: &'a Plan,
    batch: &Batch,
    stream: &Stream,
    point: &Point,
) -> Result<Vec<Attr<'a>>, ExportFault>
    ensures { GivesBy (λ attributes. map given_by attributes.items) ExportFault.Memory result
        (point_attributes plan.entry.now batch.now stream.now point.now.set) }
{
    own_plan(plan, batch)?;
    let keys = declared_keys(plan, stream);
    let kept = stream.kept.get().as_slice();
    let mut attributes = Vec::new(alloc);
    push_series(&mut attributes, keys, kept, &point.set)?;
    Ok(attributes)
}

// The declared keys of a stream's instrument, none where the plan has no such instrument.
fn declared_keys<'a>(plan: &'a Plan, stream: &Stream) -> &'a [Key]
    ensures { result.now ≡ declared_keys plan.entry.now stream.now }
{
    match plan
        .catalogue()
        .instruments()
        .get(stream.instrument as usize)
    {
        Some(instrument) => instrument.keys.as_slice(),
        None => &[],
    }
}

// Puts the attributes of a series last.
fn push_series<'a>(
    out: &mut Vec<Attr<'a>>,
    keys: &'a [Key],
    kept: &[bool],
    set: &Option<SetKey>,
) -> Result<(), AllocError>
    ensures { OnOk result (map given_by out.new.items
        ≡ map given_by out.old.items ++ series_attributes keys.entry.now kept.now set.now) }
{
    match set {
        Some(set) => push_attributes(out, keys, kept, set.as_slice()),
        None => Ok(out.push(Attr {
            key: OVERFLOW_KEY,
            value: ValueRef::Flag(true),
        })?),
    }
}

// Puts the attributes last that are kept and present.
fn push_attributes<'a>(
    out: &mut Vec<Attr<'a>>,
    keys: &'a [Key],
    kept: &[bool],
    set: &[u16],
) -> Result<(), AllocError>
    ensures { OnOk result (map given_by out.new.items
        ≡ map given_by out.old.items ++ attributes_of keys.entry.now kept.now set.now) }
{
    let Some((key, keys)) = keys.split_first() else {
        return Ok(());
    };
    let Some((keep, kept)) = kept.split_first() else {
        return Ok(());
    };
    let Some((entry, set)) = set.split_first() else {
        return Ok(());
    };
    if let Some(attribute) = attribute_of(key, *keep, *entry) {
        out.push(attribute)?;
    }
    push_attributes(out, keys, kept, set)
}

// The attribute of a key, where it is kept and its entry names a value.
fn attribute_of(key: &Key, keep: bool, entry: u16) -> Option<Attr<'_>>
    ensures { option_map given_by result ≡ attribute_of key.entry.now keep entry }
{
    if !keep {
        return None;
    }
    let value = value_at(&key.values, entry)?;
    Some(Attr {
        key: key.name.as_str(),
        value: value.as_ref(),
    })
}

// The value that an entry of a set key names.
fn value_at(values: &Values, entry: u16) -> Option<&AttrValue>
    ensures { option_copied result ≡ value_at values.now entry }
{
    if entry == 0 {
        return None;
    }
    values.as_slice().get(usize::from(entry - 1))
}
