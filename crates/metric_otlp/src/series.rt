//! The attributes of a stream's series, written once for all of its points.
ghost use Rattle.std.specs.Prelude.{◌≡◌, ◌++◌, IfOk, IfSome, OnOk, map};
ghost use Rattle.std.specs.Option.{ForSome, option_map};
ghost use Rattle.metric_otlp.specs.Written.{all_entries, entry_at, key_entries, written};

use crate::{attribute, attribute_json};
use metric_base::Items;
use metric_contents::Key;
use metric_names::AttrValue;
use std::alloc::{AllocError, Global};

/// How attributes are written.
#[derive(Clone, Copy, PartialEq, Eq)]
pub(crate) enum Form {
    /// As a field of a message.
    Bytes(u32),
    /// As objects in JSON.
    Json,
}

/// The attribute of a key for each of its values, as it is written.
pub(crate) type Entries = Items<Items<u8>>;

/// The series of a stream.
#[derive(Drop)]
pub(crate) struct Series<'a> {
    /// The keys of the instrument.
    pub keys: &'a [Key],
    /// Which of them the stream keeps.
    pub kept: &'a [bool],
    // The attributes of each key in a form; nothing where there are too few points.
    form: Form,
    attributes: Option<Items<Entries>>,
    ghost attributes_written: { ForSome attributes (λ all. all
        ≡ all_entries form keys.now kept.now) },
}

impl<'a> Series<'a> {
    /// The series of a stream that has so many points, to be written in a form.
    pub fn new(
        alloc: Global,
        form: Form,
        keys: &'a [Key],
        kept: &'a [bool],
        points: usize,
    ) -> Result<Series<'a>, AllocError>
        ensures keys { IfOk result (λ series. series.keys.now ≡ keys.entry.now) }
        ensures kept { IfOk result (λ series. series.kept.now ≡ kept.entry.now) }
    {
        let attributes = attributes_of(alloc, form, keys, kept, points)?;
        Ok(Series {
            keys,
            kept,
            form,
            attributes,
        })
    }

    /// The attributes of each key in this form, where they are written.
    pub fn attributes(&self, form: Form) -> Option<&[Entries]>
        ensures { IfSome result (λ all. all.now
            ≡ all_entries form self.now.keys.now self.now.kept.now) }
    {
        if self.form != form {
            return None;
        }
        match &self.attributes {
            Some(all) => Some(all.as_slice()),
            None => None,
        }
    }
}

/// What an entry of a set key stands for.
pub(crate) fn entry_at(entries: &Entries, entry: u16) -> Option<&[u8]>
    ensures { option_map (λ text. text.now) result ≡ entry_at entries.now entry }
{
    if entry == 0 {
        return None;
    }
    match entries.as_slice().get(usize::from(entry - 1)) {
        Some(text) => Some(text.as_slice()),
        None => None,
    }
}

// The attributes of the values of all keys, where so many points are likely to have each of them several times.
fn attributes_of(
    alloc: Global,
    form: Form,
    keys: &[Key],
    kept: &[bool],
    points: usize,
) -> Result<Option<Items<Entries>>, AllocError>
    ensures { IfOk result (λ found. ForSome found (λ all. all
        ≡ all_entries form keys.now kept.now)) }
{
    if !are_repeated(keys, points) {
        return Ok(None);
    }
    let mut all = Vec::new(alloc);
    push_keys(alloc, &mut all, form, keys, kept)?;
    Ok(Some(Items::from_vec(all)))
}

// Whether there are three points or more for each value.
fn are_repeated(keys: &[Key], points: usize) -> bool {
    let mut rest = points / 3;
    for key in keys {
        rest = rest.saturating_sub(key.values.len());
    }
    rest > 0
}

#[tactic(auto, unfolding(crate::specs::Written::all_entries))]
fn push_keys(
    alloc: Global,
    all: &mut Vec<Entries>,
    form: Form,
    keys: &[Key],
    kept: &[bool],
) -> Result<(), AllocError>
    ensures { OnOk result (all.new.items ≡ all.old.items ++ all_entries form keys.now kept.now) }
{
    let Some((key, keys)) = keys.split_first() else {
        return Ok(());
    };
    let Some((keep, kept)) = kept.split_first() else {
        return Ok(());
    };
    all.push(entries_of(alloc, form, key, *keep)?)?;
    push_keys(alloc, all, form, keys, kept)
}

fn entries_of(alloc: Global, form: Form, key: &Key, keep: bool) -> Result<Entries, AllocError>
    ensures { IfOk result (λ entries. entries ≡ key_entries form key.now keep) }
{
    let mut entries = Items::new(alloc);
    if keep {
        push_values(alloc, &mut entries, form, key)?;
    }
    Ok(entries)
}

#[tactic(auto, using(metric_text::specs::ListLaws::steps))]
fn push_values(
    alloc: Global,
    entries: &mut Entries,
    form: Form,
    key: &Key,
) -> Result<(), AllocError>
    ensures { OnOk result (entries.new ≡ entries.old
        ++ map (λ value. written form (key.now.name, value)) key.now.values) }
{
    for value in key.values.as_slice() {
        let mut text = Vec::new(alloc);
        push_attribute(alloc, &mut text, form, key.name.as_str(), value)?;
        entries.push(Items::from_vec(text))?;
    }
    Ok(())
}

fn push_attribute(
    alloc: Global,
    out: &mut Vec<u8>,
    form: Form,
    key: &str,
    value: &AttrValue,
) -> Result<(), AllocError>
    ensures { OnOk result (out.new.items ≡ out.old.items ++ written form (key.now, value.now)) }
{
    match form {
        Form::Bytes(field) => attribute::push_attribute(out, field, key, value),
        Form::Json => attribute_json::push_attribute(alloc, out, key, value),
    }
}
