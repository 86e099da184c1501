//! Labels that a server writes itself, and the keys that have them too.
ghost use Rattle.std.specs.Prelude.{◌≡◌, ◌++◌, ◌==◌, ◌&&◌, not, ℕ, List, None, IfOk, OnOk, codes, if◌then◌else◌, is_some, length, map};
ghost use Rattle.std.specs.BTreeMap.{get_by_text};
ghost use Rattle.std.specs.List.{list_any};
ghost use Rattle.std.specs.Option.{option_map};
ghost use Rattle.metric_names.specs.Values.{value_text};
ghost use Rattle.metric_family.specs.Words.{is_among};
ghost use Rattle.metric_exposure.specs.KeyTexts.{is_empty_text};
ghost use Rattle.metric_exposure.specs.Renames.{is_shared, is_shown_as, key_as, may_take, merged_labels, place_labels};

use crate::collisions::{Claims, add_name};
use crate::keys::{has_empty_text, push_if, texts_of};
use metric_base::Text;
use metric_contents::Key;
use metric_family::label_of;
use metric_names::AttrValue;
use std::alloc::{AllocError, Global};
use std::collections::BTreeMap;

/// Puts the labels last under which a server, which writes this label itself, would make two series one.
#[tactic(auto, unfolding(crate::specs::Renames::merged_labels))]
pub(crate) fn add_merged(
    alloc: Global,
    labels: &mut Vec<Text>,
    keys: &[Key],
    kept: &[bool],
    own: &str,
) -> Result<(), AllocError>
    ensures { OnOk result (labels.new.items
        ≡ labels.old.items ++ merged_labels keys.now kept.now own.now) }
{
    let mut places = place_labels(alloc, keys, kept, own)?;
    if places.is_empty() {
        return Ok(());
    }
    places.remove(0);
    labels.append(&mut places)
}

// The labels under which the text of a label that a server writes itself may come to stand.
fn place_labels(
    alloc: Global,
    keys: &[Key],
    kept: &[bool],
    own: &str,
) -> Result<Vec<Text>, AllocError>
    ensures { IfOk result (λ places. places.items ≡ place_labels keys.now kept.now own.now) }
{
    let mut places = Vec::new(alloc);
    let Some(first) = key_as(alloc, keys, kept, own)? else {
        return Ok(places);
    };
    let texts = texts_in(alloc, first)?;
    let mut name = Text::new(alloc, own)?;
    let mut is_reached = true;
    for _times in 0..keys.len() {
        let takes = takes_at(alloc, is_reached, &texts, keys, kept, name.as_str())?;
        push_if(alloc, &mut places, takes.unwrap_or(false), name.as_str())?;
        is_reached = takes.is_some();
        name = exported(alloc, name.as_str())?;
    }
    Ok(places)
}

// A label with `exported_` before it.
fn exported(alloc: Global, label: &str) -> Result<Text, AllocError>
    ensures { IfOk result (λ text. text ≡ codes "exported_" ++ label.now) }
{
    let mut text = String::from_str(alloc, "exported_")?;
    text.push_str(label)?;
    Ok(Text::from_string(text))
}

// Whether the key of a label may be absent, and have one of these texts, where there is such a key and it is reached.
fn takes_at(
    alloc: Global,
    is_reached: bool,
    texts: &Claims,
    keys: &[Key],
    kept: &[bool],
    label: &str,
) -> Result<Option<bool>, AllocError>
    ensures { IfOk result (λ takes. takes ≡ (if is_reached
        then option_map (may_take (λ text. is_some (get_by_text texts.now text)))
        (key_as keys.now kept.now label.now) else None)) }
{
    if !is_reached {
        return Ok(None);
    }
    match key_as(alloc, keys, kept, label)? {
        None => Ok(None),
        Some(key) => Ok(Some(may_take(alloc, texts, key)?)),
    }
}

fn may_take(alloc: Global, texts: &Claims, key: &Key) -> Result<bool, AllocError>
    ensures { IfOk result (λ takes. takes
        ≡ may_take (λ text. is_some (get_by_text texts.now text)) key.now) }
{
    let own = texts_of(alloc, key.values.as_slice())?;
    let may_lack = key.optional || has_empty_text(own.as_slice());
    Ok(may_lack && has_shared(texts, own.as_slice()))
}

fn has_shared(texts: &Claims, own: &[AttrValue]) -> bool
    ensures { result
        ≡ list_any (is_shared (λ text. is_some (get_by_text texts.now text))) own.now }
{
    own.iter().any(|text| is_shared(texts, text))
}

fn is_shared(texts: &Claims, text: &AttrValue) -> bool
    ensures { result ≡ is_shared (λ text. is_some (get_by_text texts.now text)) text.now }
{
    match text {
        AttrValue::Text(text) => is_shared_text(texts, text.as_str()),
        _ => false,
    }
}

fn is_shared_text(texts: &Claims, text: &str) -> bool
    ensures { result
        ≡ (not (length text.now == 0) && is_some (get_by_text texts.now text.now)) }
{
    !text.is_empty() && texts.contains_key(text)
}

// The texts of a key's values.
fn texts_in(alloc: Global, key: &Key) -> Result<Claims, AllocError>
    ensures { IfOk result (λ texts. (text : List ℕ) → is_some (get_by_text texts text)
        ≡ is_among (map value_text key.now.values) text) }
{
    let mut texts: Claims = BTreeMap::new(alloc);
    for value in key.values.as_slice() {
        add_name(&mut texts, format!(in alloc; "{value}")?, 0)?;
    }
    Ok(texts)
}

// The first kept key that a line may show under a label. It calls itself at most as often as there are keys.
fn key_as<'a>(
    alloc: Global,
    keys: &'a [Key],
    kept: &[bool],
    label: &str,
) -> Result<Option<&'a Key>, AllocError>
    ensures { IfOk result (λ key. option_map (λ k. k.now) key
        ≡ key_as keys.now kept.now label.now) }
{
    let Some((key, keys)) = keys.split_first() else {
        return Ok(None);
    };
    let Some((keep, kept)) = kept.split_first() else {
        return Ok(None);
    };
    if *keep && is_shown_as(alloc, label, key)? {
        return Ok(Some(key));
    }
    key_as(alloc, keys, kept, label)
}

fn is_shown_as(alloc: Global, label: &str, key: &Key) -> Result<bool, AllocError>
    ensures { IfOk result (λ answer. answer ≡ is_shown_as label.now key.now) }
{
    let own = label_of(alloc, key.name.as_str())?;
    if own.as_str() != label {
        return Ok(false);
    }
    let texts = texts_of(alloc, key.values.as_slice())?;
    Ok(has_text(texts.as_slice()))
}

fn has_text(texts: &[AttrValue]) -> bool
    ensures { result ≡ list_any (λ text. not (is_empty_text text)) texts.now }
{
    texts.iter().any(|text| !matches!(text, AttrValue::Text(text) if text.as_str().is_empty()))
}
