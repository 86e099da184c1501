//! Which entries of a stream's keys a selector asks for.
ghost use Rattle.std.specs.Prelude.{◌≡◌, false, IfOk, slice_index_or};
ghost use Rattle.std.specs.List.{list_any};
ghost use Rattle.metric_family.specs.Labels.{label_of};
ghost use Rattle.metric_queries.specs.ByKeys.{has_set, is_row_asked, is_text_asked, mask_of, takes_at};

use crate::asked::Asked;
use crate::test::takes;
use metric_base::Items;
use metric_combinations::Combinations;
use metric_contents::Key;
use metric_family::text_of;
use std::alloc::{AllocError, Global};

/// Whether each matcher of a label takes a text.
pub(crate) fn takes_at(
    alloc: Global,
    label: &str,
    text: &str,
    asked: &[Asked],
) -> Result<bool, AllocError>
    ensures { IfOk result (λ answer. answer ≡ takes_at label.now text.now asked.now) }
{
    for one in asked {
        if one.label.as_str() == label && !takes(alloc, &one.test, text)? {
            return Ok(false);
        }
    }
    Ok(true)
}

/// Of the entries of a key, from none on, which are asked for, where the matchers of its label count.
pub(crate) fn mask_of(
    alloc: Global,
    label: &str,
    is_judged: bool,
    key: &Key,
    asked: &[Asked],
) -> Result<Items<bool>, AllocError>
    requires { label.now ≡ label_of key.now.name }
    ensures { IfOk result (λ mask. mask ≡ mask_of is_judged key.now asked.now) }
{
    let mut mask = Items::new(alloc);
    let is_none_asked = is_text_asked(alloc, is_judged, label, asked, "")?;
    mask.push(key.optional && is_none_asked)?;
    let values = key.values.as_slice();
    for value in values {
        let text = text_of(alloc, value)?;
        mask.push(is_text_asked(alloc, is_judged, label, asked, text.as_str())?)?;
    }
    Ok(mask)
}

// Whether a text under a label is asked for, where its matchers count.
fn is_text_asked(
    alloc: Global,
    is_judged: bool,
    label: &str,
    asked: &[Asked],
    text: &str,
) -> Result<bool, AllocError>
    ensures { IfOk result (λ answer. answer
        ≡ is_text_asked is_judged label.now asked.now text.now) }
{
    if !is_judged {
        return Ok(true);
    }
    takes_at(alloc, label, text, asked)
}

/// Whether some set has an entry of each key that is asked for: without a list of combinations one key does not know of
/// the others.
pub(crate) fn has_set(masks: &[Items<bool>], allowed: &Option<Combinations>) -> bool
    ensures { result ≡ has_set masks.now allowed.now }
{
    match allowed {
        None => masks.iter().all(|mask| has_entry(mask)),
        Some(combinations) => combinations
            .rows()
            .iter()
            .any(|row| is_row_asked(masks, row)),
    }
}

fn has_entry(mask: &Items<bool>) -> bool
    ensures { result ≡ list_any (λ is_asked. is_asked) mask.now }
{
    mask.as_slice().iter().any(|is_asked| *is_asked)
}

// Whether a row has an entry of each key that is asked for.
fn is_row_asked(masks: &[Items<bool>], row: &[u16; 8]) -> bool
    ensures { result ≡ is_row_asked masks.now row.now }
{
    masks
        .iter()
        .zip(row.iter())
        .all(|(mask, entry)| is_entry(mask, *entry))
}

fn is_entry(mask: &Items<bool>, entry: u16) -> bool
    ensures { result ≡ slice_index_or mask.now entry false }
{
    match mask.as_slice().get(entry as usize) {
        Some(is_asked) => *is_asked,
        None => false,
    }
}
