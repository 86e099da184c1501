//! Whether a set key is a full set, and an allowed one.
ghost use Rattle.std.specs.Prelude.{◌≡◌, ◌==◌};
ghost use Rattle.std.specs.List.{list_all};
ghost use Rattle.metric_facts.specs.Facts.{is_allowed_set, is_entry, is_full_set};

use crate::facts::{FactsFields, KeyFacts};
use metric_combinations::permits;
use metric_contents::SetKey;

// Whether the entries are a full set of the keys: one for each key, and 0 after them.
fn is_full_set(keys: &[KeyFacts], entries: &[u16]) -> bool
    ensures { result ≡ is_full_set keys.now entries.now }
{
    match (keys.split_first(), entries.split_first()) {
        (None, _) => are_zero(entries),
        (Some(_), None) => false,
        (Some((key, keys)), Some((entry, rest))) => is_entry(key, *entry)
            && is_full_set(keys, rest),
    }
}

/// Whether a set key is a full set of the keys, and one of the allowed combinations where these are listed. Allocates
/// no memory.
pub fn is_allowed_set(facts: &FactsFields, set: &SetKey) -> bool
    ensures { result ≡ is_allowed_set facts.now set.now }
{
    is_full_set(facts.keys.as_slice(), set) && permits(&facts.allowed, set)
}

// Whether each entry is 0.
pub(crate) fn are_zero(entries: &[u16]) -> bool
    ensures { result ≡ list_all (λ entry. entry == 0) entries.now }
{
    entries.iter().all(|entry| *entry == 0)
}

// Whether an entry names a value of the key, or is 0 where the key may be left out.
fn is_entry(key: &KeyFacts, entry: u16) -> bool
    ensures { result ≡ is_entry key.now entry }
{
    if entry == 0 {
        key.optional
    } else {
        entry <= key.values
    }
}
