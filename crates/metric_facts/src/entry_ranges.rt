//! The least and the greatest entry of each place of a full set.
ghost use Rattle.std.specs.Prelude.{◌≡◌, length, replicate};
ghost use Rattle.metric_facts.specs.EntryRanges.{are_within, least_of, most_of};

use crate::facts::KeyFacts;
use metric_contents::SetKey;

/// Writes the least entry at each place: 0 where a key may be left out, and where there is no key.
pub fn fill_least(keys: &[KeyFacts], least: &mut [u16])
    requires empty { least.old ≡ replicate (length least.old) 0 }
    ensures { least.new ≡ least_of (length least.old) keys.now }
{
    let Some((key, keys)) = keys.split_first() else {
        return;
    };
    let Some((first, rest)) = least.split_first_mut() else {
        return;
    };
    *first = u16::from(!key.optional);
    fill_least(keys, rest);
}

// Writes the greatest entry at each place: 0 where there is no key.
pub(crate) fn fill_most(keys: &[KeyFacts], most: &mut [u16])
    requires empty { most.old ≡ replicate (length most.old) 0 }
    ensures { most.new ≡ most_of (length most.old) keys.now }
{
    let Some((key, keys)) = keys.split_first() else {
        return;
    };
    let Some((first, rest)) = most.split_first_mut() else {
        return;
    };
    *first = key.values;
    fill_most(keys, rest);
}

// Whether each entry is from the least to the greatest of its place. It has no branch for a key.
#[inline(always)]
pub(crate) fn are_within(least: &[u16; 8], most: &[u16; 8], set: &SetKey) -> bool
    ensures { result ≡ are_within 8 least.now most.now set.now }
{
    let mut within = true;
    for place in 0..8usize {
        within &= (least[place] <= set[place]) & (set[place] <= most[place]);
    }
    within
}
