//! The weights of a stream's keys, and the sets of ranks.
ghost use Rattle.std.specs.Prelude.{◌≡◌, ◌<◌, ◌≤◌, ◌-◌, ◌^◌, length, min, replicate};
ghost use Rattle.metric_facts.specs.Products.{key_choices, product_of, radix as radix_of};
ghost use Rattle.metric_dense.specs.Ranks.{entry_of as entry_of_digit, unrank};
ghost use Rattle.metric_dense.specs.Steps.{entry_after, is_last, stepped};
ghost use Rattle.metric_dense.specs.Weights.{weighted as weighted_sum, weights_of};

use metric_facts::KeyFacts;

// What a list of entries weighs: the sum of eight products.
#[inline(always)]
pub(crate) fn weighted(weights: &[u32; 8], entries: &[u16; 8]) -> u64
    ensures { result ≡ weighted_sum 8 weights.now entries.now }
{
    let mut total: u64 = 0;
    for place in 0..8usize {
        total += u64::from(weights[place]) * u64::from(entries[place]);
    }
    total
}

// The choices of a key, where it is kept.
fn radix(kept: bool, key: &KeyFacts) -> u64
    ensures { result ≡ radix_of kept key.now }
{
    if !kept {
        return 1;
    }
    let values = u64::from(key.values);
    if key.optional { values + 1 } else { values }
}

/// How many series a stream with these flags of kept keys can have: the product over the kept keys of how many
/// values each declares, plus one where it is optional. A greater number than `u64::MAX` is `u64::MAX`.
#[tactic(auto, using(crate::proofs::Weighing::saturated))]
pub(crate) fn sets_of(kept: &[bool], keys: &[KeyFacts]) -> u64
    ensures { result ≡ min (product_of kept.now keys.now) (2 ^ 64 - 1) }
{
    let Some((flag, kept)) = kept.split_first() else {
        return 1;
    };
    let Some((key, keys)) = keys.split_first() else {
        return 1;
    };
    radix(*flag, key).saturating_mul(sets_of(kept, keys))
}

// Writes what one more is worth at each place.
#[tactic(auto, using(crate::proofs::Ranking::rest_some, crate::proofs::Ranking::rest_small))]
pub(crate) fn fill_weights(kept: &[bool], keys: &[KeyFacts], weights: &mut [u32])
    requires paired { length kept.now ≡ length keys.now }
    requires some { 0 < product_of kept.now keys.now }
    requires small { product_of kept.now keys.now < 2 ^ 32 }
    requires few { length keys.now ≤ length weights.old }
    requires empty { weights.old ≡ replicate (length weights.old) 0 }
    ensures { weights.new ≡ weights_of (length weights.old) kept.now keys.now }
{
    let Some((flag, kept)) = kept.split_first() else {
        return;
    };
    let Some((_, keys)) = keys.split_first() else {
        return;
    };
    let Some((first, rest)) = weights.split_first_mut() else {
        return;
    };
    if *flag {
        *first = sets_of(kept, keys) as u32;
    }
    fill_weights(kept, keys, rest);
}

// The entry of a digit.
fn entry(key: &KeyFacts, digit: u64) -> u16
    requires { digit < key_choices key.now }
    ensures { result ≡ entry_of_digit key.now digit }
{
    let _values = key.values;
    if key.optional {
        digit as u16
    } else {
        (digit + 1) as u16
    }
}

// Writes the restricted set of a rank.
#[tactic(auto, using(crate::proofs::Ranking::some_worth, crate::proofs::Ranking::digit_low, crate::proofs::Ranking::rest_low))]
pub(crate) fn unrank_into(
    kept: &[bool],
    keys: &[KeyFacts],
    weights: &[u32],
    rank: u64,
    set: &mut [u16],
)
    requires paired { length kept.now ≡ length keys.now }
    requires few { length keys.now ≤ length set.old }
    requires below { rank < product_of kept.now keys.now }
    requires weights { weights.now ≡ weights_of (length set.old) kept.now keys.now }
    requires empty { set.old ≡ replicate (length set.old) 0 }
    ensures { set.new ≡ unrank (length set.old - length keys.now) kept.now keys.now rank }
{
    let Some((flag, kept)) = kept.split_first() else {
        return;
    };
    let Some((key, keys)) = keys.split_first() else {
        return;
    };
    let Some((weight, weights)) = weights.split_first() else {
        return;
    };
    let Some((first, rest)) = set.split_first_mut() else {
        return;
    };
    if !*flag {
        return unrank_into(kept, keys, weights, rank, rest);
    }
    let weight = u64::from(*weight);
    *first = entry(key, rank / weight);
    unrank_into(kept, keys, weights, rank % weight, rest);
}

// Writes the set after a set of ranks; after the last one the first.
pub(crate) fn step(kept: &[bool], keys: &[KeyFacts], set: &mut [u16])
    requires flags { length kept.now ≡ length keys.now }
    requires places { length set.old ≡ length keys.now }
    ensures { set.new ≡ stepped kept.now keys.now set.old }
{
    let Some((flag, kept)) = kept.split_last() else {
        return;
    };
    let Some((key, keys)) = keys.split_last() else {
        return;
    };
    let Some((last, rest)) = set.split_last_mut() else {
        return;
    };
    let is_end = is_last(*flag, key, *last);
    *last = entry_after(*flag, key, *last);
    if is_end {
        step(kept, keys, rest);
    }
}

// Whether an entry is the last one of a key in sets of ranks.
#[inline(always)]
fn is_last(kept: bool, key: &KeyFacts, entry: u16) -> bool
    ensures { result ≡ is_last kept key.now entry }
{
    !kept || entry >= key.values
}

// The entry after it; after the last one the first.
#[inline(always)]
fn entry_after(kept: bool, key: &KeyFacts, entry: u16) -> u16
    ensures { result ≡ entry_after kept key.now entry }
{
    if !kept {
        entry
    } else if entry < key.values {
        entry + 1
    } else {
        u16::from(!key.optional)
    }
}
