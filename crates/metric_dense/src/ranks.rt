//! Ranks by a table of weights.
ghost use Rattle.std.specs.Prelude.{◌≡◌, ◌<◌, ◌+◌, ℕ, true, IfOk};
ghost use Rattle.metric_facts.specs.Facts.{is_full_set};
ghost use Rattle.metric_facts.specs.Products.{product_of};
ghost use Rattle.metric_facts.specs.Ranks.{rank as rank_of};
ghost use Rattle.metric_dense.specs.Ranks.{series_of, IsRanked};

use crate::weights::{fill_weights, sets_of, step, unrank_into, weighted};
use metric_base::{Few, Items, Shared};
use metric_contents::SetKey;
use metric_facts::{KeyFacts, fill_least};
use std::alloc::{AllocError, Global};
use std::marker::Model;

/// The ranks of the series that a stream can have, and the series of ranks. A clause sees the keys, and which of
/// them the stream keeps.
#[derive(Drop)]
pub(crate) struct Ranks {
    kept: Shared<Few<bool, 8>>,
    keys: Items<KeyFacts>,
    // For each place of a set key what one more there is worth; 0 for a key that is not kept.
    weights: [u32; 8],
    // What the least entries weigh.
    base: u64,
}

impl Model for Ranks {
    ghost use Rattle.metric_dense.specs.Weights.{IsTable, RanksValue};

    ghost Value = { RanksValue };

    ghost view = { λ r. record { kept = r.kept; keys = r.keys } };

    ghost invariant = { λ r. IsTable r.kept r.keys r.weights r.base };
}

impl Ranks {
    /// The ranks by these keys, of which those with the flags are kept. Fails only when out of memory.
    pub(crate) fn new(
        alloc: Global,
        keys: &[KeyFacts],
        kept: Shared<Few<bool, 8>>,
    ) -> Result<Ranks, AllocError>
        requires { IsRanked kept keys.now }
        ensures { IfOk result (λ ranks. ranks ≡ record { kept = kept; keys = keys.now }) }
    {
        let own = copied(alloc, keys)?;
        let mut weights = [0u32; 8];
        let mut least = [0u16; 8];
        fill_weights(kept.get().as_slice(), keys, &mut weights);
        fill_least(keys, &mut least);
        Ok(Ranks {
            kept,
            keys: own,
            weights,
            base: weighted(&weights, &least),
        })
    }

    /// How many ranks there are: the product over the kept keys of how many values each declares, plus one where
    /// it is optional.
    pub(crate) fn count(&self) -> usize
        ensures { result ≡ product_of self.now.kept self.now.keys }
    {
        sets_of(self.kept.get().as_slice(), self.keys.as_slice()) as usize
    }

    /// The rank of a full set. It allocates no memory and has no branch for a key.
    #[inline(always)]
    pub(crate) fn rank(&self, set: &SetKey) -> u64
        requires { is_full_set self.now.keys set.now ≡ true }
        ensures { result ≡ rank_of self.now.kept self.now.keys set.now }
    {
        weighted(&self.weights, set) - self.base
    }

    /// The series of rank 0.
    pub(crate) fn first(&self) -> SetKey
        ensures { result ≡ series_of self.now.kept self.now.keys 0 }
    {
        let mut set = [0; 8];
        unrank_into(
            self.kept.get().as_slice(),
            self.keys.as_slice(),
            &self.weights,
            0,
            &mut set,
        );
        set
    }

    /// Makes the series of a rank that of the next rank, where there is one. It divides nothing, and mostly looks at the
    /// last key alone.
    #[inline(always)]
    pub(crate) fn step(&self, set: &mut SetKey)
        ensures { (r : ℕ) → r + 1 < product_of self.now.kept self.now.keys
            → set.old ≡ series_of self.now.kept self.now.keys r
            → set.new ≡ series_of self.now.kept self.now.keys (r + 1) }
    {
        let keys = self.keys.as_slice();
        step(self.kept.get().as_slice(), keys, &mut set[..keys.len()]);
    }
}

// The same keys.
fn copied(alloc: Global, keys: &[KeyFacts]) -> Result<Items<KeyFacts>, AllocError>
    ensures { IfOk result (λ own. own ≡ keys.now) }
{
    let mut own = Items::new(alloc);
    for key in keys {
        own.push(*key)?;
    }
    Ok(own)
}
