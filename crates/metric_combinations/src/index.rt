//! Rows with what finds them.
ghost use Rattle.std.specs.Prelude.{◌≡◌, ◌≤◌, ◌||◌, ℕ, List, length, IfOk};
ghost use Rattle.std.specs.BTreeSet.{contains};
ghost use Rattle.std.specs.Cmp.Lexicographic.{slice_cmp};
ghost use Rattle.std.specs.Ordering.{nat_cmp};
ghost use Rattle.metric_combinations.specs.Combinations.{allows};
ghost use Rattle.metric_combinations.specs.Tries.{finds};

use crate::layout::trie_of;
use crate::trie::Trie;
use metric_base::{Few, Items};
use std::alloc::{AllocError, Global};
use std::collections::BTreeSet;
use std::marker::Model;

/// Rows that are found by a trie. A clause sees the rows in their order.
#[derive(Drop)]
pub(crate) struct Index {
    rows: Few<[u16; 8], 4096>,
    trie: Trie,
    // The rows to which the trie does not lead. It is laid out so that there are none.
    others: BTreeSet<[u16; 8]>,
}

impl Model for Index {
    ghost use Rattle.std.specs.Prelude.{◌≡◌, ◌||◌, ℕ, List};
    ghost use Rattle.std.specs.BTreeSet.{contains};
    ghost use Rattle.std.specs.Cmp.Lexicographic.{slice_cmp};
    ghost use Rattle.std.specs.Ordering.{nat_cmp};
    ghost use Rattle.metric_combinations.specs.Combinations.{allows};
    ghost use Rattle.metric_combinations.specs.Tries.{finds};

    ghost Value = { List (List ℕ) };

    ghost view = { λ i. i.rows };

    ghost invariant = { λ i. (set : List ℕ)
        → (finds i.trie i.rows set || contains (slice_cmp nat_cmp) i.others set)
        ≡ allows i.rows set };
}

impl Index {
    /// The rows, with what finds them. Fails only when out of memory.
    pub(crate) fn new(alloc: Global, rows: Few<[u16; 8], 4096>) -> Result<Index, AllocError>
        ensures { IfOk result (λ index. index ≡ rows) }
    {
        let trie = trie_of(alloc, rows.as_slice())?;
        let others = others(alloc, rows.as_slice(), &trie)?;
        Ok(Index { rows, trie, others })
    }

    /// The rows in order.
    pub(crate) fn rows(&self) -> &[[u16; 8]]
        ensures rows { result.now ≡ self.now }
        ensures few { length self.now ≤ 4096 }
    {
        self.rows.as_slice()
    }

    /// Whether a set key is among the rows. Allocates no memory.
    #[inline(always)]
    pub(crate) fn contains(&self, set: &[u16; 8]) -> bool
        ensures { result ≡ allows self.now set.now }
    {
        self.trie.finds(self.rows.as_slice(), set) || self.others.contains(set)
    }
}

// The rows to which the trie does not lead.
fn others(alloc: Global, rows: &[[u16; 8]], trie: &Trie) -> Result<BTreeSet<[u16; 8]>, AllocError>
    ensures { IfOk result (λ others. (set : List ℕ)
        → (finds trie.now rows.now set || contains (slice_cmp nat_cmp) others set)
        ≡ allows rows.now set) }
{
    let mut others = BTreeSet::new(alloc);
    for row in rows {
        if !trie.finds(rows, row) {
            others.insert(*row)?;
        }
    }
    Ok(others)
}
