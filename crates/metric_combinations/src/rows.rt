//! Combinations that are read one after the other.
ghost use Rattle.std.specs.Prelude.{◌≡◌, ◌≤◌, ◌++◌, ◌∷◌, [], if◌then◌else◌, length, not, IfOk, OnErr};
ghost use Rattle.metric_combinations.specs.Combinations.{allows};

use crate::combinations::Combinations;
use metric_base::{Few, Items};
use std::alloc::{AllocError, Global};
use std::collections::BTreeSet;
use std::marker::Model;

/// The rows that are read so far, of which none stands twice. A clause sees the list of them.
#[derive(Drop)]
pub struct CombinationRows {
    rows: Vec<[u16; 8]>,
    known: BTreeSet<[u16; 8]>,
}

impl Model for CombinationRows {
    ghost use Rattle.std.specs.Prelude.{◌≡◌, ℕ, List};
    ghost use Rattle.std.specs.BTreeSet.{contains};
    ghost use Rattle.std.specs.Cmp.Lexicographic.{slice_cmp};
    ghost use Rattle.std.specs.Ordering.{nat_cmp};
    ghost use Rattle.metric_combinations.specs.Combinations.{allows};

    ghost Value = { List (List ℕ) };

    ghost view = { λ r. r.rows.items };

    ghost invariant = { λ r. (set : List ℕ)
        → contains (slice_cmp nat_cmp) r.known set ≡ allows r.rows.items set };
}

impl CombinationRows {
    /// No rows. Allocates no memory.
    pub fn new(alloc: Global) -> CombinationRows
        ensures { result ≡ [] }
    {
        CombinationRows {
            rows: Vec::new(alloc),
            known: BTreeSet::new(alloc),
        }
    }

    /// Puts a row last, unless it stands there already, and answers whether it was new. When out of memory, the rows
    /// stay as they were.
    pub fn push(&mut self, row: [u16; 8]) -> Result<bool, AllocError>
        ensures new { IfOk result (λ new. new ≡ not (allows self.old row)) }
        ensures rows { IfOk result (λ new. self.new
            ≡ (if new then self.old ++ row ∷ [] else self.old)) }
        ensures refused { OnErr result (self.new ≡ self.old) }
    {
        self.rows.reserve(1)?;
        let new = self.known.insert(row)?;
        if new {
            self.rows.push_reserved(row);
        }
        Ok(new)
    }

    /// How many rows there are.
    pub fn len(&self) -> usize
        ensures { result ≡ length self.now }
    {
        self.rows.len()
    }

    /// The combinations that the rows are. Fails only when out of memory.
    pub fn finish(self, alloc: Global) -> Result<Combinations, AllocError>
        requires { length self ≤ 4096 }
        ensures { IfOk result (λ combinations. combinations ≡ self) }
    {
        let rows = Few::from_items(Items::from_vec(self.rows));
        Combinations::new(alloc, rows)
    }
}
