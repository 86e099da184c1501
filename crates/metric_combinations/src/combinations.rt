//! The allowed combinations of an instrument.
ghost use Rattle.std.specs.Prelude.{◌≡◌, ◌≤◌, length, IfOk};
ghost use Rattle.metric_combinations.specs.Combinations.{allows, permits};

use crate::index::Index;
use metric_base::{Copied, Exact, Few, Shared};
use std::alloc::{AllocError, Global};
use std::marker::Model;

/// The combinations of values that an instrument allows: set keys, each with an entry for each declared key, 0 for a
/// key that is absent and else one plus the place of its value, and 0 beyond the declared keys. A clause
/// sees the list of the rows, in the order of their file. Copies share what is stored.
#[derive(Drop)]
pub struct Combinations {
    index: Shared<Index>,
}

impl Model for Combinations {
    ghost use Rattle.std.specs.Prelude.{ℕ, List};

    ghost Value = { List (List ℕ) };

    ghost view = { λ c. c.index };
}

impl Combinations {
    /// The combinations that are these rows, of which there are at most 4,096. Fails only when out of memory.
    pub(crate) fn new(alloc: Global, rows: Few<[u16; 8], 4096>) -> Result<Combinations, AllocError>
        ensures { IfOk result (λ combinations. combinations ≡ rows) }
    {
        let index = Index::new(alloc, rows)?;
        let index = Shared::new(alloc, index)?;
        Ok(Combinations { index })
    }

    /// The rows in the order of their file.
    pub fn rows(&self) -> &[[u16; 8]]
        ensures rows { result.now ≡ self.now }
        ensures few { length self.now ≤ 4096 }
    {
        self.index.get().rows()
    }

    /// Whether a set key is one of the combinations. Allocates no memory, and takes one step for each key, whatever the
    /// rows are.
    pub fn contains(&self, set: &[u16; 8]) -> bool
        ensures { result ≡ allows self.now set.now }
    {
        self.index.get().contains(set)
    }
}

/// Whether a set key is one of the combinations, or there are none to ask, so that each is permitted. Allocates no
/// memory.
#[inline]
pub fn permits(allowed: &Option<Combinations>, set: &[u16; 8]) -> bool
    ensures { result ≡ permits allowed.now set.now }
{
    match allowed {
        Some(combinations) => combinations.contains(set),
        None => true,
    }
}

impl PartialEq for Combinations {
    ghost use Rattle.std.specs.Prelude.{nat_eq};
    ghost use Rattle.std.specs.Cmp.{partial_equiv_from_equiv};
    ghost use Rattle.std.specs.Cmp.Lexicographic.{pointwise, lists_equiv, nat_list_eq_equiv};

    ghost eq = { pointwise (pointwise nat_eq) };

    ghost laws = { partial_equiv_from_equiv (lists_equiv nat_list_eq_equiv) };

    fn eq(&self, other: &Combinations) -> bool {
        self.rows() == other.rows()
    }
}

impl Exact for Combinations {
    ghost use Rattle.std.specs.Prelude.{refl};
    ghost use Rattle.std.proofs.lemmas.Slice.Eq.{bytes_eq-Decides, slice_eq-Decides};

    ghost exact = { λ x y. slice_eq-Decides bytes_eq-Decides x y _ refl };
}

// One more owner of the same rows, which takes no room.
impl Copied for Combinations {
    fn copy(&self, alloc: Global) -> Result<Combinations, AllocError> {
        let index = self.index.copy(alloc)?;
        Ok(Combinations { index })
    }
}
