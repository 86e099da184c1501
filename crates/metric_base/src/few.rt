//! A list with a bound on its length, which the type keeps.
ghost use Rattle.std.specs.Prelude.{◌≡◌, ◌≤◌, length};

use crate::copied::{Copied, copy_all};
use crate::exact::Exact;
use crate::items::Items;
use std::alloc::{AllocError, Global};
use std::marker::Model;

/// A list of at most so many values. A clause sees the list alone.
#[derive(Debug, Drop)]
pub struct Few<T, const MOST: usize> {
    items: Items<T>,
}

impl<T, const MOST: usize> Model for Few<T, MOST> {
    ghost use Rattle.std.specs.Prelude.{List, length, ◌≤◌};

    ghost Value = { List T };

    ghost view = { λ t. t.items };

    ghost invariant = { λ t. length t.items ≤ MOST };
}

impl<T, const MOST: usize> Few<T, MOST> {
    /// The same list, which is short enough. Allocates no memory.
    pub fn from_items(items: Items<T>) -> Few<T, MOST>
        requires { length items ≤ MOST }
        ensures { result ≡ items }
    {
        Few { items }
    }

    /// The same list. Allocates no memory.
    pub fn into_items(self) -> Items<T>
        ensures items { result ≡ self }
        ensures few { length self ≤ MOST }
    {
        self.items
    }

    /// The values in order.
    pub fn as_slice(&self) -> &[T]
        ensures items { result.now ≡ self.now }
        ensures few { length self.now ≤ MOST }
    {
        self.items.as_slice()
    }

    /// How many values there are.
    pub fn len(&self) -> usize
        ensures length { result ≡ length self.now }
        ensures few { length self.now ≤ MOST }
    {
        self.items.len()
    }
}

impl<T: PartialEq, const MOST: usize> PartialEq for Few<T, MOST> {
    ghost use Rattle.std.specs.Cmp.Lexicographic.{pointwise, lists_per};

    ghost eq = { pointwise T.eq };

    ghost laws = { lists_per T.laws };

    fn eq(&self, other: &Few<T, MOST>) -> bool {
        self.items == other.items
    }
}

impl<T: Exact, const MOST: usize> Exact for Few<T, MOST> {
    ghost use Rattle.std.specs.Prelude.{refl};
    ghost use Rattle.std.proofs.lemmas.Slice.Eq.{slice_eq-Decides};

    ghost exact = { λ x y. slice_eq-Decides T.exact x y _ refl };
}

impl<T: Copied + Drop, const MOST: usize> Copied for Few<T, MOST> {
    fn copy(&self, alloc: Global) -> Result<Few<T, MOST>, AllocError> {
        let items = copy_all(alloc, self.as_slice())?;
        Ok(Few { items })
    }
}
