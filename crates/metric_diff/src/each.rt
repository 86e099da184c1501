//! Changes that the elements of a list are told as, one after the other.
ghost use Rattle.std.specs.Prelude.{◌≡◌, ◌++◌, OnOk};
ghost use Rattle.std.specs.List.{enumerate_from, flat_map};

use crate::change::Change;
use metric_base::Items;
use std::alloc::AllocError;

/// What an element of a list is told as.
pub(crate) trait Teller<T> {
    ghost use Rattle.std.specs.Prelude.{◌≡◌, ◌++◌, ℕ, List, OnOk};
    ghost use Rattle.metric_diff.specs.declared.change.Change.{Change};

    // The changes of an element and its place.
    ghost told: { Self → ℕ × T → List Change };

    // Puts the changes of an element last.
    fn tell(
        &self,
        changes: &mut Items<Change>,
        number: usize,
        element: &T,
    ) -> Result<(), AllocError>
        ensures { OnOk result (changes.new ≡ changes.old ++ told self.now (number, element.now)) };
}

/// Puts the changes of each element last.
pub(crate) fn tell_each<T, C: Teller<T>>(
    changes: &mut Items<Change>,
    teller: &C,
    elements: &[T],
) -> Result<(), AllocError>
    ensures { OnOk result (changes.new ≡ changes.old
        ++ flat_map (C.told teller.now) (enumerate_from 0 elements.now)) }
{
    for (number, element) in elements.iter().enumerate() {
        teller.tell(changes, number, element)?;
    }
    Ok(())
}
