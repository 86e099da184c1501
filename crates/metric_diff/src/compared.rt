//! All that differs.
ghost use Rattle.std.specs.Prelude.{◌≡◌, IfOk};
ghost use Rattle.metric_diff.specs.Changes.{changes_of, plan_of};
ghost use Rattle.metric_diff.specs.Equal.{is_equal, is_nil};

use crate::change::Change;
use crate::named::{Sort, add_sort};
use crate::side::Side;
use metric_base::Items;
use std::alloc::{AllocError, Global};

/// What differs between an old catalogue and config and new ones, in this order: each old reader that is none of the new
/// ones, or has another name; the new readers that are none of the old ones; the same of streams, with the parts in which
/// they differ; which of them have the name of an earlier one, and had not; and the same of instruments, with their keys,
/// values and budgets, and of recorders. Streams are the same where their readers are, their meters have one name, version
/// and schema URL, and they one name without case (Metrics data model, identity); of several the first counts. Readers
/// are the same that have one name, or stand at one place, if no other one has their names. There is none exactly
/// where both are equal in all that is compared, in whatever order it stands. Takes n log n for n streams, and a step for
/// each value and each key of a combination. Fails only when out of memory.
pub fn changes(alloc: Global, old: Side<'_>, new: Side<'_>) -> Result<Items<Change>, AllocError>
    ensures exact { IfOk result (λ changes. changes
        ≡ changes_of (plan_of old.entry) (plan_of new.entry)) }
    ensures nothing { IfOk result (λ changes. is_nil changes
        ≡ is_equal (plan_of old.entry) (plan_of new.entry)) }
{
    let changes = all_changes(alloc, old, new)?;
    Ok(changes)
}

fn all_changes(alloc: Global, old: Side<'_>, new: Side<'_>) -> Result<Items<Change>, AllocError>
    ensures { IfOk result (λ changes. changes
        ≡ changes_of (plan_of old.entry) (plan_of new.entry)) }
{
    let mut changes = Items::new(alloc);
    add_sort(alloc, &mut changes, Sort::Readers, old, new)?;
    add_sort(alloc, &mut changes, Sort::Streams, old, new)?;
    add_sort(alloc, &mut changes, Sort::Collisions, old, new)?;
    add_sort(alloc, &mut changes, Sort::Instruments, old, new)?;
    add_sort(alloc, &mut changes, Sort::Recorders, old, new)?;
    Ok(changes)
}
