//! What is left of combinations where some keys are not kept.
ghost use Rattle.std.specs.Prelude.{◌≡◌, IfOk};
ghost use Rattle.std.specs.BTreeSet.{keys};
ghost use Rattle.metric_combinations.specs.Restrictions.{restricted, restrictions};

use crate::combinations::Combinations;
use metric_base::Items;
use std::alloc::{AllocError, Global};
use std::collections::BTreeSet;

impl Combinations {
    /// The distinct restrictions of the rows to the kept keys, in strictly rising order: the series that a stream which
    /// keeps these keys can have. Fails only when out of memory.
    pub fn restrictions(&self, alloc: Global, kept: &[bool]) -> Result<Items<[u16; 8]>, AllocError>
        ensures { IfOk result (λ list. list ≡ restrictions kept.now self.now) }
    {
        let sets = restricted_rows(alloc, kept, self.rows())?;
        let list: Vec<[u16; 8]> = sets.iter().copied().collect(alloc)?;
        Ok(Items::from_vec(list))
    }
}

// The restrictions of the rows, in order.
fn restricted_rows(
    alloc: Global,
    kept: &[bool],
    rows: &[[u16; 8]],
) -> Result<BTreeSet<[u16; 8]>, AllocError>
    ensures { IfOk result (λ sets. keys sets ≡ restrictions kept.now rows.now) }
{
    let mut sets = BTreeSet::new(alloc);
    for row in rows {
        sets.insert(restrict(kept, row))?;
    }
    Ok(sets)
}

/// The series of a recording with this set in a stream that keeps these keys: the set with 0 in place of each key that
/// is not kept (Metrics SDK, stream configuration: attribute keys). Allocates no memory.
pub fn restrict(kept: &[bool], set: &[u16; 8]) -> [u16; 8]
    ensures { result ≡ restricted kept.now set.now }
{
    let mut set = *set;
    clear_dropped(kept, &mut set);
    set
}

// Puts 0 in place of each key that is not kept.
fn clear_dropped(kept: &[bool], set: &mut [u16])
    ensures { set.new ≡ restricted kept.now set.old }
{
    if let Some((keep, kept)) = kept.split_first() {
        if let Some((first, rest)) = set.split_first_mut() {
            if !*keep {
                *first = 0;
            }
            clear_dropped(kept, rest);
        }
    }
}
