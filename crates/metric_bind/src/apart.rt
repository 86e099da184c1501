//! Whether the names of a file are apart.
ghost use Rattle.std.specs.Prelude.{IfOk};
ghost use Rattle.metric_bind.specs.Apart.{IsFirstClash, names_in};

use crate::tree::Named;
use std::alloc::{AllocError, Global};
use std::collections::BTreeMap;

/// The places of the first name that has stood before, where there is one: there, and here. Fails only when out of memory.
pub(crate) fn first_clash(
    alloc: Global,
    names: &[Named],
) -> Result<Option<(usize, usize)>, AllocError>
    ensures { IfOk result (IsFirstClash (names_in names.now)) }
{
    let mut places: BTreeMap<String, usize> = BTreeMap::new(alloc);
    for (second, named) in names.iter().enumerate() {
        let name = named.name.as_str();
        if let Some(first) = places.get(name).copied() {
            return Ok(Some((first, second)));
        }
        places.insert(String::from_str(alloc, name)?, second)?;
    }
    Ok(None)
}
