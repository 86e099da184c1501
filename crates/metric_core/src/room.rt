//! Lists with room behind them.
ghost use Rattle.std.specs.Prelude.{◌≡◌, replicate, IfOk};

use std::alloc::{AllocError, Global};

// 128 bytes of numbers: two lines of cache, since a processor fetches them in pairs.
const SPARE: usize = 16;

// So many times the same number. Behind the list is room that nobody writes, so that what the allocator hands out next
// lies on other lines of cache: an instrument's recordings do not slow down those of another one.
pub(crate) fn numbers_apart(
    alloc: Global,
    number: u64,
    count: usize,
) -> Result<Vec<u64>, AllocError>
    ensures { IfOk result (λ list. list.items ≡ replicate count number) }
{
    let mut list = Vec::with_capacity(alloc, count.saturating_add(SPARE))?;
    list.resize(count, number)?;
    Ok(list)
}
