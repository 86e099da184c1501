//! The collection of all instruments in which a refused one hides no other.
ghost use Rattle.std.specs.Prelude.{◌≡◌, ◌≤◌, ◌+◌, ◌++◌, ◌<◌, Err, IfOk, Ok, OnErr, vec_capacity, vec_len};
ghost use Rattle.metric_periodic.specs.Each.{CollectsAll, CollectsEach, given_by, refused_by};

use crate::each::{Collection, RefusedInstrument};
use metric_contents::Refusal;
use metric_export::has_points;
use metric_history::{Batch, Book};
use metric_provider::{Collector, Gate, Provider};
use std::alloc::{AllocError, Global};
use std::sync::Wait;

/// Collects of each instrument once, in order, and goes on where one is refused, as when out of memory: so a refused
/// instrument hides no other. [`Collector::collect_all`] ends at the first refusal. Only batches that have points are
/// given.
///
/// # Errors
///
/// When out of memory for the lists. Then nothing was collected.
pub fn collect_each<R: Wait, B: Book, G: Gate>(
    rt: &R,
    alloc: Global,
    provider: &Provider<B, G>,
    seat: &mut Collector,
    now: u64,
) -> Result<Collection, AllocError>
    ensures each { IfOk result (λ given. CollectsEach provider.now now seat.old seat.new
        given.batches.items given.refused.items) }
    ensures err { OnErr result (seat.new ≡ seat.old) }
{
    let mut given = collect_all(rt, alloc, provider, seat, now)?;
    given.batches.retain(|batch| has_points(batch));
    Ok(given)
}

/// The same, and all batches are given.
pub(crate) fn collect_all<R: Wait, B: Book, G: Gate>(
    rt: &R,
    alloc: Global,
    provider: &Provider<B, G>,
    seat: &mut Collector,
    now: u64,
) -> Result<Collection, AllocError>
    ensures all { IfOk result (λ given. CollectsAll provider.now now seat.old seat.new
        given.batches.items given.refused.items) }
    ensures err { OnErr result (seat.new ≡ seat.old) }
{
    let count = provider.plan().catalogue().instruments().len();
    let mut batches = Vec::with_capacity(alloc, count)?;
    let mut refused = Vec::with_capacity(alloc, count)?;
    for instrument in 0..count as u32 {
        let answer = seat.collect(rt, alloc, provider, instrument, now);
        put(instrument, answer, &mut batches, &mut refused);
    }
    Ok(Collection { batches, refused })
}

// Puts the batch of an instrument last, or its refusal.
fn put(
    instrument: u32,
    answer: Result<Batch, Refusal>,
    batches: &mut Vec<Batch>,
    refused: &mut Vec<RefusedInstrument>,
)
    requires batches { vec_len batches.old < vec_capacity batches.old }
    requires refused { vec_len refused.old < vec_capacity refused.old }
    ensures batches { batches.new.items ≡ batches.old.items ++ given_by answer }
    ensures refused { refused.new.items ≡ refused.old.items ++ refused_by instrument answer }
    ensures batches_len { vec_len batches.new ≤ vec_len batches.old + 1 }
    ensures refused_len { vec_len refused.new ≤ vec_len refused.old + 1 }
    ensures batches_room { vec_capacity batches.new ≡ vec_capacity batches.old }
    ensures refused_room { vec_capacity refused.new ≡ vec_capacity refused.old }
{
    match answer {
        Ok(batch) => batches.push_reserved(batch),
        Err(refusal) => refused.push_reserved(RefusedInstrument {
            instrument,
            refusal,
        }),
    }
}
