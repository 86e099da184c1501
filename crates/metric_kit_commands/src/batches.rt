//! The batches with which events were answered, copied.
ghost use Rattle.std.specs.Prelude.{◌≡◌, ◌++◌, IfOk, OnOk, slice_get};
ghost use Rattle.metric_kit_commands.specs.Accounts.{batch_at, batch_in, batches_at};

use metric_export::copy_batch;
use metric_history::{Batch, Reply};
use std::alloc::{AllocError, Global};

// Puts a copy of a reply's batch last, where it has one.
fn add_batch(batches: &mut Vec<Batch>, alloc: Global, reply: &Reply) -> Result<(), AllocError>
    ensures { OnOk result (batches.new.items ≡ batches.old.items ++ batch_in reply.now) }
{
    match reply {
        Reply::Collected(batch) => Ok(batches.push(copy_batch(alloc, batch)?)?),
        Reply::Accepted | Reply::Done | Reply::Granted | Reply::Refused(_) => Ok(()),
    }
}

// The same of the reply at a place.
fn add_batch_at(
    batches: &mut Vec<Batch>,
    alloc: Global,
    replies: &[Reply],
    place: usize,
) -> Result<(), AllocError>
    ensures { OnOk result (batches.new.items
        ≡ batches.old.items ++ batch_at (slice_get replies.now place)) }
{
    match replies.get(place) {
        Some(reply) => add_batch(batches, alloc, reply),
        None => Ok(()),
    }
}

/// A copy of each batch among the replies at these places, in order.
pub(crate) fn batches_at(
    alloc: Global,
    replies: &[Reply],
    places: &[usize],
) -> Result<Vec<Batch>, AllocError>
    ensures { IfOk result (λ batches. batches.items ≡ batches_at replies.now places.now) }
{
    let mut batches = Vec::new(alloc);
    for place in places {
        add_batch_at(&mut batches, alloc, replies, *place)?;
    }
    Ok(batches)
}
