//! The first batch that a journal can not have given.
ghost use Rattle.std.specs.Prelude.{◌≡◌, ◌<◌, ◌≤◌, length, IfOk};
ghost use Rattle.std.specs.List.{list_any};
ghost use Rattle.metric_facts.specs.Products.{AreDense};
ghost use Rattle.metric_audit.specs.Replays.{FindsWrong, IsFirstStrange, IsFirstWrongOf, is_batch_of};

use crate::reader_facts::facts_of_reader;
use crate::replay::{Run, first_wrong_of};
use metric_facts::Facts;
use metric_history::{Batch, Book};
use metric_marked::Marked;
use std::alloc::{AllocError, Global};

// The place of the first batch of a reader that is not one of so many, or the end.
fn first_strange(batches: &[Batch], readers: usize) -> usize
    ensures { IsFirstStrange batches.now readers result }
{
    for (at, batch) in batches.iter().enumerate() {
        if batch.reader as usize >= readers {
            return at;
        }
    }
    batches.len()
}

// Whether there is a batch of a reader.
fn has_batch_of(batches: &[Batch], reader: u32) -> bool
    ensures { result ≡ list_any (is_batch_of reader) batches.now }
{
    batches.iter().any(|batch| batch.reader == reader)
}

// The place of a reader's first batch that is not right, or the end. The journal is read again only where there are
// batches of the reader.
fn first_wrong_by(
    alloc: Global,
    facts: &Facts,
    run: &Run<'_>,
    reader: u32,
    batches: &[Batch],
) -> Result<usize, AllocError>
    requires reader { reader < length facts.now.delta }
    requires dense { AreDense facts.now }
    ensures { IfOk result (λ at. IsFirstWrongOf facts.now run.now.instrument run.now.start
        run.now.entries.now batches.now reader at) }
{
    if !has_batch_of(batches, reader) {
        return Ok(batches.len());
    }
    let own = facts_of_reader(alloc, facts, reader)?;
    let book = Marked::new(alloc, &own, run.start)?;
    first_wrong_of(book, alloc, &own, run, reader, batches)
}

/// The place of the first batch that is not right, or the end. The recordings are read again once for each reader that
/// has batches, up to its first that is not right.
pub(crate) fn first_wrong(
    alloc: Global,
    facts: &Facts,
    run: &Run<'_>,
    batches: &[Batch],
) -> Result<usize, AllocError>
    requires few { length facts.now.delta ≤ 16 }
    requires dense { AreDense facts.now }
    ensures { IfOk result (λ at. FindsWrong facts.now run.now.instrument run.now.start
        run.now.entries.now batches.now at) }
{
    let readers = facts.delta.len();
    let mut first = first_strange(batches, readers);
    for reader in 0..readers as u32 {
        first = first_wrong_by(alloc, facts, run, reader, &batches[..first])?;
    }
    Ok(first)
}
