//! What every batch of a provider keeps.
ghost use Rattle.metric_provider.specs.BatchBounds.{AreBatchesBounded};
ghost use Rattle.metric_provider.specs.Windows.{WindowsMeet};

use crate::gate::Gate;
use crate::provider::Provider;
use metric_history::Book;
use metric_safety::laws::journals_are_bounded;

/// Whatever threads have done, and whatever the book, each batch that a seat collects of the provider has bounded
/// series: those of a stream report the recordings that the batch covers, and are no more than the keys allow, or the
/// combinations where the instrument lists them, and than these recordings, none of them the overflow series (Metrics
/// SDK, cardinality limits), with counts and sums that add up, and each number by the range and the number of
/// recordings. The function does nothing.
pub fn batches_are_bounded<B: Book, G: Gate>(provider: &Provider<B, G>)
    ensures { AreBatchesBounded provider.now }
{
    provider.is_vouched_for();
    journals_are_bounded();
}

/// The windows of a reader meet: by its numbers and its times, a batch of an instrument begins where the reader's batch
/// before that ended (delta), or with the run (cumulative), so that no number and no moment is left out or told twice
/// (Metrics SDK, temporality). Which recordings have these numbers is said by no law over batches: under its lock each
/// lane reports the recordings of its journal from its last mark on. The function does nothing.
pub fn windows_meet()
    ensures { WindowsMeet }
{}
