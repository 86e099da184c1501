//! What a slot with running tables keeps of them.
ghost use Rattle.metric_sdk.specs.Tables.{AreTablesBounded};

use metric_audit::Audited;
use metric_marked::Marked;
use metric_safety::laws::journals_are_bounded;
use metric_slot::Slot;

/// Whatever threads have done to a slot, its tables stay bounded: each has the numbers of the recordings since its
/// reader's last batch (delta) or since the start (cumulative), no more series than the keys allow, or the combinations
/// where the instrument lists them, and than there are recordings, none of them the overflow series (Metrics SDK,
/// cardinality limits), counts and sums that add up, and each number by the range and the number of recordings. The
/// function does nothing.
pub fn tables_are_bounded(slot: &Slot<Marked>)
    ensures { AreTablesBounded slot.now slot.now.book.tables }
{
    // For the proof alone: what a slot keeps.
    let _ = slot.cell();
    journals_are_bounded();
}

/// The same of the tables of a book that keeps each recording beside them. The function does nothing.
pub fn audited_tables_are_bounded(slot: &Slot<Audited>)
    ensures { AreTablesBounded slot.now slot.now.book.tables.tables }
{
    // For the proof alone: what a slot keeps.
    let _ = slot.cell();
    journals_are_bounded();
}
