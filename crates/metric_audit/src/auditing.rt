//! Whether slips and batches agree with a journal.
ghost use Rattle.std.specs.Prelude.{◌≡◌, ◌<◌, length};
ghost use Rattle.metric_audit.specs.Audits.{AuditsInstrument};

use crate::batches::first_wrong;
use crate::entries::first_impossible;
use crate::fault::AuditFault;
use crate::replay::Run;
use crate::slips::first_unlike;
use metric_base::Items;
use metric_history::{Batch, Entry, Slip};
use metric_plan::Plan;
use std::alloc::Global;

/// Whether the slips of each recorder are its entries in the journal of an instrument, each once and in order, and each
/// batch is what its reader had to be told of the journal cut at the batch's mark, after the reader's batch before it
/// (Metrics SDK, collect): where it begins, since when, a time that does not go back, and the points of its streams.
///
/// The journal is the instrument's accepted recordings since the start, in nanoseconds, oldest first. The slips stand
/// in the order of the recorders. Batches of several readers may stand in any order, those of one reader in the order
/// in which they were told. A reader need not have told of the whole journal: only what its batches say is compared.
///
/// # Errors
///
/// `Slips` with the least recorder whose slips are others; an entry of a recorder that the catalogue lacks is such a
/// fault, since that has no slips. Then `Entry` with the place of the first entry that the instrument would have
/// refused, which no run can have: of no set that it allows, or with a value out of range. Then `Batch` with the place
/// of the first batch that is wrong; so is one that adds a recording which takes a series of its reader out of range.
/// `Memory` comes in the place of any.
///
/// The journal is read twice, and again once for each reader that has batches.
pub fn audit(
    alloc: Global,
    plan: &Plan,
    instrument: u32,
    start: u64,
    entries: &[Entry],
    slips: &[Items<Slip>],
    batches: &[Batch],
) -> Result<(), AuditFault>
    requires known { instrument < length plan.now.facts.instruments }
    requires slips { length slips.now ≡ length plan.now.facts.contents.recorders }
    ensures { AuditsInstrument plan.now.facts instrument start entries.now slips.now batches.now
        result }
{
    // For the proof alone: there are few recorders and readers, and the catalogue is sound.
    let _few = plan.catalogue().recorders();
    let _readers = plan.config().readers();
    if let Some(recorder) = first_unlike(alloc, entries, slips)? {
        return Err(AuditFault::Slips { recorder });
    }
    let facts = plan.facts(instrument);
    if let Some(at) = first_impossible(facts, entries) {
        return Err(AuditFault::Entry { at });
    }
    let run = Run {
        instrument,
        start,
        entries,
    };
    let at = first_wrong(alloc, facts, &run, batches)?;
    if at < batches.len() {
        return Err(AuditFault::Batch { at });
    }
    Ok(())
}
