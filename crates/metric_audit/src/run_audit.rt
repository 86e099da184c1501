//! The audit of a whole run.
ghost use Rattle.std.specs.Prelude.{◌≡◌, ◌≢◌, ◌<◌, IfErr, OnOk, length, slice_get, slice_index_or, []};
ghost use Rattle.metric_audit.specs.Batches.{mark_after};
ghost use Rattle.metric_audit.specs.RunAudits.{AuditsEach, AuditsOne, AuditsParts, AuditsRun, FindsUncovered, first_strange};

use crate::auditing::audit;
use crate::fault::AuditFault;
use crate::sorted::by_instrument;
use metric_base::Items;
use metric_history::{Batch, Entry, Slip};
use metric_plan::Plan;
use std::alloc::{AllocError, Global};
use thiserror::Error;

/// How much of a run its batches have to tell.
#[derive(Clone, Copy, Debug, PartialEq, Eq, Drop)]
pub enum Extent {
    /// Any part of it, from the start on.
    Partial,
    /// All of it: the last batch of each reader of each instrument counts each of the instrument's recordings.
    Whole,
}

/// What does not agree in a run. Strange batches are looked for first, then each instrument in order.
#[derive(Clone, Copy, Debug, PartialEq, Eq, Drop, Error)]
pub enum RunAuditFault {
    /// The batch at this place, counted from 0 in what was handed in, is the first of another plan or of an instrument
    /// that the plan lacks.
    #[error("1 Strange at {at}")]
    Strange {
        /// The batch's place.
        at: usize,
    },
    /// There is no journal of this instrument, or not one list of its slips for each recorder of the plan.
    #[error("2 Lists of instrument {instrument}")]
    Lists {
        /// The number of the instrument.
        instrument: u32,
    },
    /// The audit of this instrument fails. Places of batches are counted among those of the instrument.
    #[error("3 Instrument {instrument}: {fault}")]
    Instrument {
        /// The number of the instrument.
        instrument: u32,
        /// Why.
        fault: AuditFault,
    },
    /// The last batch of this reader, the least of several, does not count each recording of the instrument.
    #[error("4 Uncovered by reader {reader}: instrument {instrument}")]
    Uncovered {
        /// The number of the instrument.
        instrument: u32,
        /// The number of the reader.
        reader: u32,
    },
    /// Out of memory.
    #[error("5 Memory")]
    Memory,
}

impl From<AllocError> for RunAuditFault {
    ghost use Rattle.std.specs.Prelude.{◌≡◌};
    ghost use Rattle.metric_audit.specs.declared.run_audit.RunAuditFault.TheVariants.{Memory};

    ghost from_gives = { λ _ fault. fault ≡ Memory };

    fn from(_refused: AllocError) -> RunAuditFault {
        RunAuditFault::Memory
    }
}

/// What a run hands out of its instruments, in order.
#[derive(Clone, Copy)]
pub struct RunLists<'a> {
    /// The accepted recordings of each, oldest first.
    pub journals: &'a [Items<Entry>],
    /// The slips of each recorder on each, both in order.
    pub slips: &'a [Items<Items<Slip>>],
}

/// Audits a run of a plan: of each instrument its journal, its slips and its batches, as [`audit`] says. The run began
/// at a start in nanoseconds.
///
/// All batches that its readers were told since then are handed in, also those without points, since each begins where
/// the one before ended: those of one reader and one instrument in the order in which they were told, else in any.
/// Lists beyond the plan's instruments are not looked at.
///
/// # Errors
///
/// The first [`RunAuditFault`]. `Memory` comes in the place of any.
pub fn audit_all(
    alloc: Global,
    plan: &Plan,
    start: u64,
    lists: &RunLists<'_>,
    batches: Vec<Batch>,
    extent: Extent,
) -> Result<(), RunAuditFault>
    ensures { AuditsRun plan.now start extent lists.now.journals.now lists.now.slips.now
        batches.items result }
{
    if let Some(at) = first_strange(plan, batches.as_slice()) {
        return Err(RunAuditFault::Strange { at });
    }
    let sorted = by_instrument(alloc, plan.all_facts().len(), batches)?;
    audit_each(alloc, plan, start, lists, sorted.as_slice(), extent)
}

// The place of the first batch of another plan or of no instrument of the plan.
fn first_strange(plan: &Plan, batches: &[Batch]) -> Option<usize>
    ensures { result ≡ first_strange plan.now batches.now }
{
    let (own, count) = (plan.fingerprint(), plan.all_facts().len());
    batches.iter().position(|batch| !(batch.plan == own && (batch.instrument as usize) < count))
}

// Audits each instrument, of which the batches are given.
fn audit_each(
    alloc: Global,
    plan: &Plan,
    start: u64,
    lists: &RunLists<'_>,
    sorted: &[Items<Batch>],
    extent: Extent,
) -> Result<(), RunAuditFault>
    requires { length sorted.now ≡ length plan.now.facts.instruments }
    ensures { let journals = lists.now.journals.now in let slips = lists.now.slips.now in
        AuditsEach (λ i. AuditsOne plan.now start extent i (slice_get journals i)
        (slice_get slips i) (slice_index_or sorted.now i []))
        (length plan.now.facts.instruments) result }
{
    let count = plan.catalogue().instruments().len() as u32;
    for instrument in 0..count {
        let told = sorted[instrument as usize].as_slice();
        audit_one(alloc, plan, start, lists, instrument, told, extent)?;
    }
    Ok(())
}

// Audits an instrument of the plan, of which the batches are given.
fn audit_one(
    alloc: Global,
    plan: &Plan,
    start: u64,
    lists: &RunLists<'_>,
    instrument: u32,
    told: &[Batch],
    extent: Extent,
) -> Result<(), RunAuditFault>
    requires { instrument < length plan.now.facts.instruments }
    ensures { let journal = slice_get lists.now.journals.now instrument in
        let slips = slice_get lists.now.slips.now instrument in
        AuditsOne plan.now start extent instrument journal slips told.now result }
{
    let at = instrument as usize;
    let (Some(journal), Some(slips)) = (lists.journals.get(at), lists.slips.get(at)) else {
        return Err(RunAuditFault::Lists { instrument });
    };
    if slips.len() != plan.catalogue().recorders().len() {
        return Err(RunAuditFault::Lists { instrument });
    }
    let (journal, slips) = (journal.as_slice(), slips.as_slice());
    audit_parts(alloc, plan, start, instrument, journal, slips, told, extent)
}

// The same with its journal and its slips.
fn audit_parts(
    alloc: Global,
    plan: &Plan,
    start: u64,
    instrument: u32,
    journal: &[Entry],
    slips: &[Items<Slip>],
    told: &[Batch],
    extent: Extent,
) -> Result<(), RunAuditFault>
    requires known { instrument < length plan.now.facts.instruments }
    requires slips { length slips.now ≡ length plan.now.facts.contents.recorders }
    ensures { AuditsParts plan.now start extent instrument journal.now slips.now told.now result }
{
    match audit(alloc, plan, instrument, start, journal, slips, told) {
        Ok(()) => {}
        Err(AuditFault::Memory) => return Err(RunAuditFault::Memory),
        Err(fault) => return Err(RunAuditFault::Instrument { instrument, fault }),
    }
    let readers = plan.config().readers().len() as u32;
    match uncovered(extent, readers, journal.len() as u64, told) {
        None => Ok(()),
        Some(reader) => Err(RunAuditFault::Uncovered { instrument, reader }),
    }
}

// The least of so many readers whose last batch counts fewer recordings, where all have to be counted.
fn uncovered(extent: Extent, readers: u32, count: u64, told: &[Batch]) -> Option<u32>
    ensures { FindsUncovered extent readers count told.now result }
{
    match extent {
        Extent::Partial => None,
        Extent::Whole => first_short(readers, count, told),
    }
}

// The least of so many readers whose last batch counts fewer recordings.
fn first_short(readers: u32, count: u64, told: &[Batch]) -> Option<u32>
    ensures { FindsUncovered Extent.Whole readers count told.now result }
{
    for reader in 0..readers {
        if last_mark(reader, told) < count {
            return Some(reader);
        }
    }
    None
}

// How many recordings the last batch of a reader counts.
fn last_mark(reader: u32, told: &[Batch]) -> u64
    ensures { result ≡ mark_after reader told.now }
{
    told.iter().fold(
        0,
        |mark, batch| if batch.reader == reader {
            batch.mark
        } else {
            mark
        },
    )
}
