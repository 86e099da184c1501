//! The journals and slips that are handed out at the end.
ghost use Rattle.std.specs.Prelude.{◌≡◌, ◌++◌, All, map, IfOk, OnOk};
ghost use Rattle.metric_core.specs.Cells.{CellKept};
ghost use Rattle.metric_provider.specs.Lanes.{kept_by};
ghost use Rattle.metric_provider.specs.Locked.{AreLanes};
ghost use Rattle.metric_provider.specs.Totals.{slips_by, slips_of_seats, slips_on};

use crate::lanes::OpenLanes;
use crate::recorder::Recorder;
use metric_base::Items;
use metric_history::{Book, Entry, Slip};
use metric_slot::Slot;
use std::alloc::{AllocError, Global};

/// What the books of each instrument keep. Fails only when out of memory.
pub(crate) fn journals_of<B: Book>(
    alloc: Global,
    unlocked: &[OpenLanes<B>],
) -> Result<Vec<Items<Entry>>, AllocError>
    ensures journals { IfOk result (λ journals.
        journals.items ≡ map (kept_by B.kept) unlocked.now) }
    ensures kept { OnOk result (All (AreLanes B.stands) unlocked.now) }
{
    let mut journals = Vec::new(alloc);
    for lanes in unlocked {
        journals.push(journal_of(alloc, lanes.slots())?)?;
    }
    Ok(journals)
}

/// What the books of an instrument's lanes keep, one lane after the other. Fails only when out of memory.
pub(crate) fn journal_of<B: Book>(
    alloc: Global,
    lanes: &[Slot<B>],
) -> Result<Items<Entry>, AllocError>
    ensures journal { IfOk result (λ journal. journal ≡ kept_by B.kept lanes.now) }
    ensures kept { OnOk result (All (CellKept B.stands) lanes.now) }
{
    let mut entries = Vec::new(alloc);
    for slot in lanes {
        push_entries(&mut entries, slot)?;
    }
    Ok(Items::from_vec(entries))
}

// Puts what the book of a lane keeps last.
fn push_entries<B: Book>(entries: &mut Vec<Entry>, slot: &Slot<B>) -> Result<(), AllocError>
    ensures entries { OnOk result (entries.new.items ≡ entries.old.items ++ B.kept slot.now.book) }
    ensures kept { CellKept B.stands slot.now }
{
    entries.extend_from_slice(slot.cell().entries())
}

/// The slips of each recorder on each instrument, of so many of both. Fails only when out of memory.
pub(crate) fn slips_of_seats(
    alloc: Global,
    seats: &[Recorder],
    recorders: u32,
    instruments: u32,
) -> Result<Vec<Items<Items<Slip>>>, AllocError>
    ensures { IfOk result (λ slips.
        slips.items ≡ slips_of_seats seats.now recorders instruments) }
{
    let mut slips = Vec::new(alloc);
    for instrument in 0..instruments {
        slips.push(slips_on(alloc, seats, recorders, instrument)?)?;
    }
    Ok(slips)
}

// The slips of each recorder on an instrument.
fn slips_on(
    alloc: Global,
    seats: &[Recorder],
    recorders: u32,
    instrument: u32,
) -> Result<Items<Items<Slip>>, AllocError>
    ensures { IfOk result (λ slips. slips ≡ slips_on seats.now recorders instrument) }
{
    let mut slips = Vec::new(alloc);
    for number in 0..recorders {
        slips.push(copy_of(alloc, slips_by(seats, number, instrument))?)?;
    }
    Ok(Items::from_vec(slips))
}

// A copy of slips.
fn copy_of(alloc: Global, slips: &[Slip]) -> Result<Items<Slip>, AllocError>
    ensures { IfOk result (λ copy. copy ≡ slips.now) }
{
    let copy = Vec::from_slice(alloc, slips)?;
    Ok(Items::from_vec(copy))
}

// The slips on an instrument of the seat of a recorder.
fn slips_by(seats: &[Recorder], number: u32, instrument: u32) -> &[Slip]
    ensures { result.now ≡ slips_by seats.now number instrument }
{
    match seats.split_first() {
        None => &[],
        Some((seat, rest)) => {
            if seat.number() == number {
                seat.slips(instrument)
            } else {
                slips_by(rest, number, instrument)
            }
        }
    }
}
