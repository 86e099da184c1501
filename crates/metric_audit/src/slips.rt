//! Whether slips are the entries of their recorders.
ghost use Rattle.std.specs.Prelude.{◌≡◌, ◌↔◌, ◌<◌, ◌≤◌, ℕ, List, ◌∷◌, [], Some, IsTrue, IfOk, length, slice_index_or};
ghost use Rattle.metric_audit.specs.Slips.{AreAwaited, Advances, Awaits, FindsUnlike, FindsOpen, StrangersAre, lesser_stranger};
ghost use Rattle.metric_history.specs.Slips.{slip_of};
ghost use Rattle.metric_history.specs.declared.slip.Slip.{Slip as slips_seen};

use metric_base::Items;
use metric_history::{Entry, Slip};
use std::alloc::{AllocError, Global};

// Whether a slip is that of an entry.
fn is_slip_of(slip: &Slip, entry: &Entry) -> bool
    ensures { IsTrue result ↔ (slip_of entry.now ≡ slip.now) }
{
    slip.set == entry.set && slip.value == entry.value
}

// The place of the next slip of a recorder after an entry of it, where the entry is the slip at the place.
fn next_place(place: Option<usize>, slips: &[Slip], entry: &Entry) -> Option<usize>
    ensures { (due : List slips_seen)
        → Awaits place slips.now (slip_of entry.now ∷ due) ↔ Awaits result slips.now due }
{
    let at = place?;
    if at >= slips.len() {
        return None;
    }
    if is_slip_of(&slips[at], entry) {
        Some(at + 1)
    } else {
        None
    }
}

// Goes on by an entry: the place of its recorder's next slip moves.
fn advance(places: &mut [Option<usize>], slips: &[Items<Slip>], entry: &Entry)
    requires { length places.old ≡ length slips.now }
    ensures { Advances places.old places.new slips.now entry.now }
{
    let recorder = entry.recorder as usize;
    if recorder < slips.len() {
        places[recorder] = next_place(places[recorder], slips[recorder].as_slice(), entry);
    }
}

// For each recorder the place of the slip that its next entry would have to have, where those so far are its slips.
fn places_after(
    alloc: Global,
    entries: &[Entry],
    slips: &[Items<Slip>],
) -> Result<Vec<Option<usize>>, AllocError>
    ensures long { IfOk result (λ places. length places.items ≡ length slips.now) }
    ensures awaited { IfOk result (λ places. AreAwaited places.items slips.now entries.now []) }
{
    let mut places = vec![in alloc; Some(0); slips.len()]?;
    for entry in entries {
        advance(places.as_mut_slice(), slips, entry);
    }
    Ok(places)
}

// Whether the slips end at a place.
fn is_end(place: Option<usize>, slips: &[Slip]) -> bool
    ensures { IsTrue result ↔ Awaits place slips.now [] }
{
    match place {
        Some(at) => at >= slips.len(),
        None => false,
    }
}

// The least recorder that has slips beyond its place, or no place.
fn first_open(places: &[Option<usize>], slips: &[Items<Slip>]) -> Option<u32>
    requires long { length places.now ≡ length slips.now }
    requires few { length slips.now ≤ 64 }
    ensures { FindsOpen places.now slips.now result }
{
    for (recorder, place) in places.iter().enumerate() {
        if !is_end(*place, slips[recorder].as_slice()) {
            return Some(recorder as u32);
        }
    }
    None
}

// The lesser of a recorder that was found and another, where that is none of so many.
fn lesser(found: Option<u32>, recorder: u32, count: usize) -> Option<u32>
    ensures { result ≡ lesser_stranger count found recorder }
{
    if (recorder as usize) < count {
        return found;
    }
    match found {
        Some(other) => Some(other.min(recorder)),
        None => Some(recorder),
    }
}

// The least recorder of an entry that is none of so many.
fn least_stranger(entries: &[Entry], count: usize) -> Option<u32>
    ensures { StrangersAre count entries.now result }
{
    let mut found = None;
    for entry in entries {
        found = lesser(found, entry.recorder, count);
    }
    found
}

/// The least recorder whose entries are not its slips. A recorder without a list has no slips.
pub(crate) fn first_unlike(
    alloc: Global,
    entries: &[Entry],
    slips: &[Items<Slip>],
) -> Result<Option<u32>, AllocError>
    requires { length slips.now ≤ 64 }
    ensures { IfOk result (FindsUnlike entries.now slips.now) }
{
    let places = places_after(alloc, entries, slips)?;
    match first_open(&places, slips) {
        Some(recorder) => Ok(Some(recorder)),
        None => Ok(least_stranger(entries, slips.len())),
    }
}
