//! Whether a reason is true, by looking at nothing but its own numbers.
ghost use Rattle.std.specs.Prelude.{◌≡◌, ◌^◌, ◌<◌, ◌↔◌, length, All, Contains, IsTrue, option_map, slice_get};
ghost use Rattle.std.specs.List.Sorted.{IsStrictlyIncreasing};
ghost use Rattle.metric_glob.specs.Reach.{has_place};
ghost use Rattle.metric_glob.specs.Reasons.{AreClosed, Confirms, ShutsOut, Shows, StepsStay, after_piece, is_spelled, row_at};

use crate::characters::{ANY_TEXT, is_star, stands, stands_for};
use crate::reason::Reason;
use metric_base::Items;

// What the piece of a pattern character leaves of the takes and of the text, or None where it has
// no piece.
fn after_piece<'a>(character: u8, takes: &'a [u16], text: &'a [u8]) -> Option<(&'a [u16], &'a [u8])>
    ensures { option_map (λ left. (left.0.now, left.1.now)) result
        ≡ after_piece character takes.now text.now }
{
    if character == ANY_TEXT {
        let (count, others) = takes.split_first()?;
        let count = usize::from(*count);
        if count > text.len() {
            return None;
        }
        return Some((others, text.split_at(count).1));
    }
    let (first, others) = text.split_first()?;
    if stands_for(character, *first) {
        Some((takes, others))
    } else {
        None
    }
}

// Whether each `*` has a number of characters, and the pieces so given spell the text.
fn is_spelled(pattern: &[u8], takes: &[u16], text: &[u8]) -> bool
    ensures { result ≡ is_spelled pattern.now takes.now text.now }
{
    let mut left = (takes, text);
    for character in pattern {
        let Some(after) = after_piece(*character, left.0, left.1) else {
            return false;
        };
        left = after;
    }
    left.0.is_empty() && left.1.is_empty()
}

// Whether each place of a row is below the next.
fn is_rising(row: &[u16]) -> bool
    ensures { IsTrue result ↔ IsStrictlyIncreasing row.now }
{
    row.windows(2).all(|pair| pair[0] < pair[1])
}

// Whether a row has this place.
pub(crate) fn has_place(row: &[u16], place: usize) -> bool
    requires rising { IsStrictlyIncreasing row.now }
    requires small { place < 2 ^ 16 }
    ensures has { IsTrue result ↔ Contains row.now place }
    ensures value { result ≡ has_place row.now place }
{
    row.binary_search(&(place as u16)).is_ok()
}

// The row at a place of the text, which is empty past the last.
pub(crate) fn row_of(rows: &[Items<u16>], at: usize) -> &[u16]
    ensures row { result.now ≡ row_at rows.now at }
    ensures rising { All IsStrictlyIncreasing rows.now → IsStrictlyIncreasing result.now }
{
    match rows.get(at) {
        Some(row) => row.as_slice(),
        None => &[],
    }
}

// Whether the steps from a place of a row stay in it and in the next.
fn steps_stay(pattern: &[u8], found: Option<u8>, row: &[u16], next: &[u16], place: usize) -> bool
    requires short { length pattern.now < 2 ^ 16 }
    requires rising { IsStrictlyIncreasing row.now }
    requires next_rising { IsStrictlyIncreasing next.now }
    ensures { IsTrue result ↔ StepsStay pattern.now found row.now next.now place }
{
    if is_star(pattern, place) {
        return has_place(row, place + 1) && (found.is_none() || has_place(next, place));
    }
    match found {
        Some(character) => !stands(pattern, place, character) || has_place(next, place + 1),
        None => true,
    }
}

// Whether the steps from each place of a row stay in it and in the next.
fn row_stays(pattern: &[u8], found: Option<u8>, row: &[u16], next: &[u16]) -> bool
    requires short { length pattern.now < 2 ^ 16 }
    requires rising { IsStrictlyIncreasing row.now }
    requires next_rising { IsStrictlyIncreasing next.now }
    ensures { IsTrue result ↔ All (StepsStay pattern.now found row.now next.now) row.now }
{
    row.iter().all(|place| steps_stay(pattern, found, row, next, usize::from(*place)))
}

// The character at a place of the text, if there is one.
fn found_at(text: &[u8], at: usize) -> Option<u8>
    ensures { result ≡ slice_get text.now at }
{
    text.get(at).copied()
}

// Whether each step from a place of a row stays in the rows.
fn are_closed(pattern: &[u8], text: &[u8], rows: &[Items<u16>]) -> bool
    requires short { length pattern.now < 2 ^ 16 }
    requires short_text { length text.now < 2 ^ 16 }
    requires rising { All IsStrictlyIncreasing rows.now }
    ensures { IsTrue result ↔ AreClosed pattern.now text.now rows.now }
{
    for at in 0..text.len() + 1 {
        let found = found_at(text, at);
        if !row_stays(pattern, found, row_of(rows, at), row_of(rows, at + 1)) {
            return false;
        }
    }
    true
}

// Whether each row rises.
fn are_rising(rows: &[Items<u16>]) -> bool
    ensures { IsTrue result ↔ All IsStrictlyIncreasing rows.now }
{
    rows.iter().all(|row| is_rising(row.as_slice()))
}

// Whether the rows show that the text does not match.
fn shuts_out(pattern: &[u8], text: &[u8], rows: &[Items<u16>]) -> bool
    requires short { length pattern.now < 2 ^ 16 }
    requires short_text { length text.now < 2 ^ 16 }
    ensures { IsTrue result ↔ ShutsOut pattern.now text.now rows.now }
{
    if rows.len() != text.len() + 1 || !are_rising(rows) {
        return false;
    }
    let begins = has_place(row_of(rows, 0), 0);
    let ends = has_place(row_of(rows, text.len()), pattern.len());
    begins && !ends && are_closed(pattern, text, rows)
}

// Whether a reason is true of a pattern and a text. Allocates no memory.
pub(crate) fn is_confirmed(pattern: &[u8], text: &[u8], reason: &Reason) -> bool
    requires short { length pattern.now < 2 ^ 16 }
    requires short_text { length text.now < 2 ^ 16 }
    ensures confirmed { IsTrue result ↔ Confirms pattern.now text.now reason.now }
    ensures shown { IsTrue result → Shows pattern.now text.now reason.now }
{
    match reason {
        Reason::Takes(takes) => is_spelled(pattern, takes.as_slice(), text),
        Reason::Rows(rows) => shuts_out(pattern, text, rows.as_slice()),
    }
}
