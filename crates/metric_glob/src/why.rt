//! A reason for each pattern and text.
//!
//! Takes come from the walk of two cursors: a later `*` that is met settles what the one before takes,
//! and since each takes as little as it can, they are the first in list order. Rows hold exactly the
//! places that can be reached.
ghost use Rattle.std.specs.Prelude.{◌≡◌, ◌++◌, ◌^◌, ◌<◌, ◌≤◌, length, IfOk, MatchOption, OnOk, false};
ghost use Rattle.std.specs.List.Sorted.{IsStrictlyIncreasing};
ghost use Rattle.metric_glob.specs.Matching.{is_match};
ghost use Rattle.metric_glob.specs.Reach.{is_entered, reached_rows, row_after};
ghost use Rattle.metric_glob.specs.Reasons.{Confirms, Shows, Spells};
ghost use Rattle.metric_glob.specs.Walk.{IsShortStar, TakesNothing, noted, settled};

use crate::characters::{is_star, stands};
use crate::confirming::{has_place, row_of};
use crate::reason::Reason;
use crate::walk::{Star, Step, Walk};
use metric_base::Items;
use std::alloc::{AllocError, Global};

// Puts down what a `*` takes, once a later one is met or the text has ended.
fn settle(takes: &mut Items<u16>, star: Option<Star>) -> Result<(), AllocError>
    requires { IsShortStar star }
    ensures { OnOk result (takes.new ≡ takes.old ++ settled star) }
{
    if let Some(star) = star {
        takes.push((star.end - star.start) as u16)?;
    }
    Ok(())
}

// Takes nothing for each `*` that stands from this place on. Says whether nothing else does.
fn take_nothing(pattern: &[u8], start: usize, takes: &mut Items<u16>) -> Result<bool, AllocError>
    requires { start ≤ length pattern.now }
    ensures { IfOk result (λ ended. TakesNothing pattern.now start takes.old takes.new ended) }
{
    let mut place = start;
    'stars: while is_star(pattern, place) {
        takes.push(0)?;
        place += 1;
    }
    Ok(place == pattern.len())
}

// Puts down what a step settles.
fn note(takes: &mut Items<u16>, step: Step, last: Option<Star>) -> Result<(), AllocError>
    requires { IsShortStar last }
    ensures { OnOk result (takes.new ≡ takes.old ++ noted step last) }
{
    match step {
        Step::Opened => settle(takes, last),
        Step::Took | Step::Again => Ok(()),
    }
}

// What each `*` takes, or None where the text does not match.
fn takes_of(alloc: Global, pattern: &[u8], text: &[u8]) -> Result<Option<Items<u16>>, AllocError>
    requires { length text.now < 2 ^ 16 }
    ensures { IfOk result (λ found. MatchOption found
        (is_match pattern.now text.now ≡ false) (λ takes. Spells pattern.now takes text.now)) }
{
    let mut takes = Items::new(alloc);
    let mut walk = Walk::new();
    'walk: while walk.at < text.len() {
        let last = walk.star;
        let Some(step) = walk.step(pattern, text) else {
            return Ok(None);
        };
        note(&mut takes, step, last)?;
    }
    settle(&mut takes, walk.star)?;
    let ended = take_nothing(pattern, walk.place, &mut takes)?;
    if ended { Ok(Some(takes)) } else { Ok(None) }
}

// Whether a place is reached from the row before by the character between the rows. The first row
// begins at the pattern's start.
fn is_entered(pattern: &[u8], before: &[u16], found: Option<u8>, place: usize) -> bool
    requires short { place < 2 ^ 16 }
    requires rising { IsStrictlyIncreasing before.now }
    ensures { result ≡ is_entered pattern.now before.now found place }
{
    let Some(found) = found else {
        return place == 0;
    };
    if is_star(pattern, place) && has_place(before, place) {
        return true;
    }
    place > 0 && stands(pattern, place - 1, found) && has_place(before, place - 1)
}

// The row after a row and a character, or the first row.
#[tactic(auto, using(crate::proofs::ReachLemmas::row_steps))]
fn row_after(
    alloc: Global,
    pattern: &[u8],
    before: &[u16],
    found: Option<u8>,
) -> Result<Items<u16>, AllocError>
    requires short { length pattern.now < 2 ^ 16 }
    requires rising { IsStrictlyIncreasing before.now }
    ensures { IfOk result (λ row. row ≡ row_after pattern.now before.now found) }
{
    let mut row = Items::new(alloc);
    let mut after_star = false;
    for place in 0..pattern.len() + 1 {
        let reached = is_entered(pattern, before, found, place) || after_star;
        if reached {
            row.push(place as u16)?;
        }
        after_star = reached && is_star(pattern, place);
    }
    Ok(row)
}

// The places that can be reached before each character of the text, and at its end.
fn rows_of(alloc: Global, pattern: &[u8], text: &[u8]) -> Result<Items<Items<u16>>, AllocError>
    requires short { length pattern.now < 2 ^ 16 }
    ensures { IfOk result (λ rows. rows ≡ reached_rows pattern.now text.now (length text.now)) }
{
    let mut rows = Items::new(alloc);
    rows.push(row_after(alloc, pattern, &[], None)?)?;
    for at in 0..text.len() {
        let before = row_of(rows.as_slice(), at);
        let row = row_after(alloc, pattern, before, Some(text[at]))?;
        rows.push(row)?;
    }
    Ok(rows)
}

// A reason that is confirmed: Takes where the text matches, Rows where it does not.
pub(crate) fn why_text(alloc: Global, pattern: &[u8], text: &[u8]) -> Result<Reason, AllocError>
    requires short { length pattern.now < 2 ^ 16 }
    requires short_text { length text.now < 2 ^ 16 }
    ensures confirmed { IfOk result (Confirms pattern.now text.now) }
    ensures shown { IfOk result (Shows pattern.now text.now) }
{
    match takes_of(alloc, pattern, text)? {
        Some(takes) => Ok(Reason::Takes(takes)),
        None => Ok(Reason::Rows(rows_of(alloc, pattern, text)?)),
    }
}
