//! The refusals that a seat counted, one by one.
ghost use Rattle.std.specs.Prelude.{◌≡◌, ◌++◌, IfOk, OnOk};
ghost use Rattle.metric_handles.specs.Refused.{EachIsTold, all_refusals, is_told, refusal_on, refusals_of, refusals_on};

use crate::counted::{Counted, Counts};
use metric_contents::Refusal;
use std::alloc::{AllocError, Global};

/// How often a refusal came on an instrument.
#[derive(Clone, Copy, Debug, PartialEq, Eq, Drop)]
pub struct Refused {
    /// The number of the instrument; the first that no instrument has, for all that the plan does not have.
    pub instrument: u32,
    /// The refusal, for all of its number.
    pub refusal: Refusal,
    /// How often it came, up to the greatest number of 64 bits.
    pub count: u64,
}

impl<S> Counted<S> {
    /// Each refusal that came, with how often: by instrument, and on each in the order in which refusals are tried.
    /// Those that share a number ([`Refusal::number`]) are one. Fails only when out of memory.
    pub fn refusals(&self, alloc: Global) -> Result<Vec<Refused>, AllocError>
        ensures { IfOk result (λ all. all.items ≡ refusals_of self.now.counts) }
    {
        let mut all = Vec::new(alloc);
        for (instrument, counts) in self.all_counts().iter().enumerate() {
            add_refusals(instrument as u32, counts, &mut all)?;
        }
        Ok(all)
    }
}

// Adds those of an instrument.
fn add_refusals(instrument: u32, counts: &Counts, all: &mut Vec<Refused>) -> Result<(), AllocError>
    ensures { OnOk result (all.new.items
        ≡ all.old.items ++ refusals_on instrument counts.now) }
{
    for refusal in refusals() {
        add_refusal(instrument, counts, *refusal, all)?;
    }
    Ok(())
}

// Adds a refusal, where it came.
fn add_refusal(
    instrument: u32,
    counts: &Counts,
    refusal: Refusal,
    all: &mut Vec<Refused>,
) -> Result<(), AllocError>
    ensures { OnOk result (all.new.items
        ≡ all.old.items ++ refusal_on instrument counts.now refusal) }
{
    let count = counts.of(refusal);
    if is_told(refusal) && count > 0 {
        all.push(Refused {
            instrument,
            refusal,
            count,
        })?;
    }
    Ok(())
}

// Each refusal, in the order in which they are tried.
#[tactic(auto, using(crate::specs::Refused::each_is_told))]
fn refusals() -> &'static [Refusal]
    ensures all { result.now ≡ all_refusals }
    ensures each { EachIsTold }
{
    &Refusal::ALL
}

// Whether a refusal is the first of its number.
fn is_told(refusal: Refusal) -> bool
    ensures { result ≡ is_told refusal }
{
    refusal != Refusal::UnknownReader
}
