//! The slips that the events of a run make.
ghost use Rattle.std.specs.Prelude.{◌≡◌, ℕ, IfOk, OnOk, [], Some, replicate};
ghost use Rattle.metric_history.specs.Encoded.{encoded};
ghost use Rattle.metric_kit_commands.specs.Audits.{AddsSlip, AddsSlips, recorded_by, slip_in, slip_made, slips_by};

use metric_base::Items;
use metric_catalogue::Catalogue;
use metric_contents::OwnedAttr;
use metric_history::{Event, Reply, Slip};
use std::alloc::{AllocError, Global};

// A slip, and the recorder whose it is.
#[derive(Clone, Copy, Drop)]
struct MadeSlip {
    recorder: u32,
    slip: Slip,
}

// The slip of a recording on an instrument: none where its attributes name no set.
fn slip_of(
    catalogue: &Catalogue,
    instrument: u32,
    recorder: u32,
    attrs: &[OwnedAttr],
    value: i64,
) -> Option<MadeSlip>
    ensures { (r : ℕ) → slip_in result r
        ≡ slip_made r recorder value (encoded catalogue.now instrument attrs.now) }
{
    match catalogue.encode_owned(instrument, attrs) {
        Ok(set) => Some(MadeSlip {
            recorder,
            slip: Slip { set, value },
        }),
        Err(_) => None,
    }
}

// The slip that a recording makes, where it is made on the instrument.
fn recorded(catalogue: &Catalogue, instrument: u32, event: &Event) -> Option<MadeSlip>
    ensures { (r : ℕ) → slip_in result r ≡ recorded_by catalogue.now instrument r event.now }
{
    match event {
        Event::Record {
            recorder,
            instrument: own,
            attrs,
            value,
        } => {
            if *own == instrument {
                slip_of(catalogue, instrument, *recorder, attrs.as_slice(), *value)
            } else {
                None
            }
        }
        Event::Collect { .. } | Event::Close { .. } | Event::Grant { .. } => None,
    }
}

// The slip that an event makes on an instrument: that of an accepted recording.
fn made(catalogue: &Catalogue, instrument: u32, event: &Event, reply: &Reply) -> Option<MadeSlip>
    ensures { (r : ℕ) → slip_in result r
        ≡ slips_by catalogue.now instrument r event.now reply.now }
{
    match reply {
        Reply::Accepted => recorded(catalogue, instrument, event),
        Reply::Collected(_) | Reply::Done | Reply::Granted | Reply::Refused(_) => None,
    }
}

// Puts a slip last among those of its recorder.
#[tactic(auto, using(crate::proofs::TellingLaws::added))]
fn push_made(slips: &mut [Items<Slip>], made: MadeSlip) -> Result<(), AllocError>
    ensures { OnOk result (AddsSlip slips.old slips.new (Some made)) }
{
    let recorder = made.recorder as usize;
    if recorder < slips.len() {
        slips[recorder].push(made.slip)?;
    }
    Ok(())
}

// The same where there is a slip.
#[tactic(auto, using(crate::proofs::TellingLaws::added))]
fn push_if_made(slips: &mut [Items<Slip>], made: Option<MadeSlip>) -> Result<(), AllocError>
    ensures { OnOk result (AddsSlip slips.old slips.new made) }
{
    match made {
        Some(made) => push_made(slips, made),
        None => Ok(()),
    }
}

/// Puts the slip that an event with its reply makes on an instrument last among those of its recorder: one for an
/// accepted recording, with the set key that its attributes name.
#[tactic(auto, using(crate::proofs::AccountLaws::account_laws))]
pub(crate) fn add_slip(
    slips: &mut [Items<Slip>],
    catalogue: &Catalogue,
    instrument: u32,
    event: &Event,
    reply: &Reply,
) -> Result<(), AllocError>
    ensures { OnOk result (AddsSlips catalogue.now instrument event.now reply.now
        slips.old slips.new) }
{
    push_if_made(slips, made(catalogue, instrument, event, reply))
}

/// So many lists without slips.
#[tactic(auto, using(std::proofs::lemmas::List::replicate_more))]
pub(crate) fn no_slips(alloc: Global, count: usize) -> Result<Vec<Items<Slip>>, AllocError>
    ensures { IfOk result (λ lists. lists.items ≡ replicate count []) }
{
    let mut lists = Vec::new(alloc);
    for _turn in 0..count {
        lists.push(Items::new(alloc))?;
    }
    Ok(lists)
}
