//! What the events and replies of a run tell of each instrument.
ghost use Rattle.std.specs.Prelude.{◌≡◌, ◌++◌, List, IfOk, OnOk, [], length};
ghost use Rattle.metric_history.specs.Events.{instrument_of};
ghost use Rattle.metric_history.specs.Legal.{grown};
ghost use Rattle.metric_history.specs.declared.event.Reply.{Reply as replies_seen};
ghost use Rattle.metric_kit_commands.specs.Accounts.{AddsToAccount, AddsToAccounts, AreAccounts, IsEmptyAccount, place_of};

use crate::slips::{add_slip, no_slips};
use metric_base::Items;
use metric_catalogue::Catalogue;
use metric_history::{Event, Reply, Slip};
use std::alloc::{AllocError, Global};

/// What a run tells of one instrument: by it the instrument's journal is audited.
#[derive(Drop)]
pub(crate) struct Account {
    /// The slips of each recorder: one for each of its accepted recordings, in order, with the set key that its
    /// attributes name.
    pub slips: Vec<Items<Slip>>,
    /// The places of the replies that are its batches, in order.
    pub places: Vec<usize>,
}

// The account of an instrument of which nothing was told, for so many recorders.
fn empty_account(alloc: Global, recorders: usize) -> Result<Account, AllocError>
    ensures { IfOk result (IsEmptyAccount recorders) }
{
    Ok(Account {
        slips: no_slips(alloc, recorders)?,
        places: Vec::new(alloc),
    })
}

// Those of all instruments.
fn empty_accounts(alloc: Global, catalogue: &Catalogue) -> Result<Vec<Account>, AllocError>
    ensures { IfOk result (λ accounts.
        (told : List replies_seen) → AreAccounts catalogue.now told [] accounts.items) }
{
    let recorders = catalogue.recorders().len();
    let count = catalogue.instruments().len();
    let mut accounts = Vec::new(alloc);
    for _turn in 0..count {
        accounts.push(empty_account(alloc, recorders)?)?;
    }
    Ok(accounts)
}

// Puts the place of a reply last, where the reply is a batch.
fn add_place(places: &mut Vec<usize>, place: usize, reply: &Reply) -> Result<(), AllocError>
    ensures { OnOk result (places.new.items ≡ places.old.items ++ place_of place reply.now) }
{
    match reply {
        Reply::Collected(_) => Ok(places.push(place)?),
        Reply::Accepted | Reply::Done | Reply::Granted | Reply::Refused(_) => Ok(()),
    }
}

// Adds to an instrument's account what one of its events tells, whose reply stands at a place.
fn add_to_account(
    account: &mut Account,
    catalogue: &Catalogue,
    place: usize,
    event: &Event,
    reply: &Reply,
) -> Result<(), AllocError>
    ensures { OnOk result (AddsToAccount catalogue.now (instrument_of event.now) place
        event.now reply.now account.old account.new) }
{
    let instrument = event.instrument();
    add_slip(
        account.slips.as_mut_slice(),
        catalogue,
        instrument,
        event,
        reply,
    )?;
    add_place(&mut account.places, place, reply)
}

// The same to the account of the event's instrument, where there is one.
#[tactic(auto, using(crate::proofs::AccountLaws::account_laws))]
fn add_to_accounts(
    accounts: &mut [Account],
    catalogue: &Catalogue,
    place: usize,
    event: &Event,
    reply: &Reply,
) -> Result<(), AllocError>
    ensures { OnOk result (AddsToAccounts catalogue.now place event.now reply.now
        accounts.old accounts.new) }
{
    let at = event.instrument() as usize;
    if at < accounts.len() {
        add_to_account(&mut accounts[at], catalogue, place, event, reply)?;
    }
    Ok(())
}

/// The account of each instrument, in order, after events with these replies. The events are gone over once.
pub(crate) fn accounts_of(
    alloc: Global,
    catalogue: &Catalogue,
    events: &[Event],
    replies: &[Reply],
) -> Result<Vec<Account>, AllocError>
    requires { length replies.now ≡ length events.now }
    ensures { IfOk result (λ accounts. AreAccounts catalogue.now replies.now
        (grown [] events.now replies.now) accounts.items) }
{
    let mut accounts = empty_accounts(alloc, catalogue)?;
    for (at, event) in events.iter().enumerate() {
        add_to_accounts(accounts.as_mut_slice(), catalogue, at, event, &replies[at])?;
    }
    Ok(accounts)
}
