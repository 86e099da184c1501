//! Whether the replies to a run agree with its journals.
ghost use Rattle.std.specs.Prelude.{◌≡◌, ◌<◌, IfErr, IfOk, OnOk, Ok, [], length};
ghost use Rattle.metric_audit.specs.AuditedStands.{StandsAudited};
ghost use Rattle.metric_kit_commands.specs.Accounts.{AreAccounts, IsAccount};
ghost use Rattle.metric_kit_commands.specs.Audits.{AreAudited, AuditEnds, FailsAudit, SomeFails};
ghost use Rattle.metric_kit_commands.specs.Runs.{IsRun};
ghost use Rattle.metric_core.specs.CoreStands.{CoreStands};
ghost use Rattle.metric_history.specs.Legal.{grown};

use crate::accounts::{Account, accounts_of};
use crate::batches::batches_at;
use crate::fault::KitFault;
use crate::pieces::has_want_of_memory;
use metric_audit::{Audited, audit};
use metric_core::Core;
use metric_facts::laws::attributes_name_allowed_sets;
use metric_history::laws::runs_keep_histories_legal;
use metric_history::{Entry, Event, Reply};
use metric_plan::Plan;
use std::alloc::Global;

// What is audited: the events of a run since a start, with their replies.
#[derive(Clone, Copy)]
struct Run<'a> {
    start: u64,
    events: &'a [Event],
    replies: &'a [Reply],
}

// Audits the journal of an instrument, with the account that the run gives of it.
fn audit_instrument(
    alloc: Global,
    plan: &Plan,
    instrument: u32,
    entries: &[Entry],
    run: &Run<'_>,
    account: &Account,
) -> Result<(), KitFault>
    requires known { instrument < length plan.now.facts.instruments }
    requires told { IsAccount plan.now.facts.contents run.now.replies.now
        (grown [] run.now.events.now run.now.replies.now) instrument account.now }
    ensures ok { OnOk result (AuditEnds plan.now.facts run.now.start entries.now
        (grown [] run.now.events.now run.now.replies.now) instrument (Ok tt)) }
    ensures err { IfErr result (FailsAudit plan.now.facts run.now.start entries.now
        (grown [] run.now.events.now run.now.replies.now) instrument) }
{
    let slips = account.slips.as_slice();
    let batches = batches_at(alloc, run.replies, account.places.as_slice())?;
    audit(alloc, plan, instrument, run.start, entries, slips, &batches)?;
    Ok(())
}

// Audits each instrument of a core that has run the events with these replies, with the account of each.
fn audit_each(
    alloc: Global,
    core: &Core<Audited>,
    run: &Run<'_>,
    accounts: &[Account],
) -> Result<(), KitFault>
    requires stands { CoreStands StandsAudited core.now
        (grown [] run.now.events.now run.now.replies.now) }
    requires told { AreAccounts core.now.plan.facts.contents run.now.replies.now
        (grown [] run.now.events.now run.now.replies.now) accounts.now }
    ensures ok { OnOk result (AreAudited core.now.plan.facts run.now.start
        (grown [] run.now.events.now run.now.replies.now)) }
    ensures err { IfErr result (SomeFails core.now.plan.facts run.now.start
        (grown [] run.now.events.now run.now.replies.now)) }
{
    let plan = core.plan();
    let count = plan.catalogue().instruments().len() as u32;
    for instrument in 0..count {
        let account = &accounts[instrument as usize];
        let entries = core.entries(instrument);
        audit_instrument(alloc, plan, instrument, entries, run, account)?;
    }
    Ok(())
}

/// The replies to events on a core that has run nothing since a start, none of which is out of memory. The journal of
/// each instrument is audited with the slips that the events make and the batches among the replies. No audit fails, so
/// only memory can run out.
pub(crate) fn audited_replies(
    alloc: Global,
    core: &mut Core<Audited>,
    start: u64,
    events: &[Event],
) -> Result<Vec<Reply>, KitFault>
    requires fresh { CoreStands StandsAudited core.old [] }
    requires start { core.old.start ≡ start }
    ensures run { IfOk result (λ replies.
        IsRun core.old.plan start events.now replies.items) }
    ensures audited { IfOk result (λ replies. AreAudited core.old.plan.facts start
        (grown [] events.now replies.items)) }
    ensures memory { IfErr result (λ fault. fault ≡ KitFault.Memory) }
    ensures plan { core.new.plan ≡ core.old.plan }
{
    // For the proof alone: what a plan keeps, and what its runs do.
    let _ = core.plan().catalogue();
    attributes_name_allowed_sets();
    runs_keep_histories_legal();
    let replies = core.run(alloc, events)?;
    if has_want_of_memory(&replies) {
        return Err(KitFault::Memory);
    }
    let accounts = accounts_of(alloc, core.plan().catalogue(), events, &replies)?;
    let run = Run {
        start,
        events,
        replies: &replies,
    };
    audit_each(alloc, core, &run, &accounts)?;
    Ok(replies)
}
