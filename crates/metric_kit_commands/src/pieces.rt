//! Events run in pieces, of which each is written before the next is run.
ghost use Rattle.std.specs.Prelude.{◌≡◌, [], IfErr, IfOk, OnOk};
ghost use Rattle.std.specs.List.{list_any};
ghost use Rattle.std.specs.Io.KnownBytes.{Appends};
ghost use Rattle.metric_io.specs.Prefix.{AppendsPrefix};
ghost use Rattle.metric_core.specs.CoreStands.{CoreStands};
ghost use Rattle.metric_history.specs.History.{History};
ghost use Rattle.metric_kit_commands.specs.Replies.{is_want_of_memory};
ghost use Rattle.metric_kit_commands.specs.Runs.{due_history, due_replies};
ghost use Rattle.metric_kit_commands.specs.Written.{IsSinkFault};
ghost use Rattle.metric_kit_commands.specs.WrittenRuns.{due_text};

use crate::fault::KitFault;
use crate::forms::ReplyForm;
use crate::replies::write_replies;
use metric_contents::Refusal;
use metric_core::Core;
use metric_history::{Book, Event, Reply};
use metric_io::Sink;
use metric_script::EventLines;
use std::alloc::Global;

/// Whether some reply is out of memory.
pub(crate) fn has_want_of_memory(replies: &[Reply]) -> bool
    ensures { result ≡ list_any is_want_of_memory replies.now }
{
    replies.iter().any(|reply| is_want_of_memory(reply))
}

// Whether a reply is out of memory.
fn is_want_of_memory(reply: &Reply) -> bool
    ensures { result ≡ is_want_of_memory reply.now }
{
    matches!(reply, Reply::Refused(Refusal::Memory))
}

/// Runs events, and gives the replies. Out of memory for one of them is out of memory for the whole run.
pub(crate) fn run_piece<B: Book>(
    alloc: Global,
    core: &mut Core<B>,
    events: &[Event],
) -> Result<Vec<Reply>, KitFault>
    ensures due { IfOk result (λ replies. (h : History) → CoreStands B.stands core.old h
        → replies.items ≡ due_replies core.old.plan.facts core.old.start h events.now) }
    ensures stands { OnOk result ((h : History) → CoreStands B.stands core.old h
        → CoreStands B.stands core.new
        (due_history core.old.plan.facts core.old.start h events.now)) }
    ensures plan { core.new.plan ≡ core.old.plan }
    ensures start { core.new.start ≡ core.old.start }
    ensures memory { IfErr result (λ fault. fault ≡ KitFault.Memory) }
{
    let replies = core.run(alloc, events)?;
    if has_want_of_memory(&replies) {
        return Err(KitFault::Memory);
    }
    Ok(replies)
}

// Runs events, and writes the replies in a form.
#[tactic(auto, using(metric_io::specs::Prefix::prefixes))]
fn write_piece<B: Book, F: ReplyForm, W: Sink>(
    alloc: Global,
    sink: &mut W,
    form: &F,
    core: &mut Core<B>,
    events: &[Event],
) -> Result<(), KitFault>
    ensures ok { OnOk result ((h : History) → CoreStands B.stands core.old h
        → Appends (W.contents sink.old) (W.contents sink.new)
        (due_text (F.text form.now) core.old.plan core.old.start h events.now)) }
    ensures prefix { (h : History) → CoreStands B.stands core.old h
        → AppendsPrefix (W.contents sink.old) (W.contents sink.new)
        (due_text (F.text form.now) core.old.plan core.old.start h events.now) }
    ensures stands { OnOk result ((h : History) → CoreStands B.stands core.old h
        → CoreStands B.stands core.new
        (due_history core.old.plan.facts core.old.start h events.now)) }
    ensures plan { core.new.plan ≡ core.old.plan }
    ensures start { core.new.start ≡ core.old.start }
    ensures broken { IfErr result (IsSinkFault (W.failures sink.old) (W.failures sink.new)) }
    ensures counted { OnOk result (W.failures sink.new ≡ W.failures sink.old) }
{
    let replies = run_piece(alloc, core, events)?;
    write_replies(alloc, sink, form, core.plan(), &replies)
}

/// Runs events on a core that has run nothing, and writes each reply in order, in a form. The replies to the first
/// events are written before later ones are read and run, so that memory holds one batch at a time.
pub(crate) fn write_run<B: Book, F: ReplyForm, W: Sink>(
    alloc: Global,
    sink: &mut W,
    form: &F,
    core: &mut Core<B>,
    events: EventLines<'_>,
) -> Result<(), KitFault>
    requires { CoreStands B.stands core.old [] }
    ensures ok { OnOk result (Appends (W.contents sink.old) (W.contents sink.new)
        (due_text (F.text form.now) core.old.plan core.old.start [] events.entry)) }
    ensures prefix { AppendsPrefix (W.contents sink.old) (W.contents sink.new)
        (due_text (F.text form.now) core.old.plan core.old.start [] events.entry) }
    ensures broken { IfErr result (IsSinkFault (W.failures sink.old) (W.failures sink.new)) }
    ensures counted { OnOk result (W.failures sink.new ≡ W.failures sink.old) }
{
    let mut rest = events;
    loop {
        let (piece, later) = rest.split(alloc)?;
        if piece.is_empty() {
            return Ok(());
        }
        write_piece(alloc, sink, form, core, piece.as_slice())?;
        rest = later;
    }
}
