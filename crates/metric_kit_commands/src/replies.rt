//! The texts of replies, written.
ghost use Rattle.std.specs.Prelude.{◌≡◌, ◌++◌, OnOk, IfErr};
ghost use Rattle.std.specs.Io.KnownBytes.{Appends};
ghost use Rattle.metric_io.specs.Prefix.{AppendsPrefix};
ghost use Rattle.metric_kit_commands.specs.Replies.{accepted_count, audited_text, formed_text, is_accepted, replies_text};
ghost use Rattle.metric_kit_commands.specs.Written.{IsSinkFault};

use crate::fault::KitFault;
use crate::forms::{Printed, ReplyForm};
use crate::parts::{PartWriter, write_parts, write_text};
use metric_history::Reply;
use metric_io::Sink;
use metric_plan::Plan;
use metric_text::{push_byte, push_numbered};
use std::alloc::{AllocError, Global};

/// Writes each reply in order, in a form.
pub(crate) fn write_replies<F: ReplyForm, W: Sink>(
    alloc: Global,
    sink: &mut W,
    form: &F,
    plan: &Plan,
    replies: &[Reply],
) -> Result<(), KitFault>
    ensures ok { OnOk result (Appends (W.contents sink.old) (W.contents sink.new)
        (formed_text (F.text form.now plan.now) replies.now)) }
    ensures prefix { AppendsPrefix (W.contents sink.old) (W.contents sink.new)
        (formed_text (F.text form.now plan.now) replies.now) }
    ensures broken { IfErr result (IsSinkFault (W.failures sink.old) (W.failures sink.new)) }
    ensures counted { OnOk result (W.failures sink.new ≡ W.failures sink.old) }
{
    write_parts(alloc, sink, &UnderPlan { alloc, form, plan }, replies)
}

// Whether a recording was accepted.
fn is_accepted(reply: &Reply) -> bool
    ensures { result ≡ is_accepted reply.now }
{
    matches!(reply, Reply::Accepted)
}

/// How many recordings were accepted.
pub(crate) fn accepted_count(replies: &[Reply]) -> u64
    ensures { result ≡ accepted_count replies.now }
{
    replies.iter().filter(|reply| is_accepted(*reply)).count() as u64
}

// Writes the line of an audit.
fn push_audit(out: &mut Vec<u8>, accepted: u64) -> Result<(), AllocError>
    ensures { OnOk result (out.new.items ≡ out.old.items ++ audited_text accepted) }
{
    push_numbered(out, "audited ", accepted)?;
    push_byte(out, b'\n')
}

// The same to a sink.
#[tactic(auto, using(metric_io::specs::Prefix::prefixes))]
fn write_audit<W: Sink>(alloc: Global, sink: &mut W, accepted: u64) -> Result<(), KitFault>
    ensures ok { OnOk result (Appends (W.contents sink.old) (W.contents sink.new)
        (audited_text accepted)) }
    ensures prefix { AppendsPrefix (W.contents sink.old) (W.contents sink.new)
        (audited_text accepted) }
    ensures broken { IfErr result (IsSinkFault (W.failures sink.old) (W.failures sink.new)) }
    ensures counted { OnOk result (W.failures sink.new ≡ W.failures sink.old) }
{
    let mut line = Vec::new(alloc);
    push_audit(&mut line, accepted)?;
    write_text(sink, &line)
}

/// Writes the text of each reply in order, and the line of an audit with how many recordings were accepted.
#[tactic(auto, using(crate::specs::TextLaws::two_texts))]
pub(crate) fn write_audited<W: Sink>(
    alloc: Global,
    sink: &mut W,
    plan: &Plan,
    replies: &[Reply],
    accepted: u64,
) -> Result<(), KitFault>
    ensures ok { OnOk result (Appends (W.contents sink.old) (W.contents sink.new)
        (replies_text plan.now replies.now ++ audited_text accepted)) }
    ensures prefix { AppendsPrefix (W.contents sink.old) (W.contents sink.new)
        (replies_text plan.now replies.now ++ audited_text accepted) }
    ensures broken { IfErr result (IsSinkFault (W.failures sink.old) (W.failures sink.new)) }
    ensures counted { OnOk result (W.failures sink.new ≡ W.failures sink.old) }
{
    write_replies(alloc, sink, &Printed, plan, replies)?;
    write_audit(alloc, sink, accepted)?;
    Ok(())
}

// How replies are written in a form, under a plan.
#[derive(Drop)]
struct UnderPlan<'a, F> {
    alloc: Global,
    form: &'a F,
    plan: &'a Plan,
}

impl<F: ReplyForm> PartWriter<Reply> for UnderPlan<'_, F> {
    ghost text = { λ u _ reply. F.text u.form.now u.plan.now reply };

    fn write_part<W: Sink>(
        &self,
        buffer: &mut Vec<u8>,
        sink: &mut W,
        _number: u64,
        reply: &Reply,
    ) -> Result<(), KitFault> {
        self.form
            .write_reply(self.alloc, buffer, sink, self.plan, reply)
    }
}
