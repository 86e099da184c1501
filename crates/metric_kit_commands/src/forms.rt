//! What replies are written as.
ghost use Rattle.std.specs.Prelude.{◌≡◌, ◌++◌, OnOk, IfErr, IfOk};
ghost use Rattle.std.specs.Io.KnownBytes.{Appends};
ghost use Rattle.metric_io.specs.Prefix.{AppendsPrefix};
ghost use Rattle.metric_contents.specs.Refusals.{refusal_text};
ghost use Rattle.metric_export.specs.Exports.{plan_text};
ghost use Rattle.metric_kit_commands.specs.Replies.{encoded_reply, refused_text, reply_text};
ghost use Rattle.metric_kit_commands.specs.Written.{IsSinkFault};

use crate::fault::KitFault;
use crate::parts::write_text;
use metric_contents::Refusal;
use metric_export::{Encoding, Plain};
use metric_history::{Batch, Reply};
use metric_io::Sink;
use metric_plan::Plan;
use metric_text::{push_byte, push_number, push_text};
use std::alloc::{AllocError, Global};

/// What a reply is written as. Contracts see its bytes under a plan.
pub(crate) trait ReplyForm {
    ghost use Rattle.std.specs.Prelude.{ℕ, List};
    ghost use Rattle.metric_history.specs.declared.event.Reply.{Reply as Answer};
    ghost use Rattle.metric_plan.specs.Plans.{PlanValue};

    ghost text: { Self → PlanValue → Answer → List ℕ };

    /// Writes a reply to a sink, where it likes by way of a buffer that may hold an earlier one.
    fn write_reply<W: Sink>(
        &self,
        alloc: Global,
        buffer: &mut Vec<u8>,
        sink: &mut W,
        plan: &Plan,
        reply: &Reply,
    ) -> Result<(), KitFault>
        ensures ok { OnOk result (Appends (W.contents sink.old) (W.contents sink.new)
            (text self.now plan.now reply.now)) }
        ensures prefix { AppendsPrefix (W.contents sink.old) (W.contents sink.new)
            (text self.now plan.now reply.now) }
        ensures broken { IfErr result
            (IsSinkFault (W.failures sink.old) (W.failures sink.new)) }
        ensures counted { OnOk result (W.failures sink.new ≡ W.failures sink.old) };
}

// Writes a refusal as it is printed.
fn push_printed(out: &mut Vec<u8>, refusal: &Refusal) -> Result<(), AllocError>
    ensures { OnOk result (out.new.items ≡ out.old.items ++ refusal_text refusal.now) }
{
    push_number(out, u64::from(refusal.number()))?;
    push_byte(out, b' ')?;
    push_text(out, refusal.name())
}

// Writes the line of a refusal.
fn push_refusal(out: &mut Vec<u8>, refusal: &Refusal) -> Result<(), AllocError>
    ensures { OnOk result (out.new.items ≡ out.old.items ++ refused_text refusal.now) }
{
    push_text(out, "refused ")?;
    push_printed(out, refusal)?;
    push_byte(out, b'\n')
}

// The bytes of a batch in an encoding.
fn bytes_of<E: Encoding>(
    alloc: Global,
    encoding: &E,
    plan: &Plan,
    batch: &Batch,
) -> Result<Vec<u8>, AllocError>
    ensures { IfOk result (λ text. text.items ≡ E.text encoding.now plan.now batch.now) }
{
    let mut text = Vec::new(alloc);
    encoding.push(alloc, &mut text, plan, batch)?;
    Ok(text)
}

// Writes a batch in an encoding.
#[tactic(auto, using(metric_io::specs::Prefix::prefixes))]
fn write_collected<E: Encoding, W: Sink>(
    alloc: Global,
    sink: &mut W,
    encoding: &E,
    plan: &Plan,
    batch: &Batch,
) -> Result<(), KitFault>
    ensures ok { OnOk result (Appends (W.contents sink.old) (W.contents sink.new)
        (E.text encoding.now plan.now batch.now)) }
    ensures prefix { AppendsPrefix (W.contents sink.old) (W.contents sink.new)
        (E.text encoding.now plan.now batch.now) }
    ensures broken { IfErr result (IsSinkFault (W.failures sink.old) (W.failures sink.new)) }
    ensures counted { OnOk result (W.failures sink.new ≡ W.failures sink.old) }
{
    let text = bytes_of(alloc, encoding, plan, batch)?;
    write_text(sink, &text)
}

/// Each reply as a line, and a batch as an exporter writes it.
#[derive(Clone, Copy)]
pub(crate) struct Printed;

impl ReplyForm for Printed {
    ghost text = { λ _. reply_text };

    #[tactic(auto, using(metric_io::specs::Prefix::prefixes))]
    fn write_reply<W: Sink>(
        &self,
        alloc: Global,
        buffer: &mut Vec<u8>,
        sink: &mut W,
        plan: &Plan,
        reply: &Reply,
    ) -> Result<(), KitFault> {
        match reply {
            Reply::Accepted => write_text(sink, b"accepted\n"),
            Reply::Collected(batch) => write_collected(alloc, sink, &Plain, plan, batch),
            Reply::Done => write_text(sink, b"closed\n"),
            Reply::Granted => write_text(sink, b"granted\n"),
            Reply::Refused(refusal) => {
                buffer.clear();
                push_refusal(buffer, refusal)?;
                write_text(sink, buffer)
            }
        }
    }
}

/// Batches alone, in an encoding.
#[derive(Clone, Copy)]
pub(crate) struct Encoded<'a, E> {
    pub encoding: &'a E,
}

impl<E: Encoding> ReplyForm for Encoded<'_, E> {
    ghost text = { λ form. encoded_reply (E.text form.encoding.now) };

    #[tactic(auto, using(metric_io::specs::Prefix::prefixes))]
    fn write_reply<W: Sink>(
        &self,
        alloc: Global,
        _buffer: &mut Vec<u8>,
        sink: &mut W,
        plan: &Plan,
        reply: &Reply,
    ) -> Result<(), KitFault> {
        match reply {
            Reply::Collected(batch) => write_collected(alloc, sink, self.encoding, plan, batch),
            Reply::Accepted | Reply::Done | Reply::Granted | Reply::Refused(_) => Ok(()),
        }
    }
}
