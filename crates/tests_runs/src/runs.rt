//! Runs of an input's script on a core, and the text of the replies, which is what a replay writes.
use crate::asserted::OrFail;
use crate::plans::plan_of;
use metric_base::Items;
use metric_contents::Refusal;
use metric_core::Core;
use metric_history::{Book, Event, Reply};
use metric_lines::push_batch;
use metric_parts::{Needs, Parts, parts_of};
use metric_plan::Plan;
use metric_script::events_of;
use metric_text::{lines, push_text};
use std::alloc::Global;
use std::process::Abort;

fn push_refusal<R: Abort>(out: &mut Vec<u8>, rt: &R, alloc: Global, refusal: Refusal) {
    let line = format!(in alloc; "refused {refusal}\n").or_fail(rt);
    push_text(out, &line).or_fail(rt);
}

fn push_reply<R: Abort>(out: &mut Vec<u8>, rt: &R, alloc: Global, plan: &Plan, reply: &Reply) {
    match reply {
        Reply::Accepted => push_text(out, "accepted\n").or_fail(rt),
        Reply::Done => push_text(out, "closed\n").or_fail(rt),
        Reply::Granted => push_text(out, "granted\n").or_fail(rt),
        Reply::Refused(refusal) => push_refusal(out, rt, alloc, *refusal),
        Reply::Collected(batch) => {
            push_batch(out, plan.catalogue(), plan.config(), plan.streams(), batch).or_fail(rt)
        }
    }
}

fn push_replies<R: Abort>(
    out: &mut Vec<u8>,
    rt: &R,
    alloc: Global,
    plan: &Plan,
    replies: &[Reply],
) {
    for reply in replies {
        push_reply(out, rt, alloc, plan, reply);
    }
}

fn push_pieces<R: Abort, B: Book>(
    out: &mut Vec<u8>,
    rt: &R,
    alloc: Global,
    core: &mut Core<B>,
    events: &[Event],
    size: usize,
) {
    for piece in events.chunks(size.max(1)) {
        let replies = core.run(alloc, piece).or_fail(rt);
        push_replies(out, rt, alloc, core.plan(), &replies);
    }
}

fn core_of<R: Abort, B: Book>(rt: &R, alloc: Global, plan: Plan, start: u64) -> Core<B> {
    match Core::new(alloc, plan, start) {
        Ok(core) => core,
        Err((_, refused)) => Err(refused).or_fail(rt),
    }
}

// The start of the script of some parts, and its events.
fn script_of<R: Abort>(rt: &R, alloc: Global, parts: &Parts<'_>) -> (u64, Items<Event>) {
    let script = parts.script.as_ref().expect(rt, "no script");
    let read = events_of(alloc, script).or_fail(rt);
    (read.start, read.events.all(alloc).or_fail(rt))
}

const TRIAL: Needs = Needs {
    certificate: false,
    script: true,
};

// A new core of an input, and the events of its script.
fn started<R: Abort, B: Book>(rt: &R, alloc: Global, input: &str) -> (Core<B>, Items<Event>) {
    let lines = lines(alloc, input.as_bytes()).or_fail(rt);
    let parts = parts_of(alloc, &lines, TRIAL).or_fail(rt);
    let (start, events) = script_of(rt, alloc, &parts);
    let plan = plan_of(rt, alloc, parts.catalogue.as_str(), parts.config.as_str());
    (core_of(rt, alloc, plan, start), events)
}

/// The replies of a new core to the script of an input, where each run has at most so many events.
pub(crate) fn told<R: Abort, B: Book>(rt: &R, alloc: Global, input: &str, size: usize) -> String {
    let (mut core, events) = started::<R, B>(rt, alloc, input);
    let mut out = Vec::new(alloc);
    push_pieces(&mut out, rt, alloc, &mut core, events.as_slice(), size);
    String::from_utf8(out).or_fail(rt)
}

/// A new core after the script of an input, and its replies.
pub(crate) fn ran<R: Abort, B: Book>(rt: &R, alloc: Global, input: &str) -> (Core<B>, Vec<Reply>) {
    let (mut core, events) = started::<R, B>(rt, alloc, input);
    let replies = core.run(alloc, events.as_slice()).or_fail(rt);
    (core, replies)
}
