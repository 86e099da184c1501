//! What calls answered, as text.
use crate::asserted::{OrFail, Stop};
use metric_contents::Refusal;
use metric_history::{Batch, Reply};
use std::alloc::Global;
use std::fmt::Debug;

/// What a call answered, what it answered when it was made again, and what the state came to.
pub(crate) struct Answers {
    pub first: String,
    pub second: String,
    pub state: String,
}

impl Drop for Answers {
    // A call of its own, so that what owns answers does not carry the steps of dropping each.
    fn drop(self) {
        let Answers {
            first: _first,
            second: _second,
            state: _state,
        } = self;
    }
}

impl Answers {
    /// Before any call.
    pub(crate) fn new(alloc: Global) -> Answers {
        Answers {
            first: String::new(alloc),
            second: String::new(alloc),
            state: String::new(alloc),
        }
    }

    /// Whether no call ended in a fault.
    pub(crate) fn are_given(&self) -> bool {
        !has_fault(&self.first) && !has_fault(&self.second)
    }

    /// Whether a call of one step was refused.
    pub(crate) fn has_refusal(&self) -> bool {
        self.first.as_str().starts_with(REFUSED) || self.second.as_str().starts_with(REFUSED)
    }
}

// How the reply to one step begins that is a refusal.
const REFUSED: &str = "reply refused ";

// Whether a line tells a fault; no line of a reply or a certificate begins as such a line does.
fn has_fault(answer: &str) -> bool {
    answer.lines().any(|line| line.starts_with("fault "))
}

/// Adds a text.
pub(crate) fn push<R: Stop>(rt: &R, out: &mut String, text: &str) {
    out.push_str(text).or_fail(rt);
}

/// Adds the line of a fault.
pub(crate) fn push_fault<R: Stop, E: Debug>(rt: &R, out: &mut String, fault: &E) {
    writeln!(out, "fault {fault:?}").or_fail(rt);
}

/// Adds a line for each of a list.
pub(crate) fn push_each<R: Stop, D: Debug>(rt: &R, out: &mut String, list: &[D]) {
    for one in list {
        writeln!(out, "{one:?}").or_fail(rt);
    }
}

/// Adds the text of each reply, whose first line begins with a word that no other line begins with.
pub(crate) fn push_replies<R: Stop>(rt: &R, out: &mut String, replies: &[Reply]) {
    for reply in replies {
        push_reply(rt, out, reply);
    }
}

/// Adds the text of a reply.
pub(crate) fn push_reply<R: Stop>(rt: &R, out: &mut String, reply: &Reply) {
    match reply {
        Reply::Accepted | Reply::Done | Reply::Granted => push(rt, out, "reply done\n"),
        Reply::Collected(batch) => push_batch(rt, out, batch),
        Reply::Refused(refusal) => writeln!(out, "{REFUSED}{refusal:?}").or_fail(rt),
    }
}

/// Adds the text of a batch.
pub(crate) fn push_batch<R: Stop>(rt: &R, out: &mut String, batch: &Batch) {
    let (from, mark, start, time) = (batch.from, batch.mark, batch.start, batch.time);
    writeln!(out, "reply batch {from} to {mark}, {start} to {time}").or_fail(rt);
    for stream in batch.streams.as_slice() {
        for point in stream.points.as_slice() {
            writeln!(out, "{} {:?} {:?}", stream.stream, point.set, point.value).or_fail(rt);
        }
    }
}

/// The reply to a step that answers this.
pub(crate) fn reply_to(answer: Result<(), Refusal>) -> Reply {
    match answer {
        Ok(()) => Reply::Done,
        Err(refusal) => Reply::Refused(refusal),
    }
}

/// The reply to a collection that answers this.
pub(crate) fn reply_with(answer: Result<Batch, Refusal>) -> Reply {
    match answer {
        Ok(batch) => Reply::Collected(batch),
        Err(refusal) => Reply::Refused(refusal),
    }
}
