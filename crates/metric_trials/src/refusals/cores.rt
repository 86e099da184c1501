//! The calls of a core.
use crate::asserted::{OrFail, Stop};
use crate::inputs::Input;
use crate::mark::mark;
use crate::refusals::Asked;
use crate::refusals::answers::{Answers, push, push_fault, push_replies};
use crate::seats::START;
use metric_core::Core;
use metric_history::{Book, Reply};
use metric_plan::Plan;
use std::alloc::{AllocError, Global};

/// Makes a core, and runs the script on it.
pub(crate) fn answer_new<R: Stop, B: Book>(
    answers: &mut Answers,
    rt: &R,
    alloc: Global,
    input: &Input,
) {
    let plan = input.plan(rt, alloc);
    mark(alloc);
    let first: Result<Core<B>, (Plan, AllocError)> = Core::new(alloc, plan, START);
    mark(alloc);
    let mut core = match first {
        Ok(core) => {
            push(rt, &mut answers.first, "a core\n");
            core
        }
        Err((plan, error)) => {
            push_fault(rt, &mut answers.first, &error);
            push(rt, &mut answers.second, "a core\n");
            Core::new(alloc, plan, START).ok().or_fail(rt)
        }
    };
    push_ran(rt, &mut answers.state, core.run(alloc, &input.events));
}

/// Runs the script, but the event that is left out, and then all of it again.
pub(crate) fn answer_run<R: Stop, B: Book>(
    answers: &mut Answers,
    rt: &R,
    alloc: Global,
    asked: &Asked<'_>,
) {
    let plan = asked.input.plan(rt, alloc);
    let mut core: Core<B> = Core::new(alloc, plan, START).ok().or_fail(rt);
    let events = asked.input.events.as_slice();
    let before = events.get(..asked.left).unwrap_or(events);
    let after = events.get(asked.left.saturating_add(1)..).unwrap_or(&[]);
    mark(alloc);
    let first = core.run(alloc, before);
    mark(alloc);
    push_ran(rt, &mut answers.first, first);
    push_ran(rt, &mut answers.first, core.run(alloc, after));
    if !asked.is_once {
        push_ran(rt, &mut answers.second, core.run(alloc, events));
    }
}

fn push_ran<R: Stop>(rt: &R, out: &mut String, answer: Result<Vec<Reply>, AllocError>) {
    match answer {
        Ok(replies) => push_replies(rt, out, &replies),
        Err(error) => push_fault(rt, out, &error),
    }
}
