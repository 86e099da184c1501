//! The calls of a provider and its seats.
use crate::asserted::{OrFail, Stop, hold};
use crate::inputs::Input;
use crate::mark::mark;
use crate::refusals::Asked;
use crate::refusals::answers::{
    Answers, push, push_batch, push_each, push_fault, push_replies, push_reply, reply_with,
};
use crate::refusals::played::{given_by, play, played, push_state};
use crate::seats::{Seats, seats_of, started};
use metric_history::{Batch, Book, Event};
use metric_plan::Plan;
use metric_provider::{AllFault, Collector, FinishFault, NoGate, Provider, Recorder, Totals};
use std::alloc::Global;

// When all instruments are collected, later than any event of a script.
const LATE: u64 = 500_000;

// The seats of an input that have played its script.
fn played_seats<R: Stop, B: Book>(rt: &R, alloc: Global, input: &Input) -> Seats<B> {
    let mut seats = seats_of(rt, alloc, input.plan(rt, alloc), 1);
    played(rt, alloc, &mut seats, &input.events);
    seats
}

/// Starts a provider, and plays the script by its seats.
pub(crate) fn answer_start<R: Stop, B: Book>(
    answers: &mut Answers,
    rt: &R,
    alloc: Global,
    input: &Input,
) {
    let plan = input.plan(rt, alloc);
    mark(alloc);
    let first: Result<Seats<B>, Plan> = started(rt, alloc, plan, 1, 1);
    mark(alloc);
    let mut seats = match first {
        Ok(seats) => {
            push_seats(rt, &mut answers.first, &seats);
            seats
        }
        Err(plan) => {
            push(rt, &mut answers.first, "fault Memory\n");
            hold(rt, plan.is_certified(), "the plan is certified");
            let seats = seats_of(rt, alloc, plan, 1);
            push_seats(rt, &mut answers.second, &seats);
            seats
        }
    };
    let replies = played(rt, alloc, &mut seats, &input.events);
    push_replies(rt, &mut answers.state, &replies);
}

fn push_seats<R: Stop, B: Book>(rt: &R, out: &mut String, seats: &Seats<B>) {
    let (recorders, readers) = (seats.recorders.len(), seats.collectors.len());
    writeln!(out, "seats of {recorders} recorders and {readers} readers").or_fail(rt);
}

/// Makes the last recording or collection of the script after what stands before it, or grants the first recorder a
/// recording of the first instrument's spare budget.
pub(crate) fn answer_step<R: Stop, B: Book>(
    answers: &mut Answers,
    rt: &R,
    alloc: Global,
    asked: &Asked<'_>,
) {
    let grant = Event::Grant {
        recorder: 0,
        instrument: 0,
        amount: 1,
    };
    let (before, event) = last_of(&asked.input.events, asked.call);
    let event = event.unwrap_or(&grant);
    let mut seats: Seats<B> = seats_of(rt, alloc, asked.input.plan(rt, alloc), 1);
    played(rt, alloc, &mut seats, before);
    let given = given_by(rt, alloc, event);
    mark(alloc);
    let first = play(rt, alloc, &mut seats, event, &given);
    mark(alloc);
    push_reply(rt, &mut answers.first, &first);
    if !asked.is_once {
        let second = play(rt, alloc, &mut seats, event, &given);
        push_reply(rt, &mut answers.second, &second);
    }
    push_state(rt, &mut answers.state, alloc, &mut seats);
}

// What stands before the last event of a kind, and that; of a grant nothing.
fn last_of<'a>(events: &'a [Event], call: &str) -> (&'a [Event], Option<&'a Event>) {
    let mut found: (&'a [Event], Option<&'a Event>) = (&[], None);
    for (place, event) in events.iter().enumerate() {
        let is_one = match call {
            "record" => matches!(event, Event::Record { .. }),
            "collect" => matches!(event, Event::Collect { .. }),
            _ => false,
        };
        if is_one {
            found = (&events[..place.min(events.len())], Some(event));
        }
    }
    found
}

/// Collects all instruments by the last reader after the script, or ends it; those that are left are then collected one
/// by one.
pub(crate) fn answer_all<R: Stop, B: Book>(
    answers: &mut Answers,
    rt: &R,
    alloc: Global,
    input: &Input,
    is_end: bool,
) {
    let mut seats: Seats<B> = played_seats(rt, alloc, input);
    let seat = seats.collectors.pop().or_fail(rt);
    mark(alloc);
    let (first, seat) = collected(rt, alloc, &seats.provider, seat, is_end);
    mark(alloc);
    let done = match &first {
        Ok(batches) => push_batches(rt, &mut answers.first, batches),
        Err(fault) => {
            let done = push_batches(rt, &mut answers.first, &fault.done);
            push_fault(rt, &mut answers.first, &fault.refusal);
            done
        }
    };
    if let Some(mut seat) = seat {
        push_left(
            rt,
            &mut answers.second,
            alloc,
            &seats.provider,
            &mut seat,
            done,
        );
        if !is_end {
            seats.collectors.push(seat).ok().or_fail(rt);
        }
    }
    push_state(rt, &mut answers.state, alloc, &mut seats);
}

// Collects all instruments, or ends the seat. The seat, unless it has ended.
fn collected<R: Stop, B: Book>(
    rt: &R,
    alloc: Global,
    provider: &Provider<B, NoGate>,
    mut seat: Collector,
    is_end: bool,
) -> (Result<Vec<Batch>, AllFault>, Option<Collector>) {
    if !is_end {
        let batches = seat.collect_all(rt, alloc, provider, LATE);
        return (batches, Some(seat));
    }
    match seat.shutdown(rt, alloc, provider, LATE) {
        Ok(batches) => (Ok(batches), None),
        Err((seat, fault)) => (Err(fault), Some(seat)),
    }
}

// Adds batches. How many there are.
fn push_batches<R: Stop>(rt: &R, out: &mut String, batches: &[Batch]) -> usize {
    for batch in batches {
        push_batch(rt, out, batch);
    }
    batches.len()
}

// Collects the instruments after so many, one by one.
fn push_left<R: Stop, B: Book>(
    rt: &R,
    out: &mut String,
    alloc: Global,
    provider: &Provider<B, NoGate>,
    seat: &mut Collector,
    done: usize,
) {
    for instrument in done..provider.plan().catalogue().instruments().len() {
        let reply = reply_with(seat.collect(rt, alloc, provider, instrument as u32, LATE));
        push_reply(rt, out, &reply);
    }
}

// Totals, or what was handed in and the fault.
type Finished<B> = Result<Totals, (Provider<B, NoGate>, Vec<Recorder>, FinishFault)>;

/// Ends a provider after the script.
pub(crate) fn answer_finish<R: Stop, B: Book>(
    answers: &mut Answers,
    rt: &R,
    alloc: Global,
    input: &Input,
) {
    let seats: Seats<B> = played_seats(rt, alloc, input);
    let (provider, recorders, _collectors) = seats.into_all();
    mark(alloc);
    let first: Finished<B> = provider.finish(rt, alloc, recorders);
    mark(alloc);
    match first {
        Ok(totals) => push_totals(rt, &mut answers.first, &totals),
        Err((provider, recorders, fault)) => {
            push_fault(rt, &mut answers.first, &fault);
            let second: Finished<B> = provider.finish(rt, alloc, recorders);
            let totals = second.ok().or_fail(rt);
            push_totals(rt, &mut answers.second, &totals);
        }
    }
}

// Adds the total of each instrument, its journal, and the slips of each recorder.
fn push_totals<R: Stop>(rt: &R, out: &mut String, totals: &Totals) {
    push_each(rt, out, &totals.instruments);
    for journal in &totals.journals {
        push_each(rt, out, journal.as_slice());
    }
    for instrument in &totals.slips {
        for slips in instrument.as_slice() {
            push(rt, out, "recorder\n");
            push_each(rt, out, slips.as_slice());
        }
    }
}
