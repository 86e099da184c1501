//! Events that seats play.
use crate::asserted::{OrFail, Stop};
use crate::inputs::attributes;
use crate::refusals::answers::{push_reply, reply_to, reply_with};
use crate::seats::Seats;
use metric_contents::Attr;
use metric_history::{Book, Event, Reply};
use std::alloc::Global;

// When the end is collected, later than any event of a script.
const END: u64 = 1_000_000;

/// Plays each event. What they are answered.
pub(crate) fn played<R: Stop, B: Book>(
    rt: &R,
    alloc: Global,
    seats: &mut Seats<B>,
    events: &[Event],
) -> Vec<Reply> {
    let mut replies = Vec::new(alloc);
    for event in events {
        let given = given_by(rt, alloc, event);
        let reply = play(rt, alloc, seats, event, &given);
        replies.push(reply).ok().or_fail(rt);
    }
    replies
}

/// The attributes of a recording, borrowed.
pub(crate) fn given_by<'a, R: Stop>(rt: &R, alloc: Global, event: &'a Event) -> Vec<Attr<'a>> {
    match event {
        Event::Record { attrs, .. } => attributes(rt, alloc, attrs.as_slice()),
        _ => Vec::new(alloc),
    }
}

/// Plays an event of a seat, or of the provider. The attributes of a recording are given.
pub(crate) fn play<R: Stop, B: Book>(
    rt: &R,
    alloc: Global,
    seats: &mut Seats<B>,
    event: &Event,
    given: &[Attr<'_>],
) -> Reply {
    let provider = &seats.provider;
    match event {
        Event::Record {
            recorder,
            instrument,
            value,
            ..
        } => {
            let seat = seats.recorders.get_mut(*recorder as usize).or_fail(rt);
            reply_to(seat.record(rt, provider, *instrument, given, *value))
        }
        Event::Collect {
            reader,
            instrument,
            now,
        } => {
            let seat = seats.collectors.get_mut(*reader as usize).or_fail(rt);
            reply_with(seat.collect(rt, alloc, provider, *instrument, *now))
        }
        Event::Close { instrument } => reply_to(provider.close(rt, *instrument)),
        Event::Grant {
            recorder,
            instrument,
            amount,
        } => reply_to(provider.grant(rt, *recorder, *instrument, *amount)),
    }
}

/// Adds what each recorder was told of each instrument, what is left to spare of it, and what each reader collects of it
/// at the end.
pub(crate) fn push_state<R: Stop, B: Book>(
    rt: &R,
    out: &mut String,
    alloc: Global,
    seats: &mut Seats<B>,
) {
    let provider = &seats.provider;
    for instrument in 0..provider.plan().catalogue().instruments().len() as u32 {
        writeln!(out, "{:?}", provider.spare_left(rt, instrument)).or_fail(rt);
        for seat in &seats.recorders {
            writeln!(out, "{:?}", seat.accepted(instrument)).or_fail(rt);
        }
        for seat in &mut seats.collectors {
            let reply = reply_with(seat.collect(rt, alloc, provider, instrument, END));
            push_reply(rt, out, &reply);
        }
    }
}
