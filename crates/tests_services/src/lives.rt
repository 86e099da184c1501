//! What happens to a provider and its seats, act by act.
use crate::agreement::script_of;
use crate::asserted::OrFail;
use crate::page::Page;
use crate::samples::{BOTH, PAIR};
use crate::seats::{BookSeats, seated, seats_in_lanes, seats_of};
use metric_contents::Refusal;
use metric_history::Book;
use metric_provider::{Collector, NoGate, Partly, Provider, Recorder, Totals};
use std::alloc::Global;
use std::fmt::Display;
use std::mem::replace;
use std::process::Abort;
use std::sync::Wait;

/// What happens to a provider and its seats.
#[derive(Clone, Copy)]
pub(crate) enum Act {
    // Events, which are the lines of a script.
    Script(&'static str),
    // The request of a seat for so many recordings on an instrument.
    Ask(usize, u32, u64),
    // What each recorder was told of three instruments, and whether it may record on the second one.
    Recorders,
    // What each reader has seen of three instruments, and the same after it collected all at 20.
    Seen,
    Readers,
    // The last reader's last collection, at 30.
    Last,
    // What is left to each recorder on the first instrument, and of its spare.
    Left,
    // How many lanes the first instrument has.
    Lanes,
    // The seats of these recorders are kept. Of another provider, of the run of a number if there is one, the seat of a
    // recorder of this number stands after them.
    Keep(&'static [u32]),
    Add(Option<u64>, u32),
    // The last seat goes.
    Drop,
    // The seats of another provider, of the run of a number, are brought after a script, so many; and the own ones are
    // there again.
    Bring(u64, &'static str, usize),
    Back,
    // The ends: into a run that starts at a time and has a number, for good, and with the seats that are there.
    RollOver(u64, u64),
    Finish,
    FinishPartly,
    // The act at this place of those that a test gives.
    Given(usize),
}

// Writes the answers to the lines of a script.
fn tell_script<R: Abort + Wait, B: Book>(
    page: &mut Page<'_, R>,
    seats: &mut BookSeats<B>,
    lines: &str,
) {
    let parts = ["%% catalogue\n%% config\n%% script\nstart 0\n", lines];
    let input = parts.concat(page.alloc).or_fail(page.rt);
    let script = script_of(page.rt, page.alloc, input.as_str());
    seats.tell_answers(page, script.events.as_slice())
}

// Writes what each recorder was told of both instruments and of one that there is not, and what it may record.
fn tell_recorders<R: Abort, B: Book>(page: &mut Page<'_, R>, seats: &BookSeats<B>) {
    for seat in &seats.recorders {
        let told = [seat.accepted(0), seat.accepted(1), seat.accepted(2)];
        let admitted = seat.admits(&seats.provider, 1, &[], 3);
        page.tell((seat.number(), told, admitted));
    }
}

// Writes what each reader has seen, after its collection of all instruments where it makes one.
fn tell_readers<R: Abort + Wait, B: Book>(
    page: &mut Page<'_, R>,
    seats: &mut BookSeats<B>,
    collects: bool,
) {
    for reader in &mut seats.collectors {
        if collects {
            let batches = reader.collect_all(page.rt, page.alloc, &seats.provider, 20);
            for batch in &batches.or_fail(page.rt) {
                page.batch(batch);
            }
        }
        let seen = [reader.seen(0), reader.seen(1), reader.seen(2)];
        page.tell((reader.number(), seen));
    }
}

fn tell_last<R: Abort + Wait, B: Book>(page: &mut Page<'_, R>, seats: &mut BookSeats<B>) {
    let reader = seats.collectors.pop().expect(page.rt, "no reader");
    match reader.shutdown(page.rt, page.alloc, &seats.provider, 30) {
        Ok(batches) => {
            for batch in &batches {
                page.batch(batch);
            }
        }
        Err(_) => panic!(page.rt; "refused"),
    }
}

fn tell_left<R: Abort + Wait, B: Book>(page: &mut Page<'_, R>, seats: &BookSeats<B>) {
    for seat in &seats.recorders {
        page.tell((seat.number(), seat.room(page.rt, &seats.provider, 0)));
    }
    page.tell(seats.provider.spare_left(page.rt, 0));
}

fn tell_ask<R: Abort + Wait, B: Book>(
    page: &mut Page<'_, R>,
    seats: &BookSeats<B>,
    (recorder, instrument, amount): (usize, u32, u64),
) {
    match seats.recorders.get(recorder) {
        Some(seat) => {
            let answer = seat.ask(page.rt, &seats.provider, instrument, amount);
            page.answered(answer, "granted\n")
        }
        None => page.say(Refusal::UnknownRecorder),
    }
}

// Keeps the seats of the recorders of these numbers.
fn keep<R: Abort>(rt: &R, alloc: Global, seats: &mut Vec<Recorder>, numbers: &[u32]) {
    for seat in replace(seats, Vec::new(alloc)) {
        if numbers.contains(&seat.number()) {
            seats.push(seat).or_fail(rt);
        }
    }
}

// The seat of a recorder of another provider, which has recorded nothing.
fn stranger<R: Abort + Wait, B: Book>(rt: &R, alloc: Global, run: u64, number: u32) -> Recorder {
    let mut other: BookSeats<B> = seats_of(rt, alloc, PAIR, BOTH, 0, run);
    keep(rt, alloc, &mut other.recorders, &[number]);
    other.recorders.pop().expect(rt, "no seat")
}

// Brings the seats of another provider of the same files after a script, so many.
fn bring<R: Abort + Wait, B: Book>(
    page: &mut Page<'_, R>,
    own: &mut BookSeats<B>,
    other: BookSeats<B>,
    (lines, count): (&str, usize),
) -> Vec<Recorder> {
    let mut other = other;
    tell_script(page, &mut other, lines);
    let mut brought = replace(&mut other.recorders, Vec::new(page.alloc));
    brought.truncate(count);
    replace(&mut own.recorders, brought)
}

// Does what does not end a provider. The own seats are aside while others are brought.
fn do_act<R: Abort + Wait, B: Book>(
    page: &mut Page<'_, R>,
    files: (&str, &str, u64),
    seats: &mut BookSeats<B>,
    aside: &mut Vec<Recorder>,
    next: &Act,
) {
    let (rt, alloc) = (page.rt, page.alloc);
    match *next {
        Act::Script(lines) => tell_script(page, seats, lines),
        Act::Ask(recorder, instrument, amount) => {
            tell_ask(page, seats, (recorder, instrument, amount))
        }
        Act::Recorders => tell_recorders(page, seats),
        Act::Seen => tell_readers(page, seats, false),
        Act::Readers => tell_readers(page, seats, true),
        Act::Last => tell_last(page, seats),
        Act::Left => tell_left(page, seats),
        Act::Lanes => page.tell(seats.provider.lanes(0)),
        Act::Keep(numbers) => keep(rt, alloc, &mut seats.recorders, numbers),
        Act::Add(Some(run), number) => {
            let stranger = stranger::<R, B>(rt, alloc, run, number);
            seats.recorders.push(stranger).or_fail(rt)
        }
        Act::Drop => seats
            .recorders
            .truncate(seats.recorders.len().saturating_sub(1)),
        Act::Bring(run, lines, count) => {
            let (catalogue, config, since) = files;
            let other = seats_of(rt, alloc, catalogue, config, since, run);
            *aside = bring(page, seats, other, (lines, count));
        }
        Act::Back => seats.recorders = replace(aside, Vec::new(alloc)),
        _ => {}
    }
}

fn tell_totals<R: Abort>(page: &mut Page<'_, R>, totals: &Totals) {
    let instruments = totals.instruments.as_slice();
    page.tell((instruments, totals.journals.len(), totals.slips.len()))
}

// Writes what is known of a run with the seats that are there, and how long each journal is.
fn tell_partly<R: Abort>(page: &mut Page<'_, R>, partly: &Partly) {
    let instruments = partly.totals.instruments.as_slice();
    page.tell((instruments, partly.missing.as_slice()));
    for journal in &partly.totals.journals {
        page.tell(journal.len());
    }
}

// What an end hands back, and why.
type Refused<B, F> = (Provider<B, NoGate>, Vec<Recorder>, F);

// Writes why a provider goes on, and how many seats are handed back.
fn goes_on<R: Abort, B: Book, F: Display + Drop>(
    page: &mut Page<'_, R>,
    (provider, recorders, fault): Refused<B, F>,
    collectors: Vec<Collector>,
) -> Option<BookSeats<B>> {
    page.say(fault);
    page.tell(recorders.len());
    Some(seated((provider, recorders, collectors)))
}

// Ends a provider, and hands back what goes on.
fn end<R: Abort + Wait, B: Book>(
    page: &mut Page<'_, R>,
    seats: BookSeats<B>,
    next: &Act,
) -> Option<BookSeats<B>> {
    let (provider, recorders, collectors) = seats.into_parts();
    match *next {
        Act::RollOver(start, run) => {
            match provider.roll_over(page.rt, page.alloc, recorders, start, run) {
                Ok(rolled) => {
                    page.tell(rolled.totals.instruments.as_slice());
                    Some(seated((rolled.provider, rolled.recorders, rolled.collectors)))
                }
                Err(refused) => goes_on(page, refused, collectors),
            }
        }
        Act::FinishPartly => match provider.finish_partly(page.rt, page.alloc, recorders) {
            Ok(partly) => {
                tell_partly(page, &partly);
                None
            }
            Err(refused) => goes_on(page, refused, collectors),
        },
        _ => match provider.finish(page.rt, page.alloc, recorders) {
            Ok(totals) => {
                tell_totals(page, &totals);
                None
            }
            Err(refused) => goes_on(page, refused, collectors),
        },
    }
}

// The act that stands in a list, or the one that is given for it.
fn chosen(next: Act, given: &[Act]) -> Act {
    match next {
        Act::Given(place) => given.get(place).copied().unwrap_or(next),
        _ => next,
    }
}

/// Lets these acts happen to a provider of these files, which runs since a time and has so many lanes at most for an
/// instrument, until it ends.
pub(crate) fn live<R: Abort + Wait, B: Book>(
    page: &mut Page<'_, R>,
    files: (&str, &str, u64),
    lanes: u32,
    acts: &[Act],
    given: &[Act],
) {
    let (catalogue, config, since) = files;
    let (rt, alloc) = (page.rt, page.alloc);
    let mut seats: BookSeats<B> = seats_in_lanes(rt, alloc, catalogue, config, since, (1, lanes));
    let mut aside = Vec::new(page.alloc);
    for next in acts {
        let next = &chosen(*next, given);
        match next {
            Act::RollOver(_, _) | Act::Finish | Act::FinishPartly => match end(page, seats, next) {
                Some(going) => seats = going,
                None => return,
            },
            _ => do_act(page, files, &mut seats, &mut aside, next),
        }
    }
}
