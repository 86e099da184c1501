//! More instruments, recorders and lanes than elsewhere, and lists as long: what a call does for the first of them it
//! does for the last too.
use crate::asserted::{OrFail, assert_equal};
use crate::page::Page;
use crate::seats::{Seats, seats_in_lanes};
use metric_contents::Refusal;
use metric_provider::{Measurement, Recorder, Total};
use metric_sdk::MeterProvider;
use std::alloc::Global;
use std::process::Abort;
use std::sync::Wait;

// How many instruments and recorders there are, and lanes at most.
const MANY: u32 = 20;

// One cumulative reader.
const CONFIG: &str = "format = 1\nreader = [{ name = 'a' }]\n";

// Writes counters, each with a spare of two recordings for each recorder and one more.
fn push_instruments<R: Abort>(page: &mut Page<'_, R>) {
    for number in 0..MANY {
        page.numbers(&[("[[meter.instrument]]\nname = 'c", u64::from(number))]);
        page.push("'\nkind = 'counter'\nrange = [0, 100]\nspare = 41\n");
    }
}

// Writes recorders, each with a budget for each counter.
fn push_recorders<R: Abort>(page: &mut Page<'_, R>) {
    for number in 0..MANY {
        page.numbers(&[("[[recorder]]\nname = 'r", u64::from(number))]);
        page.push("'\nbudget = [");
        push_budgets(page);
        page.push("]\n");
    }
}

fn push_budgets<R: Abort>(page: &mut Page<'_, R>) {
    for instrument in 0..MANY {
        page.numbers(&[("{ instrument = ", u64::from(instrument))]);
        page.push(", amount = 25 }, ");
    }
}

// The seats of a provider of all these, which runs since 7.
fn many_seats<R: Abort + Wait>(rt: &R, alloc: Global, lanes: u32) -> Seats {
    let mut catalogue = Page::new(rt, alloc);
    catalogue.push("format = 2\n[[meter]]\nname = 'm'\n");
    push_instruments(&mut catalogue);
    push_recorders(&mut catalogue);
    seats_in_lanes(rt, alloc, catalogue.text(), CONFIG, 7, (1, lanes))
}

// Makes a list of 20 recordings on a counter and two alone, of its number each, and asks for two more.
fn use_one<R: Abort + Wait>(
    rt: &R,
    provider: &MeterProvider,
    seat: &mut Recorder,
    instrument: u32,
) {
    let value = i64::from(instrument);
    let one = Measurement { set: [0; 8], value };
    seat.record_sets(rt, provider, instrument, &[one; 20])
        .or_fail(rt);
    seat.record_set(rt, provider, instrument, one.set, value)
        .or_fail(rt);
    seat.record(rt, provider, instrument, &[], value)
        .or_fail(rt);
    seat.ask(rt, provider, instrument, 2).or_fail(rt);
    assert_equal(rt, seat.room(rt, provider, instrument), Ok(5));
}

// The same by each recorder.
fn use_by_each<R: Abort + Wait>(rt: &R, seats: &mut Seats, instrument: u32) {
    for seat in &mut seats.recorders {
        use_one(rt, &seats.provider, seat, instrument);
    }
}

// A counter that is closed takes nothing of anybody.
fn is_closed_to_each<R: Abort + Wait>(rt: &R, seats: &mut Seats, instrument: u32) {
    for seat in &mut seats.recorders {
        let answer = seat.record(rt, &seats.provider, instrument, &[], 0);
        assert_equal(rt, answer, Err(Refusal::Closed));
    }
}

// Each counter is used by all, and closed before the next one.
fn use_all<R: Abort + Wait>(rt: &R, seats: &mut Seats) {
    for instrument in 0..MANY {
        use_by_each(rt, seats, instrument);
        assert_equal(rt, seats.provider.spare_left(rt, instrument), Ok(1));
        seats.provider.close(rt, instrument).or_fail(rt);
        is_closed_to_each(rt, seats, instrument);
    }
}

// Writes the batch of each counter as it is to be: 22 recordings of each recorder.
fn push_batches<R: Abort>(page: &mut Page<'_, R>) {
    for number in 0..MANY {
        let number = u64::from(number);
        page.numbers(&[("0 ", number), (", 0 to 440, 7 to 20: stream ", number)]);
        page.numbers(&[(" [0 0] ", number.saturating_mul(440))]);
        page.push("\n");
    }
}

// Writes what each counter comes to as it is to be.
fn push_totals<R: Abort>(page: &mut Page<'_, R>) {
    for number in 0..MANY {
        let sum = u64::from(number).saturating_mul(440);
        page.numbers(&[("Total { count: 440, sum: ", sum)]);
        page.push(" }\n");
    }
}

// Writes the batch of each counter.
fn tell_batches<R: Abort + Wait>(page: &mut Page<'_, R>, seats: &mut Seats) {
    let (rt, alloc) = (page.rt, page.alloc);
    let reader = seats.collectors.first_mut().expect(rt, "no reader");
    for instrument in 0..MANY {
        page.collected(reader.collect(rt, alloc, &seats.provider, instrument, 20));
    }
}

// Ends a provider, and writes what each counter comes to.
fn tell_totals<R: Abort + Wait>(page: &mut Page<'_, R>, seats: Seats) {
    let (provider, recorders, _readers) = seats.into_parts();
    match provider.finish(page.rt, page.alloc, recorders) {
        Ok(totals) => tell_each(page, totals.instruments.as_slice()),
        Err(_) => panic!(page.rt; "not finished"),
    }
}

fn tell_each<R: Abort>(page: &mut Page<'_, R>, totals: &[Total]) {
    for total in totals {
        page.tell(*total);
    }
}

#[test]
fn the_last_of_many_is_as_the_first(rt: HostRuntime) {
    for lanes in [1, MANY] {
        let mut seats = many_seats(&rt, rt.alloc(), lanes);
        use_all(&rt, &mut seats);
        let mut told = Page::new(&rt, rt.alloc());
        tell_batches(&mut told, &mut seats);
        tell_totals(&mut told, seats);
        let mut wanted = Page::new(&rt, rt.alloc());
        push_batches(&mut wanted);
        push_totals(&mut wanted);
        told.assert(wanted.text());
    }
}
