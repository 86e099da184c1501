//! Tests of a seat that asks for more before its budget ends.
use crate::asserted::OrFail;
use crate::page::Page;
use crate::services::{Service, counted};
use metric_handles::{AnySeat, Asking, Counted, Counter, Recorded, counter, up_down_counter};
use metric_sdk::{MeterProvider, Plan, Refusal};
use std::alloc::Global;
use std::process::Abort;
use std::sync::Wait;

const SHOP: &str = "format = 2
[[meter]]
name = 'shop'
[[meter.instrument]]
name = 'orders'
kind = 'counter'
range = [1, 100]
spare = 10
[[meter.instrument]]
name = 'active'
kind = 'up_down_counter'
range = [-1, 1]
spare = 5
[[recorder]]
name = 'till'
budget = [{ instrument = 0, amount = 3 }]
";

const READERS: &str = "format = 1
[[reader]]
name = 'console'
";

// A seat that asks, and counts what it is refused.
type Till = Counted<Asking>;

// What a seat does: it adds so many orders one by one, or in one list; or it counts work, up and down. Or the instrument
// is closed.
enum Step {
    Add(u64),
    List(u64),
    Work,
    Close,
}

// How many a seat asks for at once, steps, and what each comes to: how many orders were made, refused for the budget
// and not tried, what is left of the spare, and whether the seat wants the next run. Of work that is counted, before
// that what becomes of it, what is then left of its own spare, and how often it was refused for the budget.
type Run = (u64, &'static [Step], &'static str);

const RUNS: &[Run] = &[
    (
        4,
        &[
            Step::Add(3),
            Step::Add(1),
            Step::Add(3),
            Step::List(5),
            Step::Add(1),
            Step::Add(1),
            Step::List(2),
        ],
        "(3, 0, 0, 10, false)
(4, 0, 0, 6, false)
(7, 0, 0, 6, false)
(12, 0, 0, 1, false)
(13, 0, 0, 0, false)
(13, 1, 0, 0, true)
(13, 2, 1, 0, true)
",
    ),
    // Of a list those are made that the spare has room for.
    (
        4,
        &[Step::List(20)],
        "(13, 1, 6, 0, true)
",
    ),
    // One that asks for none at once asks for what it needs.
    (
        0,
        &[Step::Add(5), Step::List(0), Step::List(9)],
        "(5, 0, 0, 8, false)
(5, 0, 0, 8, false)
(13, 1, 0, 0, true)
",
    ),
    // A closed instrument grants nothing, which no next run mends.
    (
        4,
        &[Step::Add(3), Step::Close, Step::Add(2)],
        "(3, 0, 0, 10, false)
(3, 0, 0, 10, false)
(3, 0, 0, 10, false)
",
    ),
    // Without a budget both recordings of work are asked for, as long as the spare has both; then nothing is counted,
    // nothing refused, and the next run is wanted.
    (
        0,
        &[Step::Work, Step::Work, Step::Work],
        "(Ok(()), 3, 0)
(0, 0, 0, 10, false)
(Ok(()), 1, 0)
(0, 0, 0, 10, false)
(Err(Budget), 0, 0)
(0, 0, 0, 10, true)
",
    ),
];

// A provider in the run of a number, with the seat of its recorder.
fn shop<R: Abort + Wait>(rt: &R, alloc: Global, run: u64) -> Service {
    Service::new(rt, alloc, SHOP, READERS, run)
}

fn asking<R: Abort, S: Drop>(rt: &R, alloc: Global, plan: &Plan, seat: S, each: u64) -> Asking<S> {
    match Asking::new(alloc, plan, seat, each) {
        Ok(seat) => seat,
        Err((_, refused)) => Err(refused).or_fail(rt),
    }
}

fn do_step<R: Abort + Wait>(
    page: &mut Page<'_, R>,
    provider: &MeterProvider,
    orders: &Counter,
    seat: &mut Till,
    step: &Step,
) {
    match step {
        Step::Add(count) => {
            for _turn in 0..*count {
                let _ = orders.add(page.rt, provider, seat, &[], 1);
            }
        }
        Step::List(count) => {
            let bound = orders.bind(provider.plan(), &[]).or_fail(page.rt);
            let mut list = orders.list(page.alloc);
            for _turn in 0..*count {
                list.push(&bound, 1).or_fail(page.rt);
            }
            let _ = list.add(page.rt, provider, seat);
        }
        Step::Work => tell_work(page, provider, seat),
        Step::Close => provider.close(page.rt, orders.number()).or_fail(page.rt),
    }
}

// Writes what becomes of work that is counted, what is then left of the spare, and how often it was refused.
fn tell_work<R: Abort + Wait>(page: &mut Page<'_, R>, provider: &MeterProvider, till: &mut Till) {
    let (rt, plan) = (page.rt, provider.plan());
    let active = up_down_counter(plan, "shop", "active", &[]).or_fail(rt);
    let active = active.bind(plan, &[]).or_fail(rt);
    let (_, answer) = till.at(rt, provider).during(&active, |_| ());
    let spare = provider.spare_left(rt, active.number()).or_fail(rt);
    page.tell((
        answer,
        spare,
        till.refused(active.number(), Refusal::Budget),
    ))
}

// Writes what a seat was told of and refused, and what is left.
fn tell_till<R: Abort + Wait>(
    page: &mut Page<'_, R>,
    provider: &MeterProvider,
    number: u32,
    till: &Till,
) {
    let asking = till.seat();
    let made = match asking.seat().accepted(number) {
        Some(told) => told.count,
        None => 0,
    };
    let refused = till.refused(number, Refusal::Budget);
    let spare = provider.spare_left(page.rt, number).or_fail(page.rt);
    page.tell((
        made,
        refused,
        till.untried(number),
        spare,
        asking.wants_next_run(),
    ))
}

fn tell_run<R: Abort + Wait>(page: &mut Page<'_, R>, (each, steps, _): &Run) {
    let mut service = shop(page.rt, page.alloc, 1);
    let seat = service.take(page.rt, "till");
    let provider = &service.provider;
    let plan = provider.plan();
    let seat = asking(page.rt, page.alloc, plan, seat, *each);
    let mut till: Till = counted(page.rt, page.alloc, plan, seat);
    let orders = counter(plan, "shop", "orders", &[]).or_fail(page.rt);
    for step in *steps {
        do_step(page, provider, &orders, &mut till, step);
        tell_till(page, provider, orders.number(), &till);
    }
    drop(till)
}

#[test]
fn a_seat_asks_until_nothing_is_left(rt: HostRuntime) {
    for run in RUNS {
        let mut page = Page::new(&rt, rt.alloc());
        tell_run(&mut page, run);
        page.assert(run.2);
    }
}

// How much room a seat makes on the instrument of a number.
const ROOMS: &[(u32, u64)] = &[(0, 2), (0, 5), (0, 5), (9, 50), (0, 14), (0, 1)];

// What is then left to it and of the spare of orders, and whether it wants the next run. In the end what is left of the
// spare of a provider of another run, of which it makes room.
const MADE: &str = "(3, 10, false)
(7, 6, false)
(7, 6, false)
(7, 6, false)
(13, 0, true)
(13, 0, true)
10
";

#[test]
fn room_is_made_for_a_job(rt: HostRuntime) {
    let mut page = Page::new(&rt, rt.alloc());
    let mut service = shop(&rt, rt.alloc(), 1);
    let seat = service.take(&rt, "till");
    let provider = &service.provider;
    let seat = counted(&rt, rt.alloc(), provider.plan(), seat);
    let mut seat = asking(&rt, rt.alloc(), provider.plan(), seat, 4);
    for (instrument, needed) in ROOMS {
        seat.make_room(&rt, provider, *instrument, *needed);
        let room = seat.recorder().room(&rt, provider, 0).or_fail(&rt);
        let spare = provider.spare_left(&rt, 0).or_fail(&rt);
        page.tell((room, spare, seat.wants_next_run()));
    }
    let other = shop(&rt, rt.alloc(), 2);
    seat.make_room(&rt, &other.provider, 0, 99);
    page.tell(other.provider.spare_left(&rt, 0).or_fail(&rt));
    drop(seat);
    page.assert(MADE);
}
