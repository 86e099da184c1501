//! Tests of a seat with its provider: recordings, work that is counted and timed, and the room that is left.
use crate::asserted::OrFail;
use crate::page::Page;
use crate::services::{Service, counted};
use metric_handles::{
    AnySeat, BoundUpDownCounter, Counted, Counter, Histogram, Timer, TimerFault, counter,
    histogram, up_down_counter,
};
use metric_sdk::{
    Attr, MeterProvider, Plan, Recorder, Refusal, Replaced, SetsFault, ValueRef, certified_plan,
};
use std::alloc::Global;
use std::process::Abort;
use std::sync::Wait;
use std::thread::sleep;
use std::time::{Clock, Duration};

const SHOP: &str = "format = 2
[[meter]]
name = 'shop'
[[meter.instrument]]
name = 'orders'
kind = 'counter'
range = [1, 100]
spare = 10
key = [{ name = 'country', values = ['de', 'fr'] }]
[[meter.instrument]]
name = 'active'
kind = 'up_down_counter'
range = [-1, 1]
spare = 1
[[meter.instrument]]
name = 'rising'
kind = 'up_down_counter'
range = [0, 1]
[[meter.instrument]]
name = 'took'
kind = 'histogram'
unit = 'ms'
range = [0, 60000]
[[meter.instrument]]
name = 'size'
kind = 'histogram'
unit = 'By'
range = [0, 9]
[[recorder]]
name = 'till'
budget = [
    { instrument = 0, amount = 3 },
    { instrument = 1, amount = 5 },
    { instrument = 2, amount = 5 },
    { instrument = 3, amount = 2 },
]
[[recorder]]
name = 'web'
budget = [{ instrument = 1, amount = 3 }]
";

const READERS: &str = "format = 1
[[reader]]
name = 'console'
";

// The same instruments under another name: nothing of its plan is of the shop's.
const OTHER: &str = "format = 2
[[meter]]
name = 'other'
[[meter.instrument]]
name = 'active'
kind = 'up_down_counter'
range = [-1, 1]
[[meter.instrument]]
name = 'took'
kind = 'histogram'
unit = 's'
range = [0, 9]
[[recorder]]
name = 'till'
";

fn shop<R: Abort + Wait>(rt: &R, alloc: Global) -> Service {
    Service::new(rt, alloc, SHOP, READERS, 1)
}

fn orders_of<R: Abort>(rt: &R, plan: &Plan) -> Counter {
    counter(plan, "shop", "orders", &["country"]).or_fail(rt)
}

// A plan of which nothing is of the shop's.
fn strange<R: Abort>(rt: &R, alloc: Global) -> Plan {
    certified_plan(alloc, OTHER, READERS).or_fail(rt)
}

// The histogram of how long work took: of the shop, or, by any other name, of that plan.
fn took_of<R: Abort>(page: &Page<'_, R>, plan: &Plan, name: &str) -> Histogram {
    let found = match name {
        "took" => histogram(plan, "shop", "took", &[]),
        _ => histogram(&strange(page.rt, page.alloc), "other", "took", &[]),
    };
    found.or_fail(page.rt)
}

// An up-down counter with its attributes bound.
fn bound_of<R: Abort>(rt: &R, plan: &Plan, meter: &str, name: &str) -> BoundUpDownCounter {
    let active = up_down_counter(plan, meter, name, &[]).or_fail(rt);
    active.bind(plan, &[]).or_fail(rt)
}

// What a seat does, and what is told of it.
enum Step {
    // The answer, where it adds to orders of a country, or is granted so many on an instrument.
    Add(&'static str, i64),
    Grant(u32, u64),
    // What is left to it on an instrument, and of the spare.
    Left(u32),
    // What is left on an instrument to a recorder of another provider, as both tell it.
    Foreign(u32),
    // The answers to work that is counted twice on an up-down counter, one within the other.
    Twice(&'static str),
    // How many recordings it made on an instrument with this least value, and what they come to.
    Made(u32, i64),
    // The answer to an amount of orders or of a duration that is clamped to its instrument's range; and what was
    // replaced so far.
    Clamp(&'static str, i64),
    Replaced,
    // Whether there is room for all of a job.
    Room(&'static [(&'static str, u64)]),
}

// A recorder, what it does, and what is told.
type Case = (&'static str, &'static [Step], &'static str);

const CASES: &[Case] = &[
    // What is left counts grants.
    (
        "till",
        &[
            Step::Left(0),
            Step::Add("de", 5),
            Step::Left(0),
            Step::Add("uk", 5),
            Step::Left(0),
            Step::Grant(0, 4),
            Step::Left(0),
            Step::Add("fr", 1),
            Step::Left(0),
            Step::Add("fr", 1),
            Step::Left(0),
            Step::Add("fr", 1),
            Step::Left(0),
            Step::Grant(0, 7),
            Step::Left(0),
            Step::Grant(0, 6),
            Step::Left(0),
            Step::Left(9),
            Step::Foreign(1),
        ],
        "[Ok(3), Ok(10)]
done
[Ok(2), Ok(10)]
5 UnknownValue
[Ok(2), Ok(10)]
done
[Ok(6), Ok(6)]
done
[Ok(5), Ok(6)]
done
[Ok(4), Ok(6)]
done
[Ok(3), Ok(6)]
14 NoSpare
[Ok(3), Ok(6)]
done
[Ok(9), Ok(0)]
[Err(UnknownInstrument), Err(UnknownInstrument)]
[Ok(3), Ok(3)]
",
    ),
    // A count comes back.
    (
        "till",
        &[Step::Grant(1, 0), Step::Twice("active"), Step::Made(1, -1)],
        "done
[Ok(()), Ok(())]
(4, 0)
",
    ),
    // The budget is 3, and the inner work takes the last of it.
    (
        "web",
        &[Step::Grant(1, 0), Step::Twice("active"), Step::Made(1, -1)],
        "done
[Err(Budget), Ok(())]
(3, 1)
",
    ),
    (
        "web",
        &[Step::Grant(1, 1), Step::Twice("active"), Step::Made(1, -1)],
        "done
[Ok(()), Ok(())]
(4, 0)
",
    ),
    (
        "till",
        &[Step::Grant(2, 0), Step::Twice("rising"), Step::Made(2, 0)],
        "done
[Err(ValueRange), Err(ValueRange)]
(0, 0)
",
    ),
    // An amount is clamped to the range of its own instrument. The fourth of orders is beyond the budget, and the last
    // instrument is of another plan.
    (
        "till",
        &[
            Step::Clamp("orders", 0),
            Step::Clamp("orders", 101),
            Step::Clamp("orders", 100),
            Step::Clamp("orders", 101),
            Step::Clamp("took", 60001),
            Step::Clamp("took", 0),
            Step::Clamp("strange", 60001),
            Step::Replaced,
            Step::Made(0, 1),
            Step::Made(3, 0),
        ],
        "Ok(())
Ok(())
Ok(())
Err(Budget)
Ok(())
Ok(())
Err(Stranger)
Replaced { values: 0, amounts: 3 }
(3, 201)
(2, 60000)
",
    ),
    // There is room for all of a job or none; of two needs of one instrument the sum is asked for.
    (
        "till",
        &[
            Step::Room(&[]),
            Step::Room(&[("orders", 1), ("took", 1)]),
            Step::Room(&[("orders", 3), ("took", 2)]),
            Step::Room(&[("took", 1), ("orders", 2), ("orders", 2)]),
            Step::Room(&[("orders", 1), ("took", 3)]),
            Step::Room(&[("orders", 1), ("strange", 1), ("took", 3)]),
        ],
        "Ok(())
Ok(())
Ok(())
Err(SetsFault { place: 1, refusal: Budget })
Err(SetsFault { place: 1, refusal: Budget })
Err(SetsFault { place: 1, refusal: Stranger })
",
    ),
];

// What is told of work that is counted twice, one within the other.
fn count_twice<R: Abort + Wait>(
    rt: &R,
    provider: &MeterProvider,
    seat: &mut Recorder,
    name: &str,
) -> [Result<(), Refusal>; 2] {
    let active = bound_of(rt, provider.plan(), "shop", name);
    let mut at = seat.at(rt, provider);
    let (inner, outer) = at.during(&active, |seat| {
        seat.at(rt, provider).during(&active, |_| ()).1
    });
    [outer, inner]
}

// How many recordings a seat was told of on an instrument, and their sum, where its least value is this.
fn made<R: Abort>(rt: &R, seat: &Recorder, instrument: u32, lo: i64) -> (u64, i128) {
    let told = seat.accepted(instrument).expect(rt, "no such instrument");
    let least = i128::from(lo).saturating_mul(i128::from(told.count));
    (told.count, i128::from(told.amount).saturating_add(least))
}

// Whether there is room for a job.
fn room_for<R: Abort + Wait>(
    page: &Page<'_, R>,
    provider: &MeterProvider,
    seat: &mut Recorder,
    job: &[(&str, u64)],
) -> Result<(), SetsFault> {
    let mut needs = Vec::new(page.alloc);
    for (name, amount) in job {
        let need = match *name {
            "orders" => orders_of(page.rt, provider.plan()).need(*amount),
            _ => took_of(page, provider.plan(), name).need(*amount),
        };
        needs.push(need).or_fail(page.rt);
    }
    seat.at(page.rt, provider).has_room(needs.as_slice())
}

// What is left to a recorder of another provider.
fn foreign_room<R: Abort + Wait>(
    page: &Page<'_, R>,
    provider: &MeterProvider,
    instrument: u32,
) -> [Result<u64, Refusal>; 2] {
    let mut other = shop(page.rt, page.alloc);
    let stranger = other.take(page.rt, "web");
    let told = stranger.room(page.rt, provider, instrument);
    let own = stranger.room(page.rt, &other.provider, instrument);
    drop(stranger);
    [told, own]
}

// The answer to an amount that is clamped.
fn clamp<R: Abort + Wait>(
    page: &Page<'_, R>,
    provider: &MeterProvider,
    seat: &mut Recorder,
    replaced: &mut Replaced,
    name: &str,
    amount: i64,
) -> Result<(), Refusal> {
    let mut at = seat.at(page.rt, provider);
    match name {
        "orders" => {
            let orders = orders_of(page.rt, provider.plan());
            at.add_clamped(&orders, replaced, &[Attr::text("country", "de")], amount)
        }
        _ => {
            let took = took_of(page, provider.plan(), name);
            at.record_clamped(&took, replaced, &[], amount)
        }
    }
}

fn tell_step<R: Abort + Wait>(
    page: &mut Page<'_, R>,
    provider: &MeterProvider,
    seat: &mut Recorder,
    replaced: &mut Replaced,
    step: &Step,
) {
    let rt = page.rt;
    match step {
        Step::Add(country, value) => {
            let attrs = [Attr::text("country", country)];
            let orders = orders_of(rt, provider.plan());
            page.answer(seat.at(rt, provider).add(&orders, &attrs, *value))
        }
        Step::Grant(number, amount) => page.answer(seat.ask(rt, provider, *number, *amount)),
        Step::Left(instrument) => {
            let room = seat.room(rt, provider, *instrument);
            page.tell([room, provider.spare_left(rt, *instrument)])
        }
        Step::Foreign(instrument) => {
            let told = foreign_room(page, provider, *instrument);
            page.tell(told)
        }
        Step::Twice(name) => page.tell(count_twice(rt, provider, seat, name)),
        Step::Made(instrument, least) => page.tell(made(rt, seat, *instrument, *least)),
        Step::Clamp(name, amount) => {
            let answer = clamp(page, provider, seat, replaced, name, *amount);
            page.tell(answer)
        }
        Step::Replaced => page.tell(*replaced),
        Step::Room(job) => {
            let answer = room_for(page, provider, seat, job);
            page.tell(answer)
        }
    }
}

fn tell_case<R: Abort + Wait>(page: &mut Page<'_, R>, (recorder, steps, _): &Case) {
    let mut service = shop(page.rt, page.alloc);
    let mut seat = service.take(page.rt, recorder);
    let mut replaced = Replaced::none();
    for step in *steps {
        tell_step(page, &service.provider, &mut seat, &mut replaced, step);
    }
    drop(seat)
}

#[test]
fn a_seat_is_answered_step_by_step(rt: HostRuntime) {
    for case in CASES {
        let mut page = Page::new(&rt, rt.alloc());
        tell_case(&mut page, case);
        page.assert(case.2);
    }
}

// Counts work that fails: it adds to orders of a country that is not declared.
fn tell_failing<R: Abort + Wait>(
    page: &mut Page<'_, R>,
    provider: &MeterProvider,
    seat: &mut Counted,
) {
    let rt = page.rt;
    let orders = orders_of(rt, provider.plan());
    let bound = bound_of(rt, provider.plan(), "shop", "active");
    let mut at = seat.at(rt, provider);
    page.tell(at.during(&bound, |seat| {
        let mut at = seat.at(rt, provider);
        at.add(&orders, &[Attr::text("country", "uk")], 1)?;
        at.add(&orders, &[Attr::text("country", "de")], 1)
    }))
}

// Adds to orders a country and an amount that are not declared, each replaced by one that is.
fn tell_replaced<R: Abort + Wait>(
    page: &mut Page<'_, R>,
    provider: &MeterProvider,
    seat: &mut Counted,
) {
    let orders = orders_of(page.rt, provider.plan());
    let mut replaced = Replaced::none();
    let mut at = seat.at(page.rt, provider);
    let uk = Attr::text("country", "uk");
    let known = at.known_or(&orders, &mut replaced, uk, ValueRef::Text("fr"));
    let known = known.or_fail(page.rt);
    page.tell(at.add_clamped(&orders, &mut replaced, &[known], 101));
    page.tell(replaced)
}

// What is told of work that fails, of a recording with replaced values and how many values were, and of work that is
// counted on an instrument of another plan: it is done, and not counted. Of orders one was refused; active was counted
// up and down, once.
const FAILING: &str = "(Err(UnknownValue), Ok(()))
Ok(())
Replaced { values: 1, amounts: 1 }
(7, Err(Stranger))
(1, (2, 0))
";

#[test]
fn a_count_comes_back_where_work_fails(rt: HostRuntime) {
    let mut page = Page::new(&rt, rt.alloc());
    let mut service = shop(&rt, rt.alloc());
    let seat = service.take(&rt, "till");
    let provider = &service.provider;
    let mut seat = counted(&rt, rt.alloc(), provider.plan(), seat);
    tell_failing(&mut page, provider, &mut seat);
    tell_replaced(&mut page, provider, &mut seat);
    let stranger = bound_of(&rt, &strange(&rt, rt.alloc()), "other", "active");
    page.tell(seat.at(&rt, provider).during(&stranger, |_| 7));
    let refused = seat.refused(0, Refusal::UnknownValue);
    page.tell((refused, made(&rt, seat.seat(), 1, -1)));
    drop(seat);
    page.assert(FAILING);
}

// The timer of a histogram of a plan.
fn timer_of<R: Abort>(
    rt: &R,
    plan: &Plan,
    own: &Plan,
    meter: &str,
    name: &str,
) -> Result<Timer, TimerFault> {
    let took = histogram(plan, meter, name, &[]).or_fail(rt);
    took.bind(plan, &[]).or_fail(rt).timer(own)
}

// Whether a histogram is of the other plan, and whether its timer is, with its meter and its name.
const TIMERS: &[(bool, bool, &str, &str)] = &[
    (false, false, "shop", "took"),
    (true, true, "other", "took"),
    (false, false, "shop", "size"),
    (true, false, "other", "took"),
];

// Their units.
const UNITS: &str = "Milliseconds
Seconds
OtherUnit
OtherPlan
";

#[test]
fn a_timer_has_the_unit_of_its_instrument(rt: HostRuntime) {
    let mut page = Page::new(&rt, rt.alloc());
    let plan = certified_plan(rt.alloc(), SHOP, READERS).or_fail(&rt);
    let other = strange(&rt, rt.alloc());
    for (is_other, is_others, meter, name) in TIMERS {
        let of = if *is_other { &other } else { &plan };
        let own = if *is_others { &other } else { &plan };
        match timer_of(&rt, of, own, meter, name) {
            Ok(timer) => page.tell(timer.unit()),
            Err(fault) => page.tell(fault),
        }
    }
    page.assert(UNITS);
}

// What work gives that sleeps so many milliseconds, and what is told of it; how many durations were recorded then, and
// whether they come to no less than the first work's milliseconds, and to less than a minute's.
const SLEEPS: &[(u64, &str)] = &[
    (5, "(7, Ok(()))\n(1, true, true)\n"),
    (0, "(7, Ok(()))\n(2, true, true)\n"),
    (0, "(7, Err(Refused(Budget)))\n(2, true, true)\n"),
];

fn tell_timed<R: Abort + Clock + Wait>(
    page: &mut Page<'_, R>,
    provider: &MeterProvider,
    seat: &mut Recorder,
    timer: &Timer,
    sleeps: u64,
) {
    let rt = page.rt;
    let mut at = seat.at(rt, provider);
    page.tell(at.timed(timer, |_| {
        sleep(rt, Duration::from_millis(sleeps));
        7
    }));
    let (count, sum) = made(rt, at.seat(), timer.took().number(), 0);
    page.tell((count, sum >= 5, sum < 60_000))
}

#[test]
fn a_duration_is_no_shorter_than_its_work(rt: HostRuntime) {
    let mut service = shop(&rt, rt.alloc());
    let mut seat = service.take(&rt, "till");
    let plan = service.provider.plan();
    let timer = timer_of(&rt, plan, plan, "shop", "took").or_fail(&rt);
    for (sleeps, wanted) in SLEEPS {
        let mut page = Page::new(&rt, rt.alloc());
        tell_timed(&mut page, &service.provider, &mut seat, &timer, *sleeps);
        page.assert(wanted);
    }
    drop(seat)
}
