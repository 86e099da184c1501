//! Tests of instruments and seats by name.
use crate::asserted::OrFail;
use crate::page::Page;
use crate::services::{Service, counted};
use metric_handles::{
    BoundCounter, BoundList, Counted, Counter, Handle, IsCounter, NoHandle, Replaced, Seat,
    compared_keys_are_bound, compared_keys_are_recorded, counter, expected, gauge, histogram, left,
    take_reader, take_recorder, up_down_counter, value_of,
};
use metric_sdk::{
    Attr, Batch, Expected, Kind, Marked, MeterProvider, Plan, Recorder, Refusal, SetsFault,
    ValueRef, certified_plan,
};
use std::alloc::Global;
use std::process::Abort;
use std::sync::Wait;

// Two versions of a meter, of which each has something that waits.
const SHOP: &str = "format = 2
[[meter]]
name = 'shop'
[[meter.instrument]]
name = 'orders'
kind = 'counter'
range = [1, 100]
key = [{ name = 'country', values = ['de', 'fr'] }, { name = 'paid', values = [true, false], optional = true }]
[[meter.instrument]]
name = 'waiting'
kind = 'up_down_counter'
range = [-5, 5]
[[meter]]
name = 'shop'
version = '2'
[[meter.instrument]]
name = 'Waiting'
kind = 'up_down_counter'
range = [-5, 5]
[[meter.instrument]]
name = 'latency'
kind = 'histogram'
range = [0, 100]
[[meter.instrument]]
name = 'stock'
kind = 'gauge'
range = [0, 9]
[[meter]]
name = 'door'
[[meter.instrument]]
name = 'inside'
kind = 'up_down_counter'
range = [-1, 1]
[[recorder]]
name = 'till'
budget = [{ instrument = 0, amount = 6 }, { instrument = 3, amount = 2 }, { instrument = 4, amount = 2 }]
[[recorder]]
name = 'web'
budget = [{ instrument = 0, amount = 2 }, { instrument = 5, amount = 2 }]
[[recorder]]
name = 'Web'
";

const READERS: &str = "format = 1
[[reader]]
name = 'push'
[[reader]]
name = 'pull'
";

// What a program asks for, a kind, a meter, a name and keys, and what it is told.
type Asked = (
    Kind,
    &'static str,
    &'static str,
    &'static [&'static str],
    &'static str,
);

const ASKED: &[Asked] = &[
    (Kind::Counter, "shop", "orders", &["country"], "0\n"),
    (Kind::Counter, "shop", "ORDERS", &["paid", "country"], "0\n"),
    (Kind::Histogram, "shop", "latency", &[], "3\n"),
    (Kind::Gauge, "shop", "stock", &[], "4\n"),
    (Kind::UpDownCounter, "door", "inside", &[], "5\n"),
    (
        Kind::Counter,
        "Shop",
        "orders",
        &["country"],
        "Shop/orders: the catalogue has no meter of this name\n",
    ),
    (
        Kind::UpDownCounter,
        "shop",
        "inside",
        &[],
        "shop/inside: the meter has no instrument of this name\n",
    ),
    (
        Kind::UpDownCounter,
        "shop",
        "waiting",
        &[],
        "shop/waiting: instrument 1 is not the only one of this name in meters of this name\n",
    ),
    (
        Kind::Gauge,
        "shop",
        "orders",
        &["country"],
        "shop/orders: the instrument is declared as Counter\n",
    ),
    (
        Kind::Counter,
        "shop",
        "orders",
        &["region", "country", "country"],
        "shop/orders: key 1 of the list stands again after it: country\n",
    ),
    (
        Kind::Counter,
        "shop",
        "orders",
        &["paid", "Country"],
        "shop/orders: key 1 of the list is not declared: Country\n",
    ),
    (
        Kind::Counter,
        "shop",
        "orders",
        &["paid"],
        "shop/orders: declared key 0 is not in the list, and may not be left out: country\n",
    ),
];

// Writes the number of a handle, or why there is none.
fn tell_found<R: Abort, K: Drop>(page: &mut Page<'_, R>, found: Result<Handle<K>, NoHandle>) {
    match found {
        Ok(handle) => page.say(handle.number()),
        Err(fault) => page.say(fault),
    }
}

fn tell_asked<R: Abort>(page: &mut Page<'_, R>, plan: &Plan, (kind, meter, name, keys, _): &Asked) {
    match kind {
        Kind::Counter => tell_found(page, counter(plan, meter, name, keys)),
        Kind::UpDownCounter => tell_found(page, up_down_counter(plan, meter, name, keys)),
        Kind::Histogram => tell_found(page, histogram(plan, meter, name, keys)),
        Kind::Gauge => tell_found(page, gauge(plan, meter, name, keys)),
    }
}

#[test]
fn an_instrument_is_found_by_name_kind_and_keys(rt: HostRuntime) {
    let plan = certified_plan(rt.alloc(), SHOP, READERS).or_fail(&rt);
    for asked in ASKED {
        let mut page = Page::new(&rt, rt.alloc());
        tell_asked(&mut page, &plan, asked);
        page.assert(asked.4);
    }
}

const DE: Attr<'static> = Attr {
    key: "country",
    value: ValueRef::Text("de"),
};

const FR: Attr<'static> = Attr {
    key: "country",
    value: ValueRef::Text("fr"),
};

// Values that programs were made for.
const EXPECTED: [&[Attr<'static>]; 3] = [&[DE, FR], &[DE], &[FR, DE]];

const MEANT: &str = "0
0
shop/orders: the instrument means something else: key \"country\" has no value \"fr\" at place 1
";

#[test]
fn an_instrument_is_found_that_means_what_a_program_was_made_for(rt: HostRuntime) {
    let plan = certified_plan(rt.alloc(), SHOP, READERS).or_fail(&rt);
    let mut page = Page::new(&rt, rt.alloc());
    for keys in EXPECTED {
        let own = Expected {
            meter: "shop",
            name: "orders",
            kind: Kind::Counter,
            unit: "",
            keys,
            optional: 0,
        };
        tell_found::<HostRuntime, IsCounter>(&mut page, expected(&plan, &own));
    }
    page.assert(MEANT);
}

fn shop<R: Abort + Wait>(rt: &R, alloc: Global) -> Service {
    Service::new(rt, alloc, SHOP, READERS, 1)
}

// Writes what is taken of the recorders, one name after the other, and which seats are left.
fn tell_recorders<R: Abort>(page: &mut Page<'_, R>, service: &mut Service) {
    for name in ["Web", "push", "till", "till"] {
        let taken = take_recorder(service.provider.plan(), &mut service.recorders, name);
        page.tell((name, taken.map(|seat| seat.number())));
        for seat in &service.recorders {
            page.tell(seat.number());
        }
    }
}

// The same of the readers.
fn tell_readers<R: Abort>(page: &mut Page<'_, R>, service: &mut Service) {
    for name in ["web", "push", "pull"] {
        let taken = take_reader(service.provider.plan(), &mut service.readers, name);
        page.tell((name, taken.map(|seat| seat.number())));
        for seat in &service.readers {
            page.tell(seat.number());
        }
    }
}

const TAKEN: &str = "(\"Web\", Some(2))
0
1
(\"push\", None)
0
1
(\"till\", Some(0))
1
(\"till\", None)
1
(\"web\", None)
0
1
(\"push\", Some(0))
1
(\"pull\", Some(1))
";

#[test]
fn seats_are_taken_by_name(rt: HostRuntime) {
    let mut page = Page::new(&rt, rt.alloc());
    let mut service = shop(&rt, rt.alloc());
    tell_recorders(&mut page, &mut service);
    tell_readers(&mut page, &mut service);
    page.assert(TAKEN);
}

// What is asked of a counter without a seat.
enum Ask {
    // To bind a country, besides another key.
    Bind(&'static str),
    // To replace a value of a key, or an amount, where it is not declared.
    Known(&'static str, &'static str),
}

const ASKS: &[Ask] = &[
    Ask::Bind("de"),
    Ask::Bind("it"),
    Ask::Known("country", "de"),
    Ask::Known("country", "it"),
    Ask::Known("country", "fr"),
    Ask::Known("contry", "it"),
];

// Keys that were compared are not refused. A key that the instrument does not declare is no value to replace; what is
// replaced is counted.
const ANSWERS: &str = "None
Some(UnknownValue)
country=de
country=fr
country=fr
4 UnknownKey
Replaced { values: 1, amounts: 0 }
";

fn tell_ask<R: Abort>(
    page: &mut Page<'_, R>,
    plan: &Plan,
    orders: &Counter,
    replaced: &mut Replaced,
    ask: &Ask,
) {
    match ask {
        Ask::Bind(name) => {
            let paid = Attr {
                key: "paid",
                value: ValueRef::Flag(true),
            };
            page.tell(orders.bind(plan, &[paid, country(name)]).err())
        }
        Ask::Known(key, name) => {
            let attr = Attr::text(key, name);
            match orders.known_or(plan, replaced, attr, ValueRef::Text("fr")) {
                Ok(attr) => {
                    page.push(attr.key);
                    page.push("=");
                    page.say(attr.value)
                }
                Err(refusal) => page.say(refusal),
            }
        }
    }
}

#[test]
fn what_was_compared_is_bound_and_what_is_not_declared_is_replaced(rt: HostRuntime) {
    compared_keys_are_bound();
    compared_keys_are_recorded::<Marked>();
    let mut page = Page::new(&rt, rt.alloc());
    let plan = certified_plan(rt.alloc(), SHOP, READERS).or_fail(&rt);
    let orders = counter(&plan, "shop", "Orders", &["country", "paid"]).or_fail(&rt);
    let mut replaced = Replaced::none();
    for ask in ASKS {
        tell_ask(&mut page, &plan, &orders, &mut replaced, ask);
    }
    page.tell(replaced);
    page.assert(ANSWERS);
}

fn country(name: &str) -> Attr<'_> {
    Attr::text("country", name)
}

// Orders with attributes at the call, with bound ones, and as lists.
fn sell<R: Abort + Wait, S: Seat>(page: &mut Page<'_, R>, provider: &MeterProvider, seat: &mut S) {
    let (rt, plan) = (page.rt, provider.plan());
    let orders = counter(plan, "shop", "orders", &["country"]).or_fail(rt);
    page.tell(orders.add(rt, provider, seat, &[country("de")], 2));
    page.tell(orders.add(rt, provider, seat, &[country("it")], 2));
    let french = orders.bind(plan, &[country("fr")]).or_fail(rt);
    page.tell(french.add(rt, provider, seat, 3));
    page.tell(french.add(rt, provider, seat, 0));
    sell_all(page, provider, seat, &orders, &french)
}

// A list that is made twice, and one that meets the end of the budget, and meets it again with what is left of it.
fn sell_all<R: Abort + Wait, S: Seat>(
    page: &mut Page<'_, R>,
    provider: &MeterProvider,
    seat: &mut S,
    orders: &Counter,
    french: &BoundCounter,
) {
    let mut list: BoundList<_> = orders.list(page.alloc);
    list.push(french, 4).or_fail(page.rt);
    let kept = list.add_and_keep(page.rt, provider, seat);
    page.tell((kept, list.len()));
    for values in [0..0, 6..10, 0..0] {
        for value in values {
            list.push(french, value).or_fail(page.rt);
        }
        let answer = list.add(page.rt, provider, seat);
        page.tell((answer, list.len()));
    }
}

// What is answered to these calls by a seat of any kind, and of lists how long they are then.
const ANSWERED: &str = "Ok(())
Err(UnknownValue)
Ok(())
Err(ValueRange)
(Ok(()), 1)
(Ok(()), 0)
(Err(SetsFault { place: 2, refusal: Budget }), 2)
(Err(SetsFault { place: 0, refusal: Budget }), 2)
";

// Instruments and refusals, of which a seat that counts is asked how often they came.
const REFUSALS: &[(u32, Refusal)] = &[
    (0, Refusal::UnknownValue),
    (0, Refusal::ValueRange),
    (0, Refusal::Budget),
    (0, Refusal::Combination),
    (3, Refusal::Budget),
    (1, Refusal::ValueRange),
    (9, Refusal::UnknownInstrument),
    (77, Refusal::UnknownInstrument),
    (5, Refusal::UnknownInstrument),
];

// Writes how often a seat was refused each of these.
fn tell_refused<R: Abort, S>(page: &mut Page<'_, R>, seat: &Counted<S>) {
    for (instrument, refusal) in REFUSALS {
        page.tell(seat.refused(*instrument, *refusal));
    }
}

// By calls of handles: each recording once, each list once with its first refusal.
const SELLING: &str = "1
1
2
0
0
0
0
0
0
";

// Then how many recordings were not tried of two instruments, the refusals one by one, and what was made.
const LISTED: &str = "(2, 0)
Refused { instrument: 0, refusal: UnknownValue, count: 1 }
Refused { instrument: 0, refusal: ValueRange, count: 1 }
Refused { instrument: 0, refusal: Budget, count: 2 }
Some(Told { count: 6, amount: 20 })
";

// An instrument, a country, and a value: one that is accepted, and three refusals.
const RECORDED: &[(u32, &str, i64)] = &[
    (0, "de", 2),
    (0, "it", 2),
    (0, "de", 0),
    (0, "fr", 101),
    (9, "de", 2),
];

// How often each refusal came then, where all unknown instruments are one, and what was made.
const RECORDING: &str = "1
2
0
0
0
0
1
1
0
Some(Told { count: 1, amount: 1 })
";

// The points of the batch of orders, each with its instrument; what is found by name and attributes; and what is left
// of the budget.
const SOLD: &str = "(0, Sum(2))
(0, Sum(24))
Some(Sum(2))
Some(Sum(24))
None
None
Some(0)
";

// By which seat orders are sold, and what is told.
enum By {
    Recorder,
    // A seat that counts, one that is counted on, and one that counts recordings without handles.
    Counted,
    Twice,
    Recordings,
}

const SALES: &[(By, &[&str])] = &[
    (By::Recorder, &[ANSWERED, SOLD]),
    (By::Counted, &[ANSWERED, SELLING, LISTED]),
    (By::Twice, &[ANSWERED, SELLING, SELLING]),
    (By::Recordings, &[RECORDING]),
];

fn tell_recorder<R: Abort + Wait>(page: &mut Page<'_, R>, service: &mut Service, seat: Recorder) {
    let mut seat = seat;
    sell(page, &service.provider, &mut seat);
    let taken = take_reader(service.provider.plan(), &mut service.readers, "pull");
    let mut reader = taken.expect(page.rt, "no pull");
    let batch = reader.collect(page.rt, page.alloc, &service.provider, 0, 10);
    tell_found_points(page, service.provider.plan(), batch.or_fail(page.rt));
    page.tell(left(&seat, service.provider.plan(), 0));
    drop(seat)
}

// Writes each point of a batch, and what is found by name and attributes.
fn tell_found_points<R: Abort>(page: &mut Page<'_, R>, plan: &Plan, batch: Batch) {
    for stream in batch.streams.as_slice() {
        for point in stream.points.as_slice() {
            page.tell((batch.instrument, &point.value));
        }
    }
    let batches = [batch];
    for name in ["de", "fr", "it"] {
        page.tell(value_of(plan, &batches, "Orders", &[country(name)]));
    }
    page.tell(value_of(plan, &batches, "orders", &[]))
}

fn tell_counted<R: Abort + Wait>(page: &mut Page<'_, R>, provider: &MeterProvider, seat: Counted) {
    let mut seat = seat;
    sell(page, provider, &mut seat);
    tell_refused(page, &seat);
    page.tell((seat.untried(0), seat.untried(1)));
    for refused in seat.refusals(page.alloc).or_fail(page.rt).as_slice() {
        page.tell(refused);
    }
    page.tell(seat.into_seat().accepted(0))
}

fn tell_twice<R: Abort + Wait>(page: &mut Page<'_, R>, provider: &MeterProvider, seat: Counted) {
    let mut seat = counted(page.rt, page.alloc, provider.plan(), seat);
    sell(page, provider, &mut seat);
    tell_refused(page, &seat);
    tell_refused(page, seat.seat());
    drop(seat)
}

fn tell_recordings<R: Abort + Wait>(
    page: &mut Page<'_, R>,
    provider: &MeterProvider,
    seat: Counted,
) {
    let mut seat = seat;
    for (instrument, name, value) in RECORDED {
        let _ = seat.record(page.rt, provider, *instrument, &[country(name)], *value);
    }
    tell_refused(page, &seat);
    page.tell(seat.seat().accepted(0));
    drop(seat)
}

fn tell_sale<R: Abort + Wait>(page: &mut Page<'_, R>, by: &By) {
    let mut service = shop(page.rt, page.alloc);
    let seat = service.take(page.rt, "till");
    if matches!(by, By::Recorder) {
        return tell_recorder(page, &mut service, seat);
    }
    let provider = &service.provider;
    let seat = counted(page.rt, page.alloc, provider.plan(), seat);
    match by {
        By::Twice => tell_twice(page, provider, seat),
        By::Recordings => tell_recordings(page, provider, seat),
        _ => tell_counted(page, provider, seat),
    }
}

#[test]
fn handles_record_with_each_seat(rt: HostRuntime) {
    for (by, wanted) in SALES {
        let mut page = Page::new(&rt, rt.alloc());
        tell_sale(&mut page, by);
        page.assert(wanted.concat(rt.alloc()).or_fail(&rt).as_str());
    }
}
