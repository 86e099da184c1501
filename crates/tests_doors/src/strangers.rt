//! Tests of what is of another plan, or of another run.
use crate::asserted::OrFail;
use crate::page::Page;
use crate::services::{DELTA, GERMAN, ORDERS, REFUNDS, Service};
use metric_handles::{BoundCounter, BoundList, Counter, counter};
use metric_sdk::{IsCounter, Runs, open};
use std::alloc::Global;
use std::process::Abort;
use std::sync::Wait;

fn opened<R: Abort + Wait>(rt: &R, alloc: Global, catalogue: &str, runs: &mut Runs) -> Service {
    let opened = open(rt, alloc, catalogue, DELTA, 0, runs);
    Service::of(opened.or_fail(rt))
}

// The counter of a shop.
fn named<R: Abort>(rt: &R, shop: &Service, name: &str) -> Counter {
    counter(shop.provider.plan(), "shop", name, &["country"]).or_fail(rt)
}

// A handle, bound attributes and a list.
#[derive(Drop)]
struct Handles {
    orders: Counter,
    german: BoundCounter,
    list: BoundList<IsCounter>,
}

fn handles_of<R: Abort>(rt: &R, alloc: Global, shop: &Service) -> Handles {
    let orders = named(rt, shop, "orders");
    let german = orders.bind(shop.provider.plan(), &GERMAN).or_fail(rt);
    let mut list = orders.list(alloc);
    list.push(&german, 3).or_fail(rt);
    Handles {
        orders,
        german,
        list,
    }
}

// Writes what a shop answers to them, and what its seat was then told.
fn tell_answers<R: Abort + Wait>(
    page: &mut Page<'_, R>,
    shop: &mut Service,
    handles: &mut Handles,
) {
    let (rt, provider) = (page.rt, &shop.provider);
    let seat = shop.recorders.first_mut().expect(rt, "no recorder");
    page.tell(handles.orders.add(rt, provider, seat, &GERMAN, 7));
    page.tell(handles.german.add(rt, provider, seat, 30));
    page.tell(handles.orders.bind(provider.plan(), &GERMAN).err());
    page.tell(handles.list.add(rt, provider, seat));
    page.tell(handles.list.add_and_keep(rt, provider, seat));
    page.tell(seat.accepted(0))
}

// A shop of another plan, what its list answers to bound attributes of the first, and the shop of that.
const STRANGE: &str = "Err(Stranger)
Err(Stranger)
Some(Stranger)
Err(SetsFault { place: 0, refusal: Stranger })
Err(SetsFault { place: 0, refusal: Stranger })
Some(Told { count: 0, amount: 0 })
Err(OtherInstrument)
Ok(())
Ok(())
None
Ok(())
Ok(())
Some(Told { count: 3, amount: 37 })
";

#[test]
fn a_handle_of_another_plan_is_a_stranger(rt: HostRuntime) {
    let (alloc, mut runs) = (rt.alloc(), Runs::new());
    let mut page = Page::new(&rt, alloc);
    let mut own = opened(&rt, alloc, ORDERS, &mut runs);
    let mut other = opened(&rt, alloc, REFUNDS, &mut runs);
    let mut handles = handles_of(&rt, alloc, &own);
    tell_answers(&mut page, &mut other, &mut handles);
    let mut others = named(&rt, &other, "refunds").list(alloc);
    page.tell(others.push(&handles.german, 1));
    tell_answers(&mut page, &mut own, &mut handles);
    page.assert(STRANGE);
}

// A seat of the first shop at the second one, and then each at its own: a handle serves each provider of its texts.
const SHARED: &str = "Err(Stranger)
Ok(())
Ok(())
";

#[test]
fn the_seats_of_two_providers_are_not_shared(rt: HostRuntime) {
    let (alloc, mut runs) = (rt.alloc(), Runs::new());
    let mut page = Page::new(&rt, alloc);
    let mut first = opened(&rt, alloc, ORDERS, &mut runs);
    let mut second = opened(&rt, alloc, ORDERS, &mut runs);
    let orders = named(&rt, &first, "orders");
    let mut seat = first.take(&rt, "till");
    let mut other = second.take(&rt, "till");
    page.tell(orders.add(&rt, &second.provider, &mut seat, &GERMAN, 5));
    page.tell(orders.add(&rt, &first.provider, &mut seat, &GERMAN, 5));
    page.tell(orders.add(&rt, &second.provider, &mut other, &GERMAN, 5));
    drop(seat);
    drop(other);
    page.assert(SHARED);
}
