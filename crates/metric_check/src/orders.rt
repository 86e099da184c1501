//! Whether a certificate names the streams of each reader in the order in which their identities rise.
ghost use Rattle.std.specs.Prelude.{◌≡◌, ◌↔◌, All, AllPairs, IsTrue, length, option_map};
ghost use Rattle.std.specs.Result.{result_err};
ghost use Rattle.metric_cert.specs.Valid.{IsStreamOf};
ghost use Rattle.metric_resolve.specs.Laws.{identity_at};
ghost use Rattle.metric_resolve.specs.Collisions.{identity_with};
ghost use Rattle.metric_resolve.specs.Resolved.{streams_of};
ghost use Rattle.metric_check.specs.Findings.{OrdersFind};
ghost use Rattle.metric_check.specs.Rising.{AreOwnOrders, AreTested, IsOwnOrder, RisesTo, named_by};

use crate::fault::{ClaimFault, ClaimPlace};
use metric_catalogue::Catalogue;
use metric_cert::ReaderOrder;
use metric_contents::Meter;
use metric_plan::CheckFault;
use metric_resolve::identity_order;
use metric_views::{Config, Stream};
use std::cmp::Ordering;

// The first fault of the orders. They stand by reader.
pub(crate) fn check_orders(
    catalogue: &Catalogue,
    config: &Config,
    streams: &[Stream],
    orders: &[ReaderOrder],
) -> Result<(), ClaimFault>
    requires { streams.now ≡ streams_of catalogue.now config.now }
    ensures { OrdersFind catalogue.now config.now streams.now orders.now (result_err result) }
{
    if are_orders(catalogue, config, streams, orders) {
        Ok(())
    } else {
        Err(ClaimFault {
            fault: CheckFault::BadOrder,
            place: ClaimPlace::Orders,
        })
    }
}

// Whether there is an order for each reader, each names streams of its own reader that rise, and all
// together as many as there are. Then they name all, since none stands twice.
fn are_orders(
    catalogue: &Catalogue,
    config: &Config,
    streams: &[Stream],
    orders: &[ReaderOrder],
) -> bool
    ensures { IsTrue result ↔ AreTested catalogue.now config.now streams.now orders.now }
{
    orders.len() == config.readers().len()
        && are_own_orders(catalogue, streams, orders)
        && are_as_many(streams, orders)
}

// Whether each order names streams of its own reader that rise.
fn are_own_orders(catalogue: &Catalogue, streams: &[Stream], orders: &[ReaderOrder]) -> bool
    ensures { IsTrue result ↔ AreOwnOrders catalogue.now streams.now orders.now }
{
    for (reader, order) in orders.iter().enumerate() {
        if !is_own_order(catalogue, streams, reader, order) {
            return false;
        }
    }
    true
}

// Whether the orders name as many streams as there are.
fn are_as_many(streams: &[Stream], orders: &[ReaderOrder]) -> bool
    ensures { IsTrue result ↔ (named_by orders.now ≡ length streams.now) }
{
    let mut left = streams.len();
    for order in orders {
        if order.streams.len() > left {
            return false;
        }
        left -= order.streams.len();
    }
    left == 0
}

fn is_own_order(
    catalogue: &Catalogue,
    streams: &[Stream],
    reader: usize,
    order: &ReaderOrder,
) -> bool
    ensures { IsTrue result ↔ IsOwnOrder catalogue.now streams.now reader order.now }
{
    order.reader as usize == reader
        && are_of_reader(streams, reader, order.streams.as_slice())
        && are_rising(catalogue, streams, order.streams.as_slice())
}

// Whether the numbers are those of streams of a reader.
fn are_of_reader(streams: &[Stream], reader: usize, numbers: &[u32]) -> bool
    ensures { IsTrue result ↔ All (IsStreamOf streams.now reader) numbers.now }
{
    numbers
        .iter()
        .all(|number| is_of_reader(streams, reader, *number))
}

fn is_of_reader(streams: &[Stream], reader: usize, number: u32) -> bool
    ensures { IsTrue result ↔ IsStreamOf streams.now reader number }
{
    match streams.get(number as usize) {
        Some(stream) => stream.reader as usize == reader,
        None => false,
    }
}

// Whether the identities of the streams of these numbers rise strictly.
fn are_rising(catalogue: &Catalogue, streams: &[Stream], numbers: &[u32]) -> bool
    ensures { IsTrue result ↔ AllPairs (RisesTo catalogue.now streams.now) numbers.now }
{
    for place in 1..numbers.len() {
        if !rises_to(catalogue, streams, numbers[place - 1], numbers[place]) {
            return false;
        }
    }
    true
}

// Whether the identity of the stream of one number is below that of another.
fn rises_to(catalogue: &Catalogue, streams: &[Stream], lower: u32, upper: u32) -> bool
    ensures { IsTrue result ↔ RisesTo catalogue.now streams.now lower upper }
{
    let Some((stream, meter)) = identified(catalogue, streams, lower) else {
        return false;
    };
    let Some((other, other_meter)) = identified(catalogue, streams, upper) else {
        return false;
    };
    matches!(
        identity_order(stream, meter, other, other_meter),
        Ordering::Less
    )
}

// The stream of a number with its meter, of which its identity is made.
#[tactic(auto, unfolding(metric_resolve::specs::Collisions::identity_of))]
fn identified<'a>(
    catalogue: &'a Catalogue,
    streams: &'a [Stream],
    number: u32,
) -> Option<(&'a Stream, &'a Meter)>
    ensures { option_map (λ found. identity_with found.0.now found.1.now) result
        ≡ identity_at catalogue.now streams.now number }
{
    let stream = streams.get(number as usize)?;
    let instrument = catalogue.instruments().get(stream.instrument as usize)?;
    let meter = catalogue.meters().get(instrument.meter as usize)?;
    Some((stream, meter))
}
