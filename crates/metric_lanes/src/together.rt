//! The points of two lanes, put together.
ghost use Rattle.std.specs.Prelude.{◌≡◌, ◌+◌, ◌<◌, true, false, length, IfOk};
ghost use Rattle.metric_safety.specs.WindowBounds.{IsValueInRange};
ghost use Rattle.metric_lanes.specs.Joined.{joined};
ghost use Rattle.metric_lanes.specs.Merging.{IsNext, joined_point, next_of, rest_of as points_left, set_order};
ghost use Rattle.metric_lanes.specs.Together.{ArePutTogether, AreStreamsTogether, CanJoin, CanJoinStreams, IsStreamTogether};

use crate::joining::join;
use metric_base::{Copied, Items};
use metric_history::{Point, StreamPoints};
use std::alloc::{AllocError, Global};
use std::cmp::Ordering;

/// The points of two lanes, put together: of each series that either has what both report of it, joined, in ascending
/// order of set keys. One pass over both. Fails only when out of memory.
pub fn put_together(alloc: Global, a: &[Point], b: &[Point]) -> Result<Items<Point>, AllocError>
    requires { CanJoin a.now b.now }
    ensures { IfOk result (λ all. ArePutTogether a.now b.now all) }
{
    let mut left = a;
    let mut right = b;
    let mut all = Items::new(alloc);
    while !left.is_empty() || !right.is_empty() {
        let next = next_point(alloc, left, right)?;
        left = rest_of(next.is_of_first, left);
        right = rest_of(next.is_of_second, right);
        all.push(next.point)?;
    }
    Ok(all)
}

// The points of each stream that a reader has of an instrument, of two lanes, put together.
pub(crate) fn streams_together(
    alloc: Global,
    a: &[StreamPoints],
    b: &[StreamPoints],
) -> Result<Items<StreamPoints>, AllocError>
    requires { CanJoinStreams a.now b.now }
    ensures { IfOk result (λ all. AreStreamsTogether a.now b.now all) }
{
    let (mut left, mut right) = (a, b);
    let mut all = Items::new(alloc);
    while let [stream, streams @ ..] = left {
        let [other, others @ ..] = right else {
            return Ok(all);
        };
        all.push(stream_together(alloc, stream, other)?)?;
        (left, right) = (streams, others);
    }
    Ok(all)
}

// The points of one stream of two lanes, put together.
fn stream_together(
    alloc: Global,
    a: &StreamPoints,
    b: &StreamPoints,
) -> Result<StreamPoints, AllocError>
    requires { CanJoin a.now.points b.now.points }
    ensures { IfOk result (λ all. IsStreamTogether a.now b.now all) }
{
    Ok(StreamPoints {
        stream: a.stream,
        points: put_together(alloc, a.points.as_slice(), b.points.as_slice())?,
    })
}

// What is left of points, the first of which was taken or not.
fn rest_of(is_taken: bool, points: &[Point]) -> &[Point]
    ensures { result.now ≡ points_left is_taken points.now }
{
    let [_, rest @ ..] = points else {
        return points;
    };
    if is_taken { rest } else { points }
}

// A point of the points put together, and whether it is of either lane.
#[derive(Drop)]
struct Next {
    point: Point,
    is_of_first: bool,
    is_of_second: bool,
}

// The next point: the one that comes before all others, or of both where each lane has one of its series.
fn next_point(alloc: Global, left: &[Point], right: &[Point]) -> Result<Next, AllocError>
    requires can { CanJoin left.now right.now }
    requires some { 0 < length left.now + length right.now }
    ensures { IfOk result (λ next. IsNext left.now right.now next) }
{
    let [a, ..] = left else {
        return of_second(alloc, &right[0]);
    };
    let [b, ..] = right else {
        return of_first(alloc, a);
    };
    match order_of(a, b) {
        Ordering::Less => of_first(alloc, a),
        Ordering::Equal => of_both(alloc, a, b),
        Ordering::Greater => of_second(alloc, b),
    }
}

// The order of the set keys of two points.
fn order_of(a: &Point, b: &Point) -> Ordering
    ensures { result ≡ set_order a.now.set b.now.set }
{
    match (&a.set, &b.set) {
        (Some(set), Some(other)) => set.cmp(other),
        _ => Ordering::Equal,
    }
}

// A point of the first lane alone.
fn of_first(alloc: Global, point: &Point) -> Result<Next, AllocError>
    ensures { IfOk result (λ next. next ≡ next_of point.now true false) }
{
    Ok(Next {
        point: copy(alloc, point)?,
        is_of_first: true,
        is_of_second: false,
    })
}

// A point of the second lane alone.
fn of_second(alloc: Global, point: &Point) -> Result<Next, AllocError>
    ensures { IfOk result (λ next. next ≡ next_of point.now false true) }
{
    Ok(Next {
        point: copy(alloc, point)?,
        is_of_first: false,
        is_of_second: true,
    })
}

// The points of both lanes of one series, joined.
fn of_both(alloc: Global, a: &Point, b: &Point) -> Result<Next, AllocError>
    requires { IsValueInRange (joined a.now.value b.now.value) }
    ensures { IfOk result (λ next.
        next ≡ next_of (joined_point a.now b.now) true true) }
{
    let value = join(alloc, &a.value, &b.value)?;
    Ok(Next {
        point: Point { set: a.set, value },
        is_of_first: true,
        is_of_second: true,
    })
}

fn copy(alloc: Global, point: &Point) -> Result<Point, AllocError>
    ensures { IfOk result (λ copied. copied ≡ point.now) }
{
    Ok(Point {
        set: point.set,
        value: point.value.copy(alloc)?,
    })
}
