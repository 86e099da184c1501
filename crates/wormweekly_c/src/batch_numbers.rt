//! The numbers of a batch that stand in lists: boundaries, and counts of buckets.
ghost use Rattle.std.specs.Prelude.{◌≡◌, ◌≢◌};
ghost use Rattle.std.specs.Option.{MatchOption};
ghost use Rattle.wormweekly_c.specs.Codes.{WhereHeld, reader_in};
ghost use Rattle.wormweekly_c.specs.Texts.{AnswersAll};
ghost use Rattle.wormweekly_c.specs.Walking.{boundaries_at, buckets_at, buckets_of};

use crate::batches::{boundaries_of, point_at, stream_at};
use crate::codes::{NOT_OPEN, UNKNOWN};
use crate::handles::Handle;
use crate::held::Held;
use crate::texts::copy_all;
use metric_aggregate::PointValue;
use metric_hosted::HostedReader;
use std::alloc::Global;

/// Writes the boundaries of the stream at a place, if there is room for all of them; how many there are, the stream
/// says.
#[unsafe(no_mangle)]
pub extern "C" fn wormweekly_boundaries(
    alloc: Global,
    reader: &mut Handle,
    at: usize,
    out: &mut [i64],
) -> u32
    ensures answer { WhereHeld (reader_in reader.old) (result ≡ 100) (λ own.
        MatchOption (boundaries_at own at) (result ≡ 106) (λ all.
        AnswersAll all out.old out.new result)) }
    ensures reader { reader.new.value ≡ reader.old.value }
    ensures refused { result ≢ 0 → out.new ≡ out.old }
{
    let held = reader.take(alloc);
    let code = match held.as_deref() {
        Some(Held::Reader(own)) => write_boundaries(own, at, out),
        _ => NOT_OPEN,
    };
    reader.put(alloc, held);
    code
}

fn write_boundaries(own: &HostedReader, at: usize, out: &mut [i64]) -> u32
    ensures answer { MatchOption (boundaries_at own.now at) (result ≡ 106) (λ all.
        AnswersAll all out.old out.new result) }
    ensures refused { result ≢ 0 → out.new ≡ out.old }
{
    match stream_at(own, at) {
        None => UNKNOWN,
        Some(stream) => copy_all(boundaries_of(&stream.aggregation), out),
    }
}

/// Writes the counts of a point's buckets, under the same rule; how many there are, the point says.
#[unsafe(no_mangle)]
pub extern "C" fn wormweekly_buckets(
    alloc: Global,
    reader: &mut Handle,
    at: usize,
    number: usize,
    out: &mut [u64],
) -> u32
    ensures answer { WhereHeld (reader_in reader.old) (result ≡ 100) (λ own.
        MatchOption (buckets_at own at number) (result ≡ 106) (λ all.
        AnswersAll all out.old out.new result)) }
    ensures reader { reader.new.value ≡ reader.old.value }
    ensures refused { result ≢ 0 → out.new ≡ out.old }
{
    let held = reader.take(alloc);
    let code = match held.as_deref() {
        Some(Held::Reader(own)) => write_buckets(own, at, number, out),
        _ => NOT_OPEN,
    };
    reader.put(alloc, held);
    code
}

fn write_buckets(own: &HostedReader, at: usize, number: usize, out: &mut [u64]) -> u32
    ensures answer { MatchOption (buckets_at own.now at number) (result ≡ 106) (λ all.
        AnswersAll all out.old out.new result) }
    ensures refused { result ≢ 0 → out.new ≡ out.old }
{
    match point_at(own, at, number) {
        None => UNKNOWN,
        Some(point) => copy_all(buckets_of(&point.value), out),
    }
}

// The counts of a histogram's buckets, else none.
fn buckets_of(value: &PointValue) -> &[u64]
    ensures { result.now ≡ buckets_of value.now }
{
    match value {
        PointValue::Sum(_) | PointValue::Last(_) => &[],
        PointValue::Buckets { counts, .. } => counts.as_slice(),
    }
}
