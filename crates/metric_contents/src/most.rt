//! How often an instrument may be recorded before a number leaves 64 bits, whatever is recorded.
ghost use Rattle.std.specs.Prelude.{◌≡◌, ◌≤◌, ◌<◌, ◌^◌};
ghost use Rattle.metric_contents.specs.Most.{above, apart_total, below, lesser, most_within, safe_total};

use crate::contents::Kind;

/// The greatest total of an instrument of this kind and range that is safe, below 2^63: with it no two sums of values
/// are 2^64 or more apart, and no sum that is kept leaves the range of i64. Of a gauge no sum is kept.
pub fn safe_total(kind: Kind, lo: i64, hi: i64) -> u64
    ensures exact { result ≡ safe_total kind lo hi }
    ensures few { result < 2 ^ 63 }
{
    let most = apart_total(lo, hi);
    if kind.is_gauge() {
        most
    } else {
        let most = lesser(most, most_within((1 << 63) - 1, above(hi)));
        lesser(most, most_within(1 << 63, below(lo)))
    }
}

fn apart_total(lo: i64, hi: i64) -> u64
    ensures exact { result ≡ apart_total lo hi }
    ensures few { result < 2 ^ 63 }
{
    lesser((1 << 63) - 1, most_within(u64::MAX, hi.abs_diff(lo)))
}

fn lesser(most: u64, other: Option<u64>) -> u64
    ensures exact { result ≡ lesser most other }
    ensures few { result ≤ most }
{
    match other {
        Some(other) if other < most => other,
        _ => most,
    }
}

/// The greatest number of steps within a room, or none where each number of them is.
pub fn most_within(room: u64, step: u64) -> Option<u64>
    ensures { result ≡ most_within room step }
{
    if step == 0 { None } else { Some(room / step) }
}

/// How far a number is below zero.
pub fn below(number: i64) -> u64
    ensures { result ≡ below number }
{
    if number < 0 { number.unsigned_abs() } else { 0 }
}

/// How far a number is above zero.
pub fn above(number: i64) -> u64
    ensures { result ≡ above number }
{
    if number < 0 { 0 } else { number.unsigned_abs() }
}
