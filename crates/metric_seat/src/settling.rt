//! What an instrument comes to, by what the seats of its recorders were told.
ghost use Rattle.std.specs.Prelude.{◌≡◌, ◌<◌, ◌^◌, IfNone, IfSome, OnSome, SomeIff};
ghost use Rattle.metric_seat.specs.Settlements.{IsAsTold, IsPartlyTold, IsTellable, are_distinct, are_spent, has_each, has_seat, sum_above, told_amount, told_count, told_total};

use crate::tally::Tally;
use crate::tells::Tells;
use crate::total::Total;
use metric_slot::{is_above, least_sum};

/// Whether some seat is of the recorder of this number.
pub fn has_seat<S: Tells>(seats: &[S], number: usize) -> bool
    ensures { result ≡ has_seat S.numbered seats.now number }
{
    seats.iter().any(|seat| seat.number() as usize == number)
}

/// Whether no two seats are of one recorder.
pub fn are_distinct<S: Tells>(seats: &[S]) -> bool
    ensures { result ≡ are_distinct S.numbered seats.now }
{
    let mut rest = seats;
    while let Some((seat, others)) = rest.split_first() {
        if has_seat(others, seat.number() as usize) {
            return false;
        }
        rest = others;
    }
    true
}

/// Whether there is a seat for each recorder of so many.
pub fn has_each<S: Tells>(seats: &[S], recorders: usize) -> bool
    ensures { result ≡ has_each S.numbered seats.now recorders }
{
    (0..recorders).all(|number| has_seat(seats, number))
}

/// The total of an instrument, where its numbers are what the seats of all its recorders were told.
pub fn total_of_all<C: Tally, S: Tells>(counted: &C, seats: &[S], instrument: u32) -> Option<Total>
    ensures told { OnSome result (
        IsAsTold S.numbered (λ seat. S.tells seat instrument) (C.numbers counted.now) seats.now) }
    ensures total { IfSome result (λ total.
        total ≡ told_total (λ seat. S.tells seat instrument) (C.numbers counted.now).lo seats.now) }
    ensures other { IfNone result (
        IsAsTold S.numbered (λ seat. S.tells seat instrument) (C.numbers counted.now) seats.now
        → ⊥) }
{
    if !are_spent(counted, seats, instrument) {
        return None;
    }
    let count = counted.counted();
    if u128::from(count) != count_of(seats, instrument) {
        return None;
    }
    let sum = counted.summed();
    if !is_above(
        sum,
        least_sum(count, counted.least()),
        amount_of(seats, instrument),
    ) {
        return None;
    }
    Some(Total { count, sum })
}

/// What the seats of some recorders were told of an instrument that has as many recordings of each as it was told of,
/// where that has 64 bits and its sum 128. Of the other recorders nothing is known, so that nothing is compared with
/// the instrument's count and sum.
pub fn total_of_some<C: Tally, S: Tells>(counted: &C, seats: &[S], instrument: u32) -> Option<Total>
    ensures told { OnSome result (
        IsPartlyTold S.numbered (λ seat. S.tells seat instrument) (C.numbers counted.now)
        seats.now) }
    ensures total { IfSome result (λ total.
        total ≡ told_total (λ seat. S.tells seat instrument) (C.numbers counted.now).lo seats.now) }
    ensures other { IfNone result (
        IsPartlyTold S.numbered (λ seat. S.tells seat instrument) (C.numbers counted.now)
        seats.now → ⊥) }
{
    if !are_spent(counted, seats, instrument) {
        return None;
    }
    let count = count_of(seats, instrument);
    let amount = amount_of(seats, instrument);
    total_told(counted.least(), count, amount)
}

// Whether the instrument has as many recordings of each recorder as its seat was told of.
fn are_spent<C: Tally, S: Tells>(counted: &C, seats: &[S], instrument: u32) -> bool
    ensures { let spent = (C.numbers counted.now).spent in
        result ≡ are_spent S.numbered (λ seat. S.tells seat instrument) spent seats.now }
{
    seats.iter().all(|seat| {
        counted.spent_by(seat.number()) == u128::from(seat.told_at(instrument).count)
    })
}

// How many recordings the seats were told of.
fn count_of<S: Tells>(seats: &[S], instrument: u32) -> u128
    ensures { result ≡ told_count (λ seat. S.tells seat instrument) seats.now }
{
    let mut count = 0;
    for seat in seats {
        count += u128::from(seat.told_at(instrument).count);
    }
    count
}

// How far the values that the seats were told of are together above the least.
fn amount_of<S: Tells>(seats: &[S], instrument: u32) -> u128
    ensures { result ≡ told_amount (λ seat. S.tells seat instrument) seats.now }
{
    let mut amount = 0;
    for seat in seats {
        amount += u128::from(seat.told_at(instrument).amount);
    }
    amount
}

// So many recordings and the sum of their values, where these have so many bits.
fn total_told(lo: i64, count: u128, amount: u128) -> Option<Total>
    ensures fits { OnSome result (IsTellable lo count amount) }
    ensures total { IfSome result (λ total.
        total ≡ record { count = count; sum = sum_above lo count amount }) }
    ensures other { IfNone result (IsTellable lo count amount → ⊥) }
{
    let Some(count) = narrow(count) else {
        return None;
    };
    let Some(amount) = narrow(amount) else {
        return None;
    };
    match i128::from(amount).checked_add(least_sum(count, lo)) {
        Some(sum) => Some(Total { count, sum }),
        None => None,
    }
}

// The number, where it has 64 bits.
fn narrow(number: u128) -> Option<u64>
    ensures { SomeIff result (number < 2 ^ 64) number }
{
    if number <= u128::from(u64::MAX) {
        Some(number as u64)
    } else {
        None
    }
}
