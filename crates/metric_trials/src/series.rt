//! The series that are recorded: set keys and attributes of three keys.
use crate::asserted::{OrFail, Stop};
use metric_contents::{Attr, SetKey};
use metric_provider::Measurement;
use std::alloc::Global;

/// How many values a key has at most.
pub(crate) const MANY_VALUES: u32 = 64;

// The names of the values.
const VALUES: &[&str] = &[
    "value.0", "value.1", "value.2", "value.3", "value.4", "value.5", "value.6", "value.7",
    "value.8", "value.9", "value.10", "value.11", "value.12", "value.13", "value.14", "value.15",
    "value.16", "value.17", "value.18", "value.19", "value.20", "value.21", "value.22", "value.23",
    "value.24", "value.25", "value.26", "value.27", "value.28", "value.29", "value.30", "value.31",
    "value.32", "value.33", "value.34", "value.35", "value.36", "value.37", "value.38", "value.39",
    "value.40", "value.41", "value.42", "value.43", "value.44", "value.45", "value.46", "value.47",
    "value.48", "value.49", "value.50", "value.51", "value.52", "value.53", "value.54", "value.55",
    "value.56", "value.57", "value.58", "value.59", "value.60", "value.61", "value.62", "value.63",
];

/// So many recordings of series, one after the other and over again, with different values.
pub(crate) fn recordings<R: Stop>(
    rt: &R,
    alloc: Global,
    count: u32,
    series: u32,
) -> Vec<Measurement> {
    let values = values_for(series);
    let series = series.max(1);
    let mut recordings = Vec::with_capacity(alloc, count as usize).or_fail(rt);
    for number in 0..count {
        let set = set_of(number % series, values);
        let value = value_of(number);
        recordings.push(Measurement { set, value }).or_fail(rt);
    }
    recordings
}

// The least number of values with which three keys tell so many series apart, `MANY_VALUES` at most.
fn values_for(series: u32) -> u32 {
    for values in 1..MANY_VALUES {
        if values.saturating_mul(values).saturating_mul(values) >= series {
            return values;
        }
    }
    MANY_VALUES
}

// The set key whose first three entries are the number's digits, one more each, where each key has so many values. The
// last digit changes first, so that the series of numbers that follow one another are neighbours.
fn set_of(number: u32, values: u32) -> SetKey {
    let base = values.max(1);
    let first = entry_of(number / base / base % base);
    let second = entry_of(number / base % base);
    let third = entry_of(number % base);
    [first, second, third, 0, 0, 0, 0, 0]
}

fn entry_of(digit: u32) -> u16 {
    (digit.min(MANY_VALUES - 1) + 1) as u16
}

// A value of the ranges, another one for each of the numbers that follow one another.
fn value_of(number: u32) -> i64 {
    i64::from(number.wrapping_mul(7919) % 10_000)
}

// The name of the value of this number.
fn value_name(number: u32) -> &'static str {
    VALUES.get(number as usize).copied().unwrap_or("")
}

/// The names of three values.
pub(crate) type Texts = (&'static str, &'static str, &'static str);

/// Goes through series, over and over. A step is no division, so that it costs little.
#[derive(Clone, Copy)]
pub(crate) struct Cycle {
    count: u32,
    // With how many values of each of three keys they are told apart.
    values: u32,
    number: u32,
    digits: [u32; 3],
}

impl Cycle {
    /// The first of so many.
    pub(crate) fn new(count: u32) -> Cycle {
        Cycle {
            count,
            values: values_for(count),
            number: 0,
            digits: [0; 3],
        }
    }

    /// Its three attributes.
    pub(crate) fn attributes(&self) -> [Attr<'static>; 3] {
        let (first, second, third) = self.texts();
        [
            Attr::text("key.0", first),
            Attr::text("key.1", second),
            Attr::text("key.2", third),
        ]
    }

    /// Their values.
    pub(crate) fn texts(&self) -> Texts {
        (
            value_name(self.digits[0]),
            value_name(self.digits[1]),
            value_name(self.digits[2]),
        )
    }

    /// What is recorded of it.
    pub(crate) fn value(&self) -> i64 {
        value_of(self.number)
    }

    /// Goes on to the next one, after the last one to the first.
    pub(crate) fn step(&mut self) {
        self.number = self.number.wrapping_add(1);
        self.digits = next_digits(self.digits, self.values);
        if self.number >= self.count {
            self.number = 0;
            self.digits = [0; 3];
        }
    }
}

// The digits of the number after that of these digits, where each key has so many values.
fn next_digits(digits: [u32; 3], values: u32) -> [u32; 3] {
    let last = values.saturating_sub(1);
    if digits[2] < last {
        [digits[0], digits[1], digits[2].wrapping_add(1)]
    } else if digits[1] < last {
        [digits[0], digits[1].wrapping_add(1), 0]
    } else {
        [digits[0].wrapping_add(1), 0, 0]
    }
}
