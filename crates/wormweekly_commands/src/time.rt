//! How long something lasts, for people.
use std::alloc::{AllocError, Global};

const MINUTE: u128 = 60;

const HOUR: u128 = 3_600;

const DAY: u128 = 86_400;

const YEAR: u128 = 31_557_600;

// From so many days on hours are left out.
const MANY_DAYS: u128 = 10;

/// How long so many recordings last at a rate a second, which is not 0, in the largest unit and the next one: `0.1 s`,
/// `4 h 15 min`, `177 days`. Fails only when out of memory.
pub(crate) fn lasting(alloc: Global, recordings: u128, rate: u128) -> Result<String, AllocError> {
    let rate = rate.max(1);
    let seconds = recordings / rate;
    if seconds < MINUTE {
        let tenths = recordings.saturating_mul(10) / rate;
        short(alloc, tenths, recordings)
    } else {
        long(alloc, seconds)
    }
}

// Less than a minute. What is less than a tenth of a second is said to be.
fn short(alloc: Global, tenths: u128, recordings: u128) -> Result<String, AllocError> {
    let (seconds, rest) = (tenths / 10, tenths % 10);
    if tenths == 0 && recordings > 0 {
        String::from_str(alloc, "under 0.1 s")
    } else if seconds < 10 && rest > 0 {
        format!(in alloc; "{seconds}.{rest} s")
    } else {
        format!(in alloc; "{seconds} s")
    }
}

fn long(alloc: Global, seconds: u128) -> Result<String, AllocError> {
    if seconds < HOUR {
        two_units(alloc, seconds / MINUTE, "min", seconds % MINUTE, "s")
    } else if seconds < DAY {
        two_units(alloc, seconds / HOUR, "h", seconds % HOUR / MINUTE, "min")
    } else if seconds < YEAR {
        days(alloc, seconds / DAY, seconds % DAY / HOUR)
    } else {
        let years = seconds / YEAR;
        format!(in alloc; "{years} years")
    }
}

fn days(alloc: Global, days: u128, hours: u128) -> Result<String, AllocError> {
    if days < MANY_DAYS {
        let unit = if days == 1 { "day" } else { "days" };
        two_units(alloc, days, unit, hours, "h")
    } else {
        format!(in alloc; "{days} days")
    }
}

fn two_units(
    alloc: Global,
    first: u128,
    unit: &str,
    rest: u128,
    smaller: &str,
) -> Result<String, AllocError> {
    format!(in alloc; "{first} {unit} {rest} {smaller}")
}
