//! The key under which a table finds a series.
ghost use Rattle.std.specs.Prelude.{◌≡◌};
ghost use Rattle.metric_series.specs.SeriesKeys.{number_of, word_of};

use metric_contents::SetKey;
use std::hash::{Hash, Hasher};
use std::marker::Model;

/// The set key of a series. It is hashed in one step, as one number.
#[derive(Clone, Copy, PartialEq, Eq, PartialOrd, Ord)]
pub struct SeriesKey {
    set: SetKey,
}

impl Model for SeriesKey {
    ghost use Rattle.std.specs.Prelude.{ℕ, List};

    ghost Value = { List ℕ };

    ghost view = { λ k. k.set };

    ghost inverse = { λ set. record { set = set } };
}

impl SeriesKey {
    /// The key of a set.
    pub fn new(set: SetKey) -> SeriesKey
        ensures { result ≡ set }
    {
        SeriesKey { set }
    }

    /// The set.
    pub fn set(&self) -> SetKey
        ensures { result ≡ self.now }
    {
        self.set
    }

    // The entries in the order of memory, the first the lowest, so that a set is taken as it lies there.
    fn number(&self) -> u128
        ensures { result ≡ number_of self.now }
    {
        let set = &self.set;
        let low = word(set[0], set[1], set[2], set[3]);
        let high = word(set[4], set[5], set[6], set[7]);
        u128::from(high) << 64 | u128::from(low)
    }
}

// Four entries as one number, the first the lowest.
fn word(first: u16, second: u16, third: u16, fourth: u16) -> u64
    ensures { result ≡ word_of first second third fourth }
{
    u64::from(fourth) << 48 | u64::from(third) << 32 | u64::from(second) << 16 | u64::from(first)
}

impl Hash for SeriesKey {
    ghost use Rattle.metric_series.specs.SeriesKeys.{hash_input_of, hash_input_respects_eq};

    ghost hash_input = { hash_input_of };

    ghost respects_eq = { hash_input_respects_eq };

    fn hash<H: Hasher>(&self, state: &mut H) {
        state.write_u128(self.number());
    }
}
