//! Which keys a stream keeps.
ghost use Rattle.std.specs.Prelude.{◌≡◌};
ghost use Rattle.std.specs.List.{list_all};
ghost use Rattle.metric_combinations.specs.Restrictions.{restricted};

use metric_base::{Few, Shared};
use metric_combinations::restrict;
use metric_contents::SetKey;
use std::marker::Model;

/// A flag for each declared key that says whether it is kept. Where all are, which is found once, sets stay as they
/// are. A clause sees the flags.
#[derive(Drop)]
pub(crate) struct KeptKeys {
    flags: Shared<Few<bool, 8>>,
    are_all: bool,
}

impl Model for KeptKeys {
    ghost use Rattle.std.specs.Prelude.{◌≡◌, Bool, List};
    ghost use Rattle.std.specs.List.{list_all};

    ghost Value = { List Bool };

    ghost view = { λ k. k.flags };

    ghost invariant = { λ k. k.are_all ≡ list_all (λ kept. kept) k.flags };
}

impl KeptKeys {
    /// The keys with these flags.
    pub(crate) fn new(flags: Shared<Few<bool, 8>>) -> KeptKeys
        ensures { result ≡ flags }
    {
        let are_all = are_all(flags.get().as_slice());
        KeptKeys { flags, are_all }
    }

    /// A set with 0 in place of each key that is not kept.
    pub(crate) fn restrict(&self, set: &SetKey) -> SetKey
        ensures { result ≡ restricted self.now set.now }
    {
        if self.are_all {
            return *set;
        }
        restrict_apart(self.flags.get().as_slice(), set)
    }
}

// Apart from where a set is copied whole, so that it is copied as one there.
#[inline(never)]
fn restrict_apart(flags: &[bool], set: &SetKey) -> SetKey
    ensures { result ≡ restricted flags.now set.now }
{
    restrict(flags, set)
}

// Whether each flag is set.
fn are_all(flags: &[bool]) -> bool
    ensures { result ≡ list_all (λ kept. kept) flags.now }
{
    flags.iter().all(|kept| *kept)
}
