//! The boundaries of a histogram.
ghost use Rattle.std.specs.Prelude.{◌≡◌, ◌≤◌, true, length};
ghost use Rattle.metric_base.specs.Boundaries.{is_rising};

use crate::copied::Copied;
use crate::few::Few;
use std::alloc::{AllocError, Global};
use std::marker::Model;

/// Up to 128 numbers that rise strictly (Metrics SDK, explicit bucket histogram aggregation). A clause sees
/// the list of the numbers.
#[derive(Debug, Drop)]
pub struct Boundaries {
    numbers: Few<i64, 128>,
}

impl Model for Boundaries {
    ghost use Rattle.std.specs.Prelude.{◌≡◌, ◌≤◌, ℤ, List, length, true};
    ghost use Rattle.metric_base.specs.Boundaries.{is_rising};

    ghost Value = { List ℤ };

    ghost view = { λ b. b.numbers };

    ghost invariant = { λ b. is_rising b.numbers ≡ true };
}

impl Boundaries {
    /// The boundaries that a list is, which rises strictly. Allocates no memory.
    pub fn from_few(numbers: Few<i64, 128>) -> Boundaries
        requires { is_rising numbers ≡ true }
        ensures { result ≡ numbers }
    {
        Boundaries { numbers }
    }

    /// The numbers in order.
    pub fn as_slice(&self) -> &[i64]
        ensures numbers { result.now ≡ self.now }
        ensures rising { is_rising self.now ≡ true }
        ensures few { length self.now ≤ 128 }
    {
        self.numbers.as_slice()
    }
}

impl Copied for Boundaries {
    fn copy(&self, alloc: Global) -> Result<Boundaries, AllocError> {
        let numbers = self.numbers.copy(alloc)?;
        Ok(Boundaries { numbers })
    }
}
