//! Numbers that rise strictly, as the boundaries of a histogram do.
ghost use Rattle.std.specs.Prelude.{◌≡◌};
ghost use Rattle.metric_base.specs.Boundaries.{is_rising};

/// Whether each number is below the next.
pub fn is_rising(numbers: &[i64]) -> bool
    ensures { result ≡ is_rising numbers.now }
{
    let [first, others @ ..] = numbers else {
        return true;
    };
    let mut before = *first;
    for number in others {
        if *number <= before {
            return false;
        }
        before = *number;
    }
    true
}
