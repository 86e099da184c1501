//! The place of a value among rising numbers.
ghost use Rattle.std.specs.Prelude.{◌≡◌, ◌^◌, ◌<◌, true, if◌then◌else◌};
ghost use Rattle.metric_base.specs.Boundaries.{is_rising};
ghost use Rattle.metric_aggregate.specs.Value.{bucket_of};

/// How many numbers of a rising list are less than a value.
///
/// A binary search in which each step adds its width, or nothing, by a shift: a branch on the values
/// would be mispredicted every other time, which costs more than all the rest of a recording.
pub(crate) fn count_less(numbers: &[i64], value: i64) -> usize
    requires { is_rising numbers.now ≡ true }
    ensures { result ≡ bucket_of numbers.now value }
{
    if numbers.is_empty() {
        return 0;
    }
    let mut level = numbers.len().ilog2();
    let width = width_of(level);
    let less = numbers[width - 1] < value;
    let mut found = if less { numbers.len() + 1 - width } else { 0 };
    while level > 0 {
        level -= 1;
        let half = width_of(level);
        let less = numbers[found + half - 1] < value;
        found += step_of(less, level);
    }
    found
}

fn width_of(level: u32) -> usize
    requires { level < 64 }
    ensures { result ≡ 2 ^ level }
{
    1 << level
}

fn step_of(less: bool, level: u32) -> usize
    requires { level < 64 }
    ensures { result ≡ (if less then 2 ^ level else 0) }
{
    usize::from(less) << level
}
