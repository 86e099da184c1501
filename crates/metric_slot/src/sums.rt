//! Sums of values, by how many they are and how far they are above the least.
ghost use Rattle.std.specs.Prelude.{◌≡◌, ◌↔◌, ◌+ℤ◌, ◌*ℤ◌, pos, IsTrue};

/// The sum of so many of the least values.
pub fn least_sum(count: u64, lo: i64) -> i128
    ensures { result ≡ pos count *ℤ lo }
{
    i128::from(count) * i128::from(lo)
}

/// Whether a sum is so far above another one.
pub fn is_above(sum: i128, least: i128, amount: u128) -> bool
    ensures { IsTrue result ↔ (sum ≡ pos amount +ℤ least) }
{
    least <= sum && sum.abs_diff(least) == amount
}
