//! Numbers in decimal: without leading zeros and without `+`, and a negative one with `-`.
ghost use Rattle.std.specs.Prelude.{◌≡◌, ◌^◌};
ghost use Rattle.std.specs.Option.{option_map};
ghost use Rattle.metric_text.specs.Reading.{number_in, number_of, signed_in, signed_of};

use crate::scanning::word_at;
use itoa::Buffer;

/// The number that a whole word spells, if it spells one.
pub fn u32_of(word: &[u8]) -> Option<u32>
    ensures { result ≡ number_of (2 ^ 32) word.now }
{
    u32::try_from(u64_of(word)?).ok()
}

/// The number that a whole word spells, if it spells one.
pub fn u64_of(word: &[u8]) -> Option<u64>
    ensures { result ≡ number_of (2 ^ 64) word.now }
{
    let text = str::from_utf8(word).ok()?;
    let number: u64 = text.parse().ok()?;
    if Buffer::new().format(number) == text {
        Some(number)
    } else {
        None
    }
}

/// The number that a whole word spells, if it spells one.
pub fn i64_of(word: &[u8]) -> Option<i64>
    ensures { result ≡ signed_of word.now }
{
    let text = str::from_utf8(word).ok()?;
    let value: i64 = text.parse().ok()?;
    if Buffer::new().format(value) == text {
        Some(value)
    } else {
        None
    }
}

/// The number that the first word spells, if it spells one, and the rest.
#[tactic(auto, unfolding(crate::specs::Reading::number_in))]
pub fn u32_at(bytes: &[u8]) -> Option<(u32, &[u8])>
    ensures { option_map (λ x. (x.0, x.1.now)) result ≡ number_in (2 ^ 32) bytes.now }
{
    let (word, rest) = word_at(bytes);
    Some((u32_of(word)?, rest))
}

/// The number that the first word spells, if it spells one, and the rest.
#[tactic(auto, unfolding(crate::specs::Reading::signed_in))]
pub fn i64_at(bytes: &[u8]) -> Option<(i64, &[u8])>
    ensures { option_map (λ x. (x.0, x.1.now)) result ≡ signed_in bytes.now }
{
    let (word, rest) = word_at(bytes);
    Some((i64_of(word)?, rest))
}
