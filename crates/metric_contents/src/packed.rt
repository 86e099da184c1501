//! Short texts as words.
ghost use Rattle.std.specs.Prelude.{◌≡◌, ◌<◌, ◌≤◌, IsTrue, length, MatchOption, Some};
ghost use Rattle.std.specs.Str.{bytes_eq};
ghost use Rattle.metric_contents.specs.Packed.{text_of};
ghost use Rattle.metric_contents.specs.declared.packed.Packed.{Packed};

// A text of at most 16 bytes: a word of its first bytes, one of its last bytes, which may overlap, and how
// many bytes there are. So texts are compared and hashed without a step for each byte.
#[derive(Clone, Copy, PartialEq, Eq)]
pub(crate) struct Packed {
    pub(crate) first: u64,
    pub(crate) last: u64,
    pub(crate) len: u8,
}

#[inline(always)]
fn by_eights(bytes: &[u8]) -> Option<Packed>
    requires { length bytes.now ≤ 16 }
    ensures { MatchOption result (length bytes.now < 8) (λ short. text_of short ≡ bytes.now) }
{
    let (first, _) = bytes.split_first_chunk::<8>()?;
    let (_, last) = bytes.split_last_chunk::<8>()?;
    Some(Packed {
        first: u64::from_le_bytes(*first),
        last: u64::from_le_bytes(*last),
        len: bytes.len() as u8,
    })
}

#[inline(always)]
fn of_few(bytes: &[u8]) -> Packed
    requires { length bytes.now < 8 }
    ensures { text_of result ≡ bytes.now }
{
    if let Some(short) = by_fours(bytes) {
        return short;
    }
    if let Some(short) = by_twos(bytes) {
        return short;
    }
    of_one(bytes)
}

#[inline(always)]
fn by_fours(bytes: &[u8]) -> Option<Packed>
    requires { length bytes.now < 8 }
    ensures { MatchOption result (length bytes.now < 4) (λ short. text_of short ≡ bytes.now) }
{
    let (first, _) = bytes.split_first_chunk::<4>()?;
    let (_, last) = bytes.split_last_chunk::<4>()?;
    Some(Packed {
        first: u64::from(u32::from_le_bytes(*first)),
        last: u64::from(u32::from_le_bytes(*last)),
        len: bytes.len() as u8,
    })
}

#[inline(always)]
fn by_twos(bytes: &[u8]) -> Option<Packed>
    requires { length bytes.now < 4 }
    ensures { MatchOption result (length bytes.now < 2) (λ short. text_of short ≡ bytes.now) }
{
    let (first, _) = bytes.split_first_chunk::<2>()?;
    let (_, last) = bytes.split_last_chunk::<2>()?;
    Some(Packed {
        first: u64::from(u16::from_le_bytes(*first)),
        last: u64::from(u16::from_le_bytes(*last)),
        len: bytes.len() as u8,
    })
}

// A text of one byte, or the empty text.
#[inline(always)]
fn of_one(bytes: &[u8]) -> Packed
    requires { length bytes.now < 2 }
    ensures { text_of result ≡ bytes.now }
{
    let first = if bytes.is_empty() { 0 } else { bytes[0] };
    Packed {
        first: u64::from(first),
        last: 0,
        len: bytes.len() as u8,
    }
}

impl Packed {
    // A text as words, where it is short.
    #[inline(always)]
    pub(crate) fn of(text: &str) -> Option<Packed>
        ensures { MatchOption result (16 < length text.now) (λ short. text_of short ≡ text.now) }
    {
        let bytes = text.as_bytes();
        if bytes.len() > 16 {
            return None;
        }
        if let Some(short) = by_eights(bytes) {
            return Some(short);
        }
        Some(of_few(bytes))
    }

    // A number that tells most texts apart. Texts can be chosen that it does not tell apart, so nothing
    // that has a cost or an answer may rest on it alone.
    #[inline(always)]
    pub(crate) fn hash(&self) -> u64 {
        (self.first ^ self.last.rotate_left(29)).wrapping_mul(0x9E37_79B9_7F4A_7C15)
    }
}

// Whether two texts are the same: two short ones, as most are, by their words.
#[inline(always)]
pub(crate) fn same_text(text: &str, other: &str) -> bool
    ensures { result ≡ bytes_eq text.now other.now }
{
    if are_same_words(Packed::of(text), Packed::of(other)) {
        return true;
    }
    text == other
}

#[inline(always)]
fn are_same_words(words: Option<Packed>, others: Option<Packed>) -> bool
    ensures { IsTrue result → (short : Packed) × ((words ≡ Some short) × (others ≡ Some short)) }
{
    match (words, others) {
        (Some(words), Some(others)) => words == others,
        _ => false,
    }
}
