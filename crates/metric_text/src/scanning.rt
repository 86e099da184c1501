//! Words and marks at the front of a line.
ghost use Rattle.std.specs.Prelude.{◌≡◌, ◌<◌, [], ◌∷◌, length, IfSome};
ghost use Rattle.std.specs.List.{position_from};
ghost use Rattle.std.specs.Option.{option_copied};
ghost use Rattle.metric_text.specs.Reading.{after_in, is_space, word_in};

/// What follows a byte, if it stands first.
pub fn after_byte(bytes: &[u8], byte: u8) -> Option<&[u8]>
    ensures { option_copied result ≡ after_in (byte ∷ []) bytes.now }
{
    match bytes {
        [first, rest @ ..] if *first == byte => Some(rest),
        _ => None,
    }
}

/// What follows a keyword, if it stands first.
pub fn after_keyword<'a>(bytes: &'a [u8], keyword: &str) -> Option<&'a [u8]>
    ensures { option_copied result ≡ after_in keyword.now bytes.now }
{
    bytes.strip_prefix(keyword.as_bytes())
}

/// The bytes up to the first space, and the rest from that space on.
pub fn word_at(bytes: &[u8]) -> (&[u8], &[u8])
    ensures word { result.0.now ≡ (word_in bytes.now).0 }
    ensures rest { result.1.now ≡ (word_in bytes.now).1 }
{
    bytes.split_at(first_space(bytes).unwrap_or(bytes.len()))
}

fn first_space(bytes: &[u8]) -> Option<usize>
    ensures place { result ≡ position_from is_space 0 bytes.now }
    ensures bound { IfSome result (λ place. place < length bytes.now) }
{
    bytes.iter().position(|byte| *byte == b' ')
}
