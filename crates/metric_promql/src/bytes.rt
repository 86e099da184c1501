//! Pieces of a text, as bytes.

/// The bytes from a place on; none where the text ends before it.
pub(crate) fn after(bytes: &[u8], place: usize) -> &[u8] {
    bytes.get(place..).unwrap_or(&[])
}

/// The bytes between two places; none where they are not in the text.
pub(crate) fn between(bytes: &[u8], start: usize, end: usize) -> &[u8] {
    bytes.get(start..end).unwrap_or(&[])
}

/// What a name may have after its first byte.
pub(crate) fn is_name_byte(byte: u8) -> bool {
    byte.is_ascii_alphanumeric() || byte == b'_'
}

/// A space, a tab or the end of a line.
pub(crate) fn is_blank(byte: u8) -> bool {
    matches!(byte, b' ' | b'\t' | b'\r' | b'\n')
}

/// How many digits a text begins with.
pub(crate) fn digits_length(bytes: &[u8]) -> usize {
    bytes
        .iter()
        .take_while(|byte| byte.is_ascii_digit())
        .count()
}

/// How many blanks a text begins with.
pub(crate) fn blanks_length(bytes: &[u8]) -> usize {
    bytes.iter().take_while(|byte| is_blank(**byte)).count()
}

/// How long the first line of a text is.
pub(crate) fn line_length(bytes: &[u8]) -> usize {
    bytes.iter().take_while(|byte| **byte != b'\n').count()
}

/// Where a text is closed by a quote that no backslash stands before.
pub(crate) fn closing_of(body: &[u8], quote: u8) -> Option<usize> {
    let mut is_escaped = false;
    for (at, byte) in body.iter().enumerate() {
        if is_escaped {
            is_escaped = false;
        } else if *byte == quote {
            return Some(at);
        } else {
            is_escaped = *byte == b'\\';
        }
    }
    None
}
