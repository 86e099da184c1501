//! Variables of a dashboard, which stand for what is known only when it is shown.
use crate::bytes::{after, is_name_byte};

// So many bytes a variable in braces has at most: without a bound a text of open braces would be read again and again.
const MOST_BRACED: usize = 256;

/// How many bytes the variable takes that a text begins with: `$name`, `${name}`, `${name:format}`, `[[name]]` or
/// `[[name:format]]`; 0 where it begins with none.
pub(crate) fn variable_length(bytes: &[u8]) -> usize {
    match bytes {
        [b'$', b'{', inner @ ..] => closed_length(inner, braced_length(inner), b"}"),
        [b'[', b'[', inner @ ..] => closed_length(inner, name_length(inner, true), b"]]"),
        [b'$', name @ ..] => match name_length(name, false) {
            0 => 0,
            length => length.saturating_add(1),
        },
        _ => 0,
    }
}

/// Whether a variable stands in a text.
pub(crate) fn has_variable(bytes: &[u8]) -> bool {
    for (at, byte) in bytes.iter().enumerate() {
        if matches!(*byte, b'$' | b'[') && variable_length(after(bytes, at)) > 0 {
            return true;
        }
    }
    false
}

// The length with the two bytes before it, where it is closed so.
fn closed_length(inner: &[u8], length: usize, closing: &[u8]) -> usize {
    if length > 0 && after(inner, length).starts_with(closing) {
        length.saturating_add(2).saturating_add(closing.len())
    } else {
        0
    }
}

fn braced_length(inner: &[u8]) -> usize {
    inner
        .iter()
        .take(MOST_BRACED)
        .take_while(|byte| !matches!(**byte, b'}' | b'\n'))
        .count()
}

// How long the name is that a text begins with, with the format behind a colon where it may have one.
fn name_length(bytes: &[u8], has_format: bool) -> usize {
    match bytes {
        [b'0'..=b'9' | b':', ..] => 0,
        _ => bytes
            .iter()
            .take_while(|byte| is_name_byte(**byte) || (has_format && **byte == b':'))
            .count(),
    }
}
