//! Texts as an SVG has them.
use std::alloc::{AllocError, Global};

// So many letters fit in a box.
const MOST: usize = 42;

/// A name between other words: one that may be written from the right stands between marks that keep these in place.
pub(crate) fn isolated(alloc: Global, name: &str) -> Result<String, AllocError> {
    if name.as_bytes().iter().all(|byte| *byte < 128) {
        String::from_str(alloc, name)
    } else {
        format!(in alloc; "\u{2068}{name}\u{2069}")
    }
}

/// Puts a text last that fits in a box, with a mark where it was cut.
pub(crate) fn push_fitting(out: &mut String, text: &str) -> Result<(), AllocError> {
    if text.chars().count() <= MOST {
        return push_escaped(out, text);
    }
    for letter in text.chars().take(MOST - 1) {
        push_letter(out, letter)?;
    }
    out.push('…')
}

/// Puts a text last.
pub(crate) fn push_escaped(out: &mut String, text: &str) -> Result<(), AllocError> {
    for letter in text.chars() {
        push_letter(out, letter)?;
    }
    Ok(())
}

// Puts a letter last, as XML spells it. Control characters may not stand there.
fn push_letter(out: &mut String, letter: char) -> Result<(), AllocError> {
    match letter {
        '&' => out.push_str("&amp;"),
        '<' => out.push_str("&lt;"),
        '>' => out.push_str("&gt;"),
        '"' => out.push_str("&quot;"),
        '\0'..='\u{1f}' => out.push('?'),
        '\u{fffe}' | '\u{ffff}' => out.push('?'),
        _ => out.push(letter),
    }
}
