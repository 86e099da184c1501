//! Texts as a language quotes them, and as comments have them.
use std::alloc::{AllocError, Global};
use std::fmt::Write;

/// How a language writes a character that is no printable one of ASCII.
#[derive(Clone, Copy, Drop)]
pub(crate) enum Quotes {
    /// As `\u{e9}`.
    Braces,
    /// As `\U000000e9`.
    Eight,
    /// Each byte of it, as `\303`.
    Octal,
}

/// A text in quotes. Fails only when out of memory.
pub(crate) fn quoted(alloc: Global, text: &str, quotes: Quotes) -> Result<String, AllocError> {
    let mut out = String::from_str(alloc, "\"")?;
    for letter in text.chars() {
        push_quoted(&mut out, letter, quotes)?;
    }
    out.push('"')?;
    Ok(out)
}

fn push_quoted(out: &mut String, letter: char, quotes: Quotes) -> Result<(), AllocError> {
    match letter {
        '"' | '\\' => {
            out.push('\\')?;
            out.push(letter)
        }
        // Two of them begin a trigraph of C.
        '?' if matches!(quotes, Quotes::Octal) => out.push_str("\\077"),
        ' '..='~' => out.push(letter),
        _ => push_escaped(out, letter, quotes),
    }
}

fn push_escaped(out: &mut String, letter: char, quotes: Quotes) -> Result<(), AllocError> {
    let code = u32::from(letter);
    match quotes {
        Quotes::Braces => write!(out, "\\u{{{code:x}}}"),
        Quotes::Eight => write!(out, "\\U{code:08x}"),
        Quotes::Octal => push_octal(out, letter),
    }
}

fn push_octal(out: &mut String, letter: char) -> Result<(), AllocError> {
    let mut room = [0; 4];
    for byte in letter.encode_utf8(&mut room).as_bytes() {
        write!(out, "\\{byte:03o}")?;
    }
    Ok(())
}

/// A text as it may stand in any comment: without what ends a comment or a line, or turns the order of letters. Fails
/// only when out of memory.
pub(crate) fn said(alloc: Global, text: &str) -> Result<String, AllocError> {
    let mut out = String::new(alloc);
    let mut before = ' ';
    for letter in text.chars() {
        if matches!((before, letter), ('*', '/') | ('/', '*')) {
            out.push(' ')?;
        }
        out.push(if is_plain(letter) { letter } else { ' ' })?;
        before = letter;
    }
    Ok(out)
}

fn is_plain(letter: char) -> bool {
    !matches!(letter, '\0'..='\u{1f}' | '\\' | '\u{7f}'..='\u{9f}' | '\u{61c}' | '\u{200b}'..='\u{200f}'
        | '\u{2028}'..='\u{202e}' | '\u{2060}'..='\u{206f}' | '\u{feff}')
}
