//! Texts and lists of numbers that go out into a buffer of the host.
ghost use Rattle.std.specs.Prelude.{◌≡◌, ◌≢◌, option_map};
ghost use Rattle.std.specs.Option.{MatchOption};
ghost use Rattle.wormweekly_c.specs.Texts.{AnswersAll, AnswersText, IsFront};

use crate::codes::{DONE, TOO_SHORT, UNKNOWN};

// Copies a list where there is room for all of it.
pub(crate) fn copy_all<T: Copy>(all: &[T], out: &mut [T]) -> u32
    ensures answer { AnswersAll all.now out.old out.new result }
    ensures refused { result ≢ 0 → out.new ≡ out.old }
{
    if out.len() < all.len() {
        return TOO_SHORT;
    }
    out[..all.len()].copy_from_slice(all);
    DONE
}

// Copies a text where there is room for all of it, and writes its length.
pub(crate) fn copy_text(text: &[u8], out: &mut [u8], text_length: &mut usize) -> u32
    ensures answer { AnswersText text.now out.old out.new text_length.new result }
    ensures refused { result ≢ 0 → out.new ≡ out.old }
    ensures length { result ≢ 0 → result ≢ 102 → text_length.new ≡ text_length.old }
{
    *text_length = text.len();
    copy_all(text, out)
}

// Copies a text, where there is one, under the same rule.
pub(crate) fn write_found(found: Option<&str>, out: &mut [u8], text_length: &mut usize) -> u32
    ensures answer { let found = option_map (λ text. text.now) found.entry in
        MatchOption found (result ≡ 106) (λ text.
        AnswersText text out.old out.new text_length.new result) }
    ensures refused { result ≢ 0 → out.new ≡ out.old }
    ensures length { result ≢ 0 → result ≢ 102 → text_length.new ≡ text_length.old }
{
    match found {
        None => UNKNOWN,
        Some(text) => copy_text(text.as_bytes(), out, text_length),
    }
}

// Copies as many bytes of a text as there is room for. How many it has.
pub(crate) fn copy_front(text: &[u8], out: &mut [u8]) -> usize
    ensures { IsFront text.now out.old out.new result }
{
    let count = out.len().min(text.len());
    out[..count].copy_from_slice(&text[..count]);
    text.len()
}
