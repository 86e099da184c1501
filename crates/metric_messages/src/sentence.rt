//! Sentences of words and values.
//!
//! Calls of their own: a `write!` makes one type of all its parts, which the proof of each caller would spell out.
use std::fmt;
use std::fmt::Display;

// Words, and the value that follows them.
pub(crate) type Part<'p, D> = (&'p str, &'p D);

// Writes words and a value.
pub(crate) fn write_part<W: fmt::Write, D: Display>(
    f: &mut fmt::Formatter<W>,
    part: Part<'_, D>,
) -> fmt::Result {
    f.write_str(part.0)?;
    f.write(part.1)
}

// Writes a value between words.
pub(crate) fn write_one<W: fmt::Write, A: Display>(
    f: &mut fmt::Formatter<W>,
    first: Part<'_, A>,
    end: &str,
) -> fmt::Result {
    write_part(f, first)?;
    f.write_str(end)
}

// The same with two values.
pub(crate) fn write_two<W: fmt::Write, A: Display, B: Display>(
    f: &mut fmt::Formatter<W>,
    first: Part<'_, A>,
    second: Part<'_, B>,
    end: &str,
) -> fmt::Result {
    write_part(f, first)?;
    write_one(f, second, end)
}

// The same with three.
pub(crate) fn write_three<W: fmt::Write, A: Display, B: Display, C: Display>(
    f: &mut fmt::Formatter<W>,
    first: Part<'_, A>,
    second: Part<'_, B>,
    third: Part<'_, C>,
    end: &str,
) -> fmt::Result {
    write_part(f, first)?;
    write_two(f, second, third, end)
}
