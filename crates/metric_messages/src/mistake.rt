//! What is wrong with a field of a catalogue or a config, in words.
use crate::near::nearest;
use crate::sentence::{write_one, write_part, write_three, write_two};
use crate::shown::{Quoted, Shown, Words};
use std::fmt;
use toml::Value;

// A mistake of a field.
#[derive(Clone, Copy)]
pub(crate) struct Mistake<'v> {
    // The name of the field.
    pub(crate) field: &'v str,
    // The name of the kind of instrument whose choice in the field is wrong, or nothing.
    pub(crate) part: &'static str,
    // What is wrong with it.
    pub(crate) wrong: Wrong<'v>,
}

// What is wrong with a field.
#[derive(Clone, Copy)]
pub(crate) enum Wrong<'v> {
    // The table has no such field, and needs it.
    Missing,
    // The table has no field of this name, but of these.
    Unknown(&'v str, &'static [&'static str]),
    // The table has this field only in the latest format.
    Later(&'v str),
    // The table has this field only in an earlier format, and in its place another.
    Earlier(&'v str, &'static str),
    // The text is none of these words.
    NoneOf(&'v str, &'static [&'static str]),
    // There is no format of this number, but these.
    Unsupported(&'static str, i64, &'static str),
    // These words tell it.
    Plain(&'static str),
    // The value is none of what it is to be.
    NotA(&'v Value, &'static str),
    // The same of the entry of a number.
    EntryNotA(u32, &'v Value, &'static str),
    // The character of a number in the text has no place in it.
    Character(&'v str, usize, &'static str),
    // There is more than this.
    TooMany(&'static str),
    // There is no instrument of this number, but so many.
    NoInstrument(i64, usize),
    // The second number does not come after the first.
    Order(i64, i64, &'static str),
    // Nothing has this id or name, but maybe one that is near.
    NoSuch(&'static str, &'v str, Option<&'v str>),
    // These words tell what is wrong with the entry of a name.
    Entry(&'v str, &'static str),
    // A value stands twice.
    Repeated(&'v Value),
    // These words tell what is wrong with the combination of a number.
    Combination(u32, &'static str),
}

impl fmt::Display for Mistake<'_> {
    fn fmt<W: fmt::Write>(&self, f: &mut fmt::Formatter<W>) -> fmt::Result {
        match self.wrong {
            Wrong::Unknown(name, known) => self.write_unknown_field(f, name, known),
            Wrong::Later(name) => {
                write_one(f, ("field ", &Quoted(name)), " needs format = 2 at the top")
            }
            Wrong::Earlier(name, other) => {
                let name = Quoted(name);
                write_two(
                    f,
                    ("unknown field ", &name),
                    (" in format 3; say ", &other),
                    "",
                )
            }
            Wrong::NoneOf(text, names) => self.write_unknown_word(f, text, names),
            Wrong::Missing => write_part(f, ("missing field ", &Quoted(self.field))),
            Wrong::Unsupported(what, number, formats) => {
                let formats = (" is not supported (only ", &formats);
                write_three(f, ("", &what), (" format ", &number), formats, ")")
            }
            wrong => {
                self.write_field(f)?;
                f.write(wrong)
            }
        }
    }
}

impl Mistake<'_> {
    // The field, and the choice in it.
    fn write_field<W: fmt::Write>(&self, f: &mut fmt::Formatter<W>) -> fmt::Result {
        write_part(f, ("field ", &Quoted(self.field)))?;
        if self.part.is_empty() {
            return Ok(());
        }
        write_part(f, (", ", &Quoted(self.part)))
    }

    // That a name is no field, or no choice in a field.
    fn write_unknown_field<W: fmt::Write>(
        &self,
        f: &mut fmt::Formatter<W>,
        name: &str,
        known: &'static [&'static str],
    ) -> fmt::Result {
        if !self.field.is_empty() {
            write_one(f, ("field ", &Quoted(self.field)), ": ")?;
        }
        write_part(f, ("unknown field ", &Quoted(name)))?;
        write_expected_words(f, name, known)
    }

    // That a text is none of the words that the field takes.
    fn write_unknown_word<W: fmt::Write>(
        &self,
        f: &mut fmt::Formatter<W>,
        text: &str,
        names: &'static [&'static str],
    ) -> fmt::Result {
        write_two(f, ("unknown ", &self.field), (" ", &Quoted(text)), "")?;
        if !self.part.is_empty() {
            write_part(f, (" for ", &self.part))?;
        }
        write_expected_words(f, text, names)
    }
}

// The words that are expected, and the one that is near.
fn write_expected_words<W: fmt::Write>(
    f: &mut fmt::Formatter<W>,
    text: &str,
    names: &'static [&'static str],
) -> fmt::Result {
    write_part(f, ("; expected ", &Words(names)))?;
    write_near(f, nearest(text, names))
}

fn write_near<W: fmt::Write>(f: &mut fmt::Formatter<W>, near: Option<&str>) -> fmt::Result {
    match near {
        Some(name) => write_one(f, ("; did you mean ", &name), "?"),
        None => Ok(()),
    }
}

impl fmt::Display for Wrong<'_> {
    fn fmt<W: fmt::Write>(&self, f: &mut fmt::Formatter<W>) -> fmt::Result {
        match *self {
            // These are told with the field.
            Wrong::Missing
            | Wrong::Unknown(_, _)
            | Wrong::Later(_)
            | Wrong::Earlier(_, _)
            | Wrong::NoneOf(_, _)
            | Wrong::Unsupported(_, _, _) => Ok(()),
            Wrong::Plain(words) => f.write_str(words),
            Wrong::NotA(value, what) => write_expected(f, what, value),
            Wrong::EntryNotA(number, value, what) => {
                write_part(f, (": entry ", &number))?;
                write_expected(f, what, value)
            }
            Wrong::Character(text, at, what) => write_character(f, text, at, what),
            Wrong::TooMany(most) => write_one(f, (" is too long; at most ", &most), " are allowed"),
            Wrong::NoInstrument(number, count) => write_no_instrument(f, number, count),
            Wrong::Order(first, second, how) => {
                write_three(f, (": ", &first), (" and ", &second), (": ", &how), "")
            }
            Wrong::NoSuch(what, name, near) => {
                write_two(f, (": ", &what), ("", &Quoted(name)), "")?;
                write_near(f, near)
            }
            Wrong::Entry(name, words) => write_one(f, (": ", &Quoted(name)), words),
            Wrong::Repeated(value) => write_one(f, (": ", &Shown(value)), " is listed twice"),
            Wrong::Combination(number, words) => write_one(f, (": combination ", &number), words),
        }
    }
}

fn write_expected<W: fmt::Write>(
    f: &mut fmt::Formatter<W>,
    what: &str,
    value: &Value,
) -> fmt::Result {
    write_two(f, (": expected ", &what), (", found ", &Shown(value)), "")
}

fn write_character<W: fmt::Write>(
    f: &mut fmt::Formatter<W>,
    text: &str,
    at: usize,
    what: &str,
) -> fmt::Result {
    write_three(
        f,
        (": ", &Quoted(text)),
        (" is not a ", &what),
        ("; its character ", &at.saturating_add(1)),
        " is not allowed in one",
    )
}

fn write_no_instrument<W: fmt::Write>(
    f: &mut fmt::Formatter<W>,
    number: i64,
    count: usize,
) -> fmt::Result {
    write_two(
        f,
        (": there is no instrument ", &number),
        ("; the catalogue has ", &count),
        ", numbered from 0",
    )
}
