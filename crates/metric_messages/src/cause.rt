//! What a fault of a catalogue's or config's table is about.
use crate::mistake::Mistake;
use crate::sentence::{write_one, write_part, write_two};
use crate::shown::Quoted;
use std::fmt;

// A table of a kind, with its number and, where it has one, its name.
#[derive(Clone, Copy)]
pub(crate) struct Named<'v> {
    pub(crate) what: &'static str,
    pub(crate) number: u32,
    pub(crate) name: Option<&'v str>,
}

// A mistake with the table that it is of, and where that stands in another, also that one.
#[derive(Clone, Copy)]
pub(crate) struct Cause<'v> {
    pub(crate) outer: Option<Named<'v>>,
    pub(crate) inner: Option<Named<'v>>,
    pub(crate) mistake: Mistake<'v>,
}

impl<'v> Named<'v> {
    pub(crate) fn new(what: &'static str, number: u32, name: Option<&'v str>) -> Named<'v> {
        Named { what, number, name }
    }
}

impl fmt::Display for Named<'_> {
    fn fmt<W: fmt::Write>(&self, f: &mut fmt::Formatter<W>) -> fmt::Result {
        write_two(f, ("", &self.what), (" ", &self.number), "")?;
        match self.name {
            Some(name) => write_part(f, (" ", &Quoted(name))),
            None => Ok(()),
        }
    }
}

impl fmt::Display for Cause<'_> {
    fn fmt<W: fmt::Write>(&self, f: &mut fmt::Formatter<W>) -> fmt::Result {
        if let Some(outer) = self.outer {
            write_one(f, ("", &outer), ": ")?;
        }
        if let Some(inner) = self.inner {
            write_one(f, ("", &inner), ": ")?;
        }
        f.write(self.mistake)
    }
}
