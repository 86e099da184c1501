//! The file of a language that a catalogue comes to.
ghost use Rattle.metric_bind.specs.Apart.{AreApart};

use crate::apart::first_clash;
use crate::drafting::{Draft, number_text};
use crate::engine::filled;
use crate::fault::BindFault;
use crate::instruments::{Typed, add_meters};
use crate::key_types::{KeyTypes, is_long};
use crate::language::Language;
use crate::readers::add_readers;
use crate::seats::add_seats;
use crate::tree::{Named, Row};
use crate::values::add_types;
use metric_base::{Items, Text};
use metric_contents::{Instrument, Meter, Recorder};
use std::alloc::{AllocError, Global};
use std::marker::Model;

/// What a file is made of: what a catalogue declares, and the readers of a config.
#[derive(Clone, Copy)]
pub struct Source<'c> {
    /// The meters.
    pub meters: &'c [Meter],
    /// The instruments of all meters.
    pub instruments: &'c [Instrument],
    /// The recorders.
    pub recorders: &'c [Recorder],
    /// The names of the readers, where the file is to know them.
    pub readers: Option<&'c [&'c str]>,
}

/// A file that was made of a catalogue. A clause sees the names that stand in it, of which no two are the same.
#[derive(Drop)]
pub struct Bound {
    text: Text,
    names: Items<Named>,
}

impl Model for Bound {
    ghost use Rattle.std.specs.Prelude.{ℕ, List};
    ghost use Rattle.metric_bind.specs.Apart.{AreApart, names_in};

    ghost Value = { List (List ℕ) };

    ghost view = { λ b. names_in b.names };

    ghost invariant = { λ b. AreApart (names_in b.names) };
}

impl Bound {
    /// The text of the file.
    pub fn text(&self) -> &str
        ensures { AreApart self.now }
    {
        self.text.as_str()
    }
}

/// The file of a language. Where two things come to one name of it, none is made.
pub fn code_in(
    alloc: Global,
    source: Source<'_>,
    language: &'static Language,
) -> Result<Bound, BindFault> {
    let Draft { rows, names, .. } = drafted(alloc, source, language)?;
    let names = Items::from_vec(names);
    let named = names.as_slice();
    if let Some((first, second)) = first_clash(alloc, named)? {
        return Err(clash_of(alloc, &named[first], &named[second])?);
    }
    let text = Text::from_string(filled(alloc, language.code, rows.as_slice(), 0)?);
    Ok(Bound { text, names })
}

fn drafted(
    alloc: Global,
    source: Source<'_>,
    language: &'static Language,
) -> Result<Draft, AllocError> {
    let mut draft = Draft {
        language,
        rows: Vec::new(alloc),
        names: Vec::new(alloc),
        has_readers: source.readers.is_some(),
    };
    add_file(alloc, &mut draft, source)?;
    let Source {
        meters,
        instruments,
        recorders,
        readers,
    } = source;
    let types = KeyTypes::new(alloc, instruments)?;
    let numbers = add_types(alloc, &mut draft, types.all(), instruments, meters)?;
    let typed = Typed {
        types: &types,
        numbers: numbers.as_slice(),
    };
    add_seats(alloc, &mut draft, recorders)?;
    if let Some(readers) = readers {
        add_readers(alloc, &mut draft, readers)?;
    }
    add_meters(alloc, &mut draft, meters, instruments, typed)?;
    Ok(draft)
}

// Adds the file itself.
fn add_file(alloc: Global, draft: &mut Draft, source: Source<'_>) -> Result<(), AllocError> {
    let Source {
        instruments,
        recorders,
        readers,
        ..
    } = source;
    let mut file = Row::new(alloc, "", 0);
    file.put("instruments", number_text(alloc, instruments.len()));
    file.put("t", String::from_str(alloc, "\t"));
    file.put("recorders", number_text(alloc, recorders.len()));
    file.put_if(alloc, "has_seats", !recorders.is_empty());
    file.put_if(alloc, "has_instruments", !instruments.is_empty());
    let has_long = instruments
        .iter()
        .any(|own| own.keys.as_slice().iter().any(is_long));
    file.put_if(alloc, "has_long", has_long);
    let language = draft.language;
    let Some(readers) = readers else {
        draft.add_named(alloc, file, language.own, EACH_FILE)?;
        return Ok(());
    };
    file.put("readers", number_text(alloc, readers.len()));
    file.put_if(alloc, "has_readers", !readers.is_empty());
    draft.add_named(alloc, file, language.own, EACH_FILE)?;
    for name in language.readers.own {
        draft.add_name(alloc, String::from_str(alloc, name)?, EACH_FILE)?;
    }
    Ok(())
}

// Whose the names are that do not come from a catalogue.
const EACH_FILE: &str = "each file";

// The fault that two things have one name.
fn clash_of(alloc: Global, first: &Named, second: &Named) -> Result<BindFault, AllocError> {
    Ok(BindFault::Clash {
        name: Text::new(alloc, first.name.as_str())?,
        first: Text::new(alloc, first.whose.as_str())?,
        second: Text::new(alloc, second.whose.as_str())?,
    })
}
