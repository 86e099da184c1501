//! A file, as far as it is drafted.
use crate::engine::filled;
use crate::language::Language;
use crate::naming::{Style, names_of};
use crate::quoting::{quoted, said};
use crate::tree::{Named, Row};
use metric_base::Text;
use metric_names::ValueRef;
use std::alloc::{AllocError, Global};

/// The things of a file, each behind the one that it stands in, and the names that the file has of them.
#[derive(Drop)]
pub(crate) struct Draft {
    /// The language.
    pub language: &'static Language,
    /// The things. The first is the file itself.
    pub rows: Vec<Row>,
    /// The names.
    pub names: Vec<Named>,
    /// Whether readers are known by their names.
    pub has_readers: bool,
}

impl Draft {
    /// Puts a thing last. Its number. Fails where memory ran out, also for one of its texts.
    pub(crate) fn add(&mut self, row: Row) -> Result<usize, AllocError> {
        if row.is_lost() {
            return Err(AllocError);
        }
        let number = self.rows.len();
        self.rows.push(row)?;
        Ok(number)
    }

    /// Puts a thing last that has names, which are those of `whose` for people. Its number.
    pub(crate) fn add_named(
        &mut self,
        alloc: Global,
        row: Row,
        whole: &[&'static str],
        whose: &str,
    ) -> Result<usize, AllocError> {
        let number = self.add(row)?;
        for template in whole {
            let name = filled(alloc, &[*template], self.rows.as_slice(), number)?;
            self.add_name(alloc, name, whose)?;
        }
        Ok(number)
    }

    /// Puts a name last.
    pub(crate) fn add_name(
        &mut self,
        alloc: Global,
        name: String,
        whose: &str,
    ) -> Result<(), AllocError> {
        let name = Text::from_string(name);
        let whose = Text::new(alloc, whose)?;
        self.names.push(Named { name, whose })?;
        Ok(())
    }

    /// How the types of keys are named.
    pub(crate) fn types(&self) -> Style {
        if self.has_readers {
            self.language.readers.types
        } else {
            self.language.types.style
        }
    }

    /// How meters are named.
    pub(crate) fn meters(&self) -> Style {
        if self.has_readers {
            self.language.readers.meters
        } else {
            self.language.meters.style
        }
    }

    /// A text in the quotes of the language.
    pub(crate) fn quoted(&self, alloc: Global, text: &str) -> Result<String, AllocError> {
        quoted(alloc, text, self.language.quotes)
    }
}

/// Names for texts. Fails only when out of memory.
pub(crate) fn names_of_texts(
    alloc: Global,
    texts: &[&str],
    style: Style,
) -> Result<Vec<String>, AllocError> {
    let mut things = Vec::new(alloc);
    for text in texts {
        things.push(ValueRef::Text(*text))?;
    }
    names_of(alloc, things.as_slice(), style)
}

/// The text of a number in decimal. Fails only when out of memory.
pub(crate) fn number_text(alloc: Global, number: usize) -> Result<String, AllocError> {
    format!(in alloc; "{number}")
}

/// The text of a number in a list, else the empty one.
pub(crate) fn text_at(texts: &[String], number: usize) -> &str {
    match texts.get(number) {
        Some(text) => text.as_str(),
        None => "",
    }
}

/// Gives a thing a text, and what comments say of it.
pub(crate) fn put_text(
    alloc: Global,
    draft: &Draft,
    row: &mut Row,
    names: [&'static str; 2],
    text: &str,
) {
    let [quoted, shown] = names;
    row.put(quoted, draft.quoted(alloc, text));
    row.put(shown, said(alloc, text));
}
