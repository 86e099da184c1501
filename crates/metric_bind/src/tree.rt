//! What a catalogue declares, as a template may ask for it: things with texts, each within another one.
use metric_base::Text;
use std::alloc::{AllocError, Global};

// How many things stand one in another, at most.
const DEPTH: usize = 6;

/// A text of a thing, by the name of its place in a template.
#[derive(Drop)]
pub(crate) struct Field {
    name: &'static str,
    text: String,
}

/// A thing: in which list of which other one it stands, and its texts.
#[derive(Drop)]
pub(crate) struct Row {
    list: &'static str,
    above: usize,
    link: usize,
    fields: Vec<Field>,
    is_lost: bool,
}

impl Row {
    /// A thing of a list of another one, without texts.
    pub(crate) fn new(alloc: Global, list: &'static str, above: usize) -> Row {
        Row {
            list,
            above,
            link: 0,
            fields: Vec::new(alloc),
            is_lost: false,
        }
    }

    /// The same, which leads to a thing that stands elsewhere, as a key to its type.
    pub(crate) fn linked(alloc: Global, list: &'static str, above: usize, link: usize) -> Row {
        Row {
            list,
            above,
            link,
            fields: Vec::new(alloc),
            is_lost: false,
        }
    }

    /// Gives it a text, where that could be made; else it is lost.
    pub(crate) fn put(&mut self, name: &'static str, text: Result<String, AllocError>) {
        if !self.is_put(name, text) {
            self.is_lost = true;
        }
    }

    fn is_put(&mut self, name: &'static str, text: Result<String, AllocError>) -> bool {
        match text {
            Ok(text) => self.fields.push(Field { name, text }).is_ok(),
            Err(_) => false,
        }
    }

    /// Gives it a text that says that something holds, if it does.
    pub(crate) fn put_if(&mut self, alloc: Global, name: &'static str, holds: bool) {
        if holds {
            self.put(name, String::from_str(alloc, "1"));
        }
    }

    /// Whether memory ran out for one of its texts.
    pub(crate) fn is_lost(&self) -> bool {
        self.is_lost
    }

    fn is_in(&self, above: usize, list: &str) -> bool {
        self.above == above && self.list == list
    }

    fn text(&self, name: &str) -> Option<&str> {
        let field = self.fields.iter().find(|field| field.name == name)?;
        Some(field.text.as_str())
    }
}

/// A name of a file, and whose it is.
#[derive(Drop)]
pub(crate) struct Named {
    /// The name, as the whole file knows it.
    pub name: Text,
    /// Whose it is, for people.
    pub whose: Text,
}

/// The text of a thing, or of what it stands in; else the empty one.
pub(crate) fn text_of<'r>(rows: &'r [Row], row: usize, name: &str) -> &'r str {
    let mut at = row;
    for _ in 0..DEPTH {
        let Some(own) = rows.get(at) else {
            return "";
        };
        if let Some(text) = own.text(name) {
            return text;
        }
        at = own.above;
    }
    ""
}

/// The first thing from a place on that stands in a list of this one. What stands in a thing follows it, up to the first
/// that stands in an earlier one.
pub(crate) fn child_from(rows: &[Row], above: usize, list: &str, from: usize) -> Option<usize> {
    let rest = rows.get(from..)?;
    let place = rest
        .iter()
        .take_while(|row| row.above >= above)
        .position(|row| row.is_in(above, list))?;
    Some(from.saturating_add(place))
}

/// The thing that this one leads to, where it leads to one.
pub(crate) fn link_of(rows: &[Row], row: usize) -> Option<usize> {
    match rows.get(row) {
        Some(row) if row.link > 0 => Some(row.link),
        _ => None,
    }
}

/// Whether a thing is the first of its list. The one before it is looked for from here on backwards, which is near.
pub(crate) fn is_first(rows: &[Row], row: usize) -> bool {
    let (Some(own), Some(before)) = (rows.get(row), rows.get(..row)) else {
        return false;
    };
    !before
        .iter()
        .rev()
        .take_while(|other| other.above >= own.above)
        .any(|other| other.is_in(own.above, own.list))
}
