//! What tells languages apart.
use crate::naming::Style;
use crate::quoting::Quotes;

/// How things of one kind are called in a file: how each is named, and what whole-file names come of that.
#[derive(Clone, Copy, Drop)]
pub(crate) struct Names {
    /// How each is named.
    pub style: Style,
    /// A template for each name that the whole file knows.
    pub whole: &'static [&'static str],
}

/// What a file has where readers are known by their names, too.
#[derive(Clone, Copy, Drop)]
pub(crate) struct Readers {
    /// The names of the readers.
    pub names: Names,
    /// The names that such a file has beside those of each file.
    pub own: &'static [&'static str],
    /// How the types of keys are named there.
    pub types: Style,
    /// How meters are named there.
    pub meters: Style,
}

/// A language that code is made for: its names, its quotes, and the templates of a file.
#[derive(Clone, Copy, Drop)]
pub struct Language {
    /// The names that each file has.
    pub(crate) own: &'static [&'static str],
    /// Those of the types of keys.
    pub(crate) types: Names,
    /// Those of values.
    pub(crate) values: Names,
    /// Those of meters.
    pub(crate) meters: Names,
    /// Those of instruments.
    pub(crate) instruments: Names,
    /// Those of keys, as parameters of a call.
    pub(crate) keys: Names,
    /// Those of recorders.
    pub(crate) seats: Names,
    /// What comes with readers.
    pub(crate) readers: Readers,
    /// Whether recorders that are numbered from 0 are a list.
    pub(crate) has_lists: bool,
    /// How texts are quoted.
    pub(crate) quotes: Quotes,
    /// The templates of a file.
    pub(crate) code: &'static [&'static str],
}
