//! Why there is no handle.
ghost use Rattle.std.specs.Prelude.{◌≡◌};

use metric_contents::Kind;
use std::fmt::{self, InlineText};
use thiserror::Error;

/// Why a name, a kind and keys or a meaning are of no instrument, in the order in which the faults are tried. Places are counted
/// from 0.
#[derive(Clone, Copy, Debug, PartialEq, Eq, Drop, Error)]
pub enum HandleFault {
    /// No meter of the catalogue has the name.
    #[error("the catalogue has no meter of this name")]
    UnknownMeter,
    /// A meter has the name, and none of those has an instrument of the other name.
    #[error("the meter has no instrument of this name")]
    UnknownInstrument,
    /// Several meters of the name, of different versions or schema URLs, have an instrument of the other name: the
    /// first is that of this number. Which one is meant, no name says.
    #[error("instrument {0} is not the only one of this name in meters of this name")]
    Ambiguous(usize),
    /// The instrument is declared to be of this kind.
    #[error("the instrument is declared as {0:?}")]
    OtherKind(Kind),
    /// The instrument is not what the program was made for.
    #[error("the instrument means something else")]
    OtherMeaning,
    /// The key at this place of the list stands again after it.
    #[error("key {0} of the list stands again after it")]
    RepeatedKey(usize),
    /// The instrument does not declare the key at this place of the list.
    #[error("key {0} of the list is not declared")]
    UnknownKey(usize),
    /// The instrument's key at this declared place may not be left out, and is not in the list.
    #[error("declared key {0} is not in the list, and may not be left out")]
    MissingKey(usize),
}

/// Why there is no handle, in words that name the meter, the instrument, and the key where it is about one, or in what
/// the instrument differs first.
#[derive(Clone, Copy)]
pub struct NoHandle {
    /// Why.
    pub fault: HandleFault,
    words: InlineText<200>,
}

impl NoHandle {
    // Why there is none of these names, and what the fault is about.
    pub(crate) fn new<D: fmt::Display + Drop>(
        meter: &str,
        name: &str,
        detail: Option<D>,
        fault: HandleFault,
    ) -> NoHandle
        ensures { result.fault ≡ fault }
    {
        let words = InlineText::of(About {
            meter,
            name,
            detail,
            fault,
        });
        NoHandle { fault, words }
    }
}

impl fmt::Display for NoHandle {
    fn fmt<W: fmt::Write>(&self, f: &mut fmt::Formatter<W>) -> fmt::Result {
        f.write_str(self.words.as_str())
    }
}

impl fmt::Debug for NoHandle {
    fn fmt<W: fmt::Write>(&self, f: &mut fmt::Formatter<W>) -> fmt::Result {
        f.write_str(self.words.as_str())
    }
}

impl std::error::Error for NoHandle {}

#[derive(Drop)]
struct About<'a, D> {
    meter: &'a str,
    name: &'a str,
    detail: Option<D>,
    fault: HandleFault,
}

impl<D: fmt::Display> fmt::Display for About<'_, D> {
    fn fmt<W: fmt::Write>(&self, f: &mut fmt::Formatter<W>) -> fmt::Result {
        write!(f, "{}/{}: {}", self.meter, self.name, self.fault)?;
        match &self.detail {
            Some(detail) => write!(f, ": {detail}"),
            None => Ok(()),
        }
    }
}
