//! Instrument names.
ghost use Rattle.std.specs.Prelude.{◌≡◌, ◌↔◌, IsTrue, IfOk, IsOkUnless};
ghost use Rattle.std.specs.Char.{is_ascii_alphabetic};
ghost use Rattle.metric_base.specs.Steps.{Gives};
ghost use Rattle.metric_names.specs.Names.{CheckedName, IsName, IsSameName, first_other, fold_order, is_name_character, name_of};

use metric_base::{Copied, Text};
use std::alloc::{AllocError, Global};
use std::cmp::Ordering;
use std::marker::Model;
use thiserror::Error;

/// An instrument name: an ASCII letter followed by 0 to 254 ASCII letters, digits, `_`, `.`, `-` or
/// `/` (Metrics API, instrument name syntax). Names are compared without ASCII case.
#[derive(Drop)]
pub struct Name {
    text: Text,
}

impl Model for Name {
    ghost use Rattle.std.specs.Prelude.{ℕ, List};
    ghost use Rattle.metric_names.specs.Names.{IsName};

    ghost Value = { List ℕ };

    ghost view = { λ n. n.text };

    ghost invariant = { λ n. IsName n.text };
}

/// Why a text is no instrument name.
#[derive(Clone, Copy, Debug, PartialEq, Eq, Drop, Error)]
pub enum NameFault {
    /// The text has no characters.
    #[error("1 Empty")]
    Empty,
    /// The first character is no ASCII letter.
    #[error("2 FirstLetter")]
    FirstLetter,
    /// The character at this place, counted from 0, is the first that no name has.
    #[error("3 BadCharacter at {at}")]
    BadCharacter {
        /// The character's place.
        at: usize,
    },
    /// The text has more than 255 characters.
    #[error("4 TooLong")]
    TooLong,
    /// Out of memory.
    #[error("5 Memory")]
    Memory,
}

impl From<AllocError> for NameFault {
    ghost use Rattle.metric_names.specs.declared.name.NameFault.TheVariants.{Memory};

    ghost from_gives = { λ _ e. e ≡ Memory };

    fn from(_refused: AllocError) -> NameFault {
        NameFault::Memory
    }
}

impl Name {
    /// The name that a text is (Metrics API, instrument name syntax). The faults are tried in the
    /// order in which `NameFault` lists them.
    pub fn parse(alloc: Global, text: &str) -> Result<Name, NameFault>
        ensures exact { Gives NameFault.Memory result (name_of text.now) }
        ensures name { IfOk result IsName }
        ensures accepts { IsName text.now → IsOkUnless result NameFault.Memory }
    {
        check(text.as_bytes())?;
        let text = Text::new(alloc, text)?;
        Ok(Name { text })
    }

    /// The name's text.
    pub fn as_str(&self) -> &str
        ensures text { result.now ≡ self.now }
        ensures name { IsName self.now }
    {
        self.text.as_str()
    }

    /// Whether both names are the same without ASCII case (Metrics API, instrument name syntax).
    pub fn same(&self, other: &Name) -> bool
        ensures { IsTrue result ↔ IsSameName self.now other.now }
    {
        self.as_str().eq_ignore_ascii_case(other.as_str())
    }

    /// The order of both names' texts by bytes, without ASCII case.
    pub fn fold_order(&self, other: &Name) -> Ordering
        ensures { result ≡ fold_order self.now other.now }
    {
        folded_order(self.as_str().as_bytes(), other.as_str().as_bytes())
    }
}

impl Copied for Name {
    fn copy(&self, alloc: Global) -> Result<Name, AllocError> {
        let text = self.text.copy(alloc)?;
        Ok(Name { text })
    }
}

// Finds the first fault of a text as a name.
fn check(text: &[u8]) -> Result<(), NameFault>
    ensures { CheckedName text.now result }
{
    let first = text.first().ok_or(NameFault::Empty)?;
    if !first.is_ascii_alphabetic() {
        return Err(NameFault::FirstLetter);
    }
    if let Some(at) = first_other_than_name_character(text) {
        return Err(NameFault::BadCharacter { at });
    }
    if text.len() > 255 {
        return Err(NameFault::TooLong);
    }
    Ok(())
}

fn first_other_than_name_character(text: &[u8]) -> Option<usize>
    ensures { result ≡ first_other is_name_character text.now }
{
    text.iter().position(|byte| !is_character_of_name(*byte))
}

fn is_character_of_name(byte: u8) -> bool
    ensures { result ≡ is_name_character byte }
{
    byte.is_ascii_alphanumeric() || matches!(byte, b'_' | b'.' | b'-' | b'/')
}

fn folded_order(left: &[u8], right: &[u8]) -> Ordering
    ensures { result ≡ fold_order left.now right.now }
{
    let (mut left, mut right) = (left, right);
    while let [first, others @ ..] = left {
        let [other, rest @ ..] = right else {
            return Ordering::Greater;
        };
        match first.to_ascii_lowercase().cmp(&other.to_ascii_lowercase()) {
            Ordering::Equal => (left, right) = (others, rest),
            order => return order,
        }
    }
    0.cmp(&right.len())
}
