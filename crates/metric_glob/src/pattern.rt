//! Patterns of instrument names.
ghost use Rattle.std.specs.Prelude.{◌≡◌, ◌↔◌, ◌∷◌, [], IsTrue, IfOk, IsOkUnless};
ghost use Rattle.metric_base.specs.Steps.{Gives};
ghost use Rattle.metric_glob.specs.Matching.{Matches, any_text, is_match};
ghost use Rattle.metric_glob.specs.Patterns.{CheckedPattern, IsPattern, pattern_of};
ghost use Rattle.metric_glob.specs.Reasons.{Confirms, Shows};

use crate::confirming::is_confirmed;
use crate::matching::matches_text;
use crate::reason::Reason;
use crate::why::why_text;
use metric_base::{Copied, Text};
use metric_names::{Name, first_other_than_printable};
use std::alloc::{AllocError, Global};
use std::marker::Model;
use thiserror::Error;

/// A pattern of instrument names: 1 to 255 printable ASCII characters (Metrics SDK, instrument
/// selection criteria, name). A `*` stands for any number of characters, none included, and a `?` for
/// exactly one. Each other character stands for itself, without ASCII case. There is no escape.
#[derive(Drop)]
pub struct Pattern {
    text: Text,
}

impl Model for Pattern {
    ghost use Rattle.std.specs.Prelude.{ℕ, List};
    ghost use Rattle.metric_glob.specs.Patterns.{IsPattern};

    ghost Value = { List ℕ };

    ghost view = { λ p. p.text };

    ghost invariant = { λ p. IsPattern p.text };
}

/// Why a text is no pattern.
#[derive(Clone, Copy, Debug, PartialEq, Eq, Drop, Error)]
pub enum PatternFault {
    /// The text has no characters.
    #[error("1 Empty")]
    Empty,
    /// The character at this place, counted from 0, is the first that is not printable ASCII.
    #[error("2 BadCharacter at {at}")]
    BadCharacter {
        /// The character's place.
        at: usize,
    },
    /// The text has more than 255 characters.
    #[error("3 TooLong")]
    TooLong,
    /// Out of memory.
    #[error("4 Memory")]
    Memory,
}

impl From<AllocError> for PatternFault {
    ghost use Rattle.metric_glob.specs.declared.pattern.PatternFault.TheVariants.{Memory};

    ghost from_gives = { λ _ e. e ≡ Memory };

    fn from(_refused: AllocError) -> PatternFault {
        PatternFault::Memory
    }
}

impl Pattern {
    /// The pattern that a text is. The faults are tried in the order in which `PatternFault` lists
    /// them.
    pub fn parse(alloc: Global, text: &str) -> Result<Pattern, PatternFault>
        ensures exact { Gives PatternFault.Memory result (pattern_of text.now) }
        ensures pattern { IfOk result IsPattern }
        ensures accepts { IsPattern text.now → IsOkUnless result PatternFault.Memory }
    {
        check(text.as_bytes())?;
        let text = Text::new(alloc, text)?;
        Ok(Pattern { text })
    }

    /// The pattern that every name matches, `*`. Fails only when out of memory.
    pub fn any(alloc: Global) -> Result<Pattern, AllocError>
        ensures { IfOk result (λ pattern. pattern ≡ any_text ∷ []) }
    {
        match Pattern::parse(alloc, "*") {
            Ok(pattern) => Ok(pattern),
            Err(_) => Err(AllocError),
        }
    }

    /// The pattern's text.
    pub fn as_str(&self) -> &str
        ensures text { result.now ≡ self.now }
        ensures pattern { IsPattern self.now }
    {
        self.text.as_str()
    }

    /// Whether a name matches (Metrics SDK, instrument selection criteria, name). Allocates no memory.
    pub fn matches(&self, name: &Name) -> bool
        ensures test { IsTrue result ↔ Matches self.now name.now }
        ensures value { result ≡ is_match self.now name.now }
    {
        matches_text(self.as_str().as_bytes(), name.as_str().as_bytes())
    }

    /// Whether a reason is true of this pattern and a name, by looking at nothing but the reason's own numbers. A
    /// reason may have any numbers whatever. Allocates no memory.
    pub fn confirms(&self, name: &Name, reason: &Reason) -> bool
        ensures confirmed { IsTrue result ↔ Confirms self.now name.now reason.now }
        ensures shown { IsTrue result → Shows self.now name.now reason.now }
    {
        is_confirmed(self.as_str().as_bytes(), name.as_str().as_bytes(), reason)
    }

    /// Why a name matches, or why it does not: the first takes in list order, or the least rows. Fails only when out of
    /// memory.
    pub fn why(&self, alloc: Global, name: &Name) -> Result<Reason, AllocError>
        ensures confirmed { IfOk result (Confirms self.now name.now) }
        ensures shown { IfOk result (Shows self.now name.now) }
    {
        why_text(alloc, self.as_str().as_bytes(), name.as_str().as_bytes())
    }
}

impl Copied for Pattern {
    fn copy(&self, alloc: Global) -> Result<Pattern, AllocError> {
        let text = self.text.copy(alloc)?;
        Ok(Pattern { text })
    }
}

// Finds the first fault of a text as a pattern.
fn check(text: &[u8]) -> Result<(), PatternFault>
    ensures { CheckedPattern text.now result }
{
    if text.is_empty() {
        return Err(PatternFault::Empty);
    }
    if let Some(at) = first_other_than_printable(text) {
        return Err(PatternFault::BadCharacter { at });
    }
    if text.len() > 255 {
        return Err(PatternFault::TooLong);
    }
    Ok(())
}
