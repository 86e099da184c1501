//! Units of measure.
ghost use Rattle.std.specs.Prelude.{◌≡◌, IfOk, IsOkUnless};
ghost use Rattle.metric_base.specs.Steps.{Gives};
ghost use Rattle.metric_names.specs.Units.{CheckedUnit, IsUnit, unit_of};

use crate::printable::first_other_than_printable;
use metric_base::{Copied, Text};
use std::alloc::{AllocError, Global};
use std::marker::Model;
use thiserror::Error;

/// A unit: 0 to 63 printable ASCII characters, compared by bytes (Metrics API, instrument unit; that
/// each of its characters is printable is this product's own choice).
#[derive(Drop)]
pub struct Unit {
    text: Text,
}

impl Model for Unit {
    ghost use Rattle.std.specs.Prelude.{ℕ, List};
    ghost use Rattle.metric_names.specs.Units.{IsUnit};

    ghost Value = { List ℕ };

    ghost view = { λ n. n.text };

    ghost invariant = { λ n. IsUnit n.text };
}

/// Why a text is no unit.
#[derive(Clone, Copy, Debug, PartialEq, Eq, Drop, Error)]
pub enum UnitFault {
    /// The character at this place, counted from 0, is the first that is not printable ASCII.
    #[error("1 BadCharacter at {at}")]
    BadCharacter {
        /// The character's place.
        at: usize,
    },
    /// The text has more than 63 characters.
    #[error("2 TooLong")]
    TooLong,
    /// Out of memory.
    #[error("3 Memory")]
    Memory,
}

impl From<AllocError> for UnitFault {
    ghost use Rattle.metric_names.specs.declared.unit.UnitFault.TheVariants.{Memory};

    ghost from_gives = { λ _ e. e ≡ Memory };

    fn from(_refused: AllocError) -> UnitFault {
        UnitFault::Memory
    }
}

impl Unit {
    /// The unit that a text is (Metrics API, instrument unit). The faults are tried in the order in
    /// which `UnitFault` lists them.
    pub fn parse(alloc: Global, text: &str) -> Result<Unit, UnitFault>
        ensures exact { Gives UnitFault.Memory result (unit_of text.now) }
        ensures unit { IfOk result IsUnit }
        ensures accepts { IsUnit text.now → IsOkUnless result UnitFault.Memory }
    {
        check(text.as_bytes())?;
        let text = Text::new(alloc, text)?;
        Ok(Unit { text })
    }

    /// The unit's text.
    pub fn as_str(&self) -> &str
        ensures text { result.now ≡ self.now }
        ensures unit { IsUnit self.now }
    {
        self.text.as_str()
    }
}

impl Copied for Unit {
    fn copy(&self, alloc: Global) -> Result<Unit, AllocError> {
        let text = self.text.copy(alloc)?;
        Ok(Unit { text })
    }
}

// Finds the first fault of a text as a unit.
fn check(text: &[u8]) -> Result<(), UnitFault>
    ensures { CheckedUnit text.now result }
{
    if let Some(at) = first_other_than_printable(text) {
        return Err(UnitFault::BadCharacter { at });
    }
    if text.len() > 63 {
        return Err(UnitFault::TooLong);
    }
    Ok(())
}
