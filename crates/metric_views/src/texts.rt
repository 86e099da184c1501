//! The texts of a stream.
ghost use Rattle.std.specs.Prelude.{◌≡◌, IfOk};

use metric_base::{Copied, Shared, Text};
use metric_names::{Name, Unit};
use std::alloc::{AllocError, Global};

// What a stream is called, what it is said to be, and in which unit it is.
#[derive(Drop)]
pub(crate) struct Texts {
    pub(crate) name: Shared<Name>,
    pub(crate) description: Shared<Text>,
    pub(crate) unit: Shared<Unit>,
}

// Copies of these texts. Fails only when out of memory.
pub(crate) fn copied_texts(
    alloc: Global,
    name: &Shared<Name>,
    description: &Shared<Text>,
    unit: &Shared<Unit>,
) -> Result<Texts, AllocError>
    ensures name { IfOk result (λ texts. texts.name ≡ name.now) }
    ensures description { IfOk result (λ texts. texts.description ≡ description.now) }
    ensures unit { IfOk result (λ texts. texts.unit ≡ unit.now) }
{
    let name = name.copy(alloc)?;
    let description = description.copy(alloc)?;
    let unit = unit.copy(alloc)?;
    Ok(Texts {
        name,
        description,
        unit,
    })
}
