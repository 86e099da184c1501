//! Why a text is no TOML.
ghost use Rattle.std.specs.Prelude.{IfOk};
ghost use Rattle.metric_messages.specs.Marks.{IsMarked};
ghost use Rattle.metric_messages.specs.declared.spot.Spot.TheVariants.{Text};

use crate::marked::marked;
use crate::spot::Spot;
use metric_lint::Position;
use std::alloc::{AllocError, Global};
use toml::de::Error;

// Where a text that is no TOML breaks off, and why.
pub(crate) fn toml_message(
    alloc: Global,
    text: &str,
) -> Result<(Option<Position>, String), AllocError>
    ensures { IfOk result (λ told. IsMarked text.now Text told.0) }
{
    match toml::table_from_str(alloc, text) {
        Ok(_) => Ok((None, String::from_str(alloc, "not valid TOML")?)),
        Err(error) => {
            let position = position_of(text, &error);
            let words = error_message(alloc, error)?;
            Ok((position, words))
        }
    }
}

// Why a text is not TOML, unless memory ran out.
pub(crate) fn error_message(alloc: Global, error: Error) -> Result<String, AllocError> {
    if error.is_memory() {
        return Err(AllocError);
    }
    let message = error.message();
    format!(in alloc; "not valid TOML: {message}")
}

// What is reported when out of memory.
pub(crate) const MEMORY: &str = "out of memory";

pub(crate) fn want_of_memory(alloc: Global) -> Result<String, AllocError> {
    String::from_str(alloc, MEMORY)
}

// Where a reader of TOML stopped.
fn position_of(text: &str, error: &Error) -> Option<Position>
    ensures { IsMarked text.now Text result }
{
    marked(text.as_bytes(), error.span()?.start, Spot::Text)
}
