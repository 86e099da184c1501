//! Labels with what they name.
ghost use Rattle.std.specs.Prelude.{◌≡◌, ◌++◌, OnOk};
ghost use Rattle.metric_text.specs.Lists.{labelled, numbered};

use crate::quotes::push_quoted;
use crate::writing::{push_number, push_text};
use std::alloc::AllocError;

/// Writes a label and a text in quotes.
#[tactic(auto, unfolding(crate::specs::Lists::labelled))]
pub fn push_labelled(out: &mut Vec<u8>, label: &str, text: &str) -> Result<(), AllocError>
    ensures { OnOk result (out.new.items ≡ out.old.items ++ labelled label.now text.now) }
{
    push_text(out, label)?;
    push_quoted(out, text)
}

/// Writes a label and a number.
#[tactic(auto, unfolding(crate::specs::Lists::numbered))]
pub fn push_numbered(out: &mut Vec<u8>, label: &str, number: u64) -> Result<(), AllocError>
    ensures { OnOk result (out.new.items ≡ out.old.items ++ numbered label.now number) }
{
    push_text(out, label)?;
    push_number(out, number)
}
