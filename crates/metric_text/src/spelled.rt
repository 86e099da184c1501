//! Values with one spelling, and lists of them.
ghost use Rattle.std.specs.Prelude.{◌≡◌, ◌∷◌, ◌++◌, OnOk};
ghost use Rattle.std.specs.List.{flat_map};
ghost use Rattle.metric_text.specs.Lists.{joined, list_text};

use crate::quotes::push_quoted;
use crate::writing::{push_byte, push_number, push_signed};
use metric_base::Text;
use std::alloc::AllocError;

/// A value that is written in one way.
pub trait Spelled {
    ghost use Rattle.std.specs.Prelude.{ℕ, List};

    ghost text: { Self → List ℕ };

    /// Writes the value.
    fn push(&self, out: &mut Vec<u8>) -> Result<(), AllocError>
        ensures { OnOk result (out.new.items ≡ out.old.items ++ text self.now) };
}

/// Writes each value, with commas between.
pub fn push_joined<T: Spelled>(out: &mut Vec<u8>, values: &[T]) -> Result<(), AllocError>
    ensures { OnOk result (out.new.items ≡ out.old.items ++ joined T.text values.now) }
{
    match values.split_first() {
        None => Ok(()),
        Some((first, others)) => {
            first.push(out)?;
            push_more(out, others)
        }
    }
}

/// Writes each value, with commas between and in brackets.
pub fn push_list<T: Spelled>(out: &mut Vec<u8>, values: &[T]) -> Result<(), AllocError>
    ensures { OnOk result (out.new.items ≡ out.old.items ++ list_text T.text values.now) }
{
    push_byte(out, b'[')?;
    push_joined(out, values)?;
    push_byte(out, b']')
}

// Writes each value with a comma before it.
#[tactic(auto, using(crate::specs::ListLaws::steps))]
fn push_more<T: Spelled>(out: &mut Vec<u8>, values: &[T]) -> Result<(), AllocError>
    ensures { OnOk result (out.new.items
        ≡ out.old.items ++ flat_map (λ x. 44 ∷ T.text x) values.now) }
{
    for value in values {
        push_byte(out, b',')?;
        value.push(out)?;
    }
    Ok(())
}

impl Spelled for u64 {
    ghost use Rattle.std.specs.Fmt.{decimal};

    ghost text = { decimal };

    fn push(&self, out: &mut Vec<u8>) -> Result<(), AllocError> {
        push_number(out, *self)
    }
}

impl Spelled for i64 {
    ghost use Rattle.std.specs.Fmt.{signed_decimal};

    ghost text = { signed_decimal };

    fn push(&self, out: &mut Vec<u8>) -> Result<(), AllocError> {
        push_signed(out, *self)
    }
}

impl Spelled for Text {
    ghost use Rattle.metric_text.specs.Written.{quoted};

    ghost text = { quoted };

    fn push(&self, out: &mut Vec<u8>) -> Result<(), AllocError> {
        push_quoted(out, self.as_str())
    }
}
