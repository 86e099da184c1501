//! Texts with what is escaped in them.
ghost use Rattle.std.specs.Prelude.{◌≡◌, ◌++◌, OnOk};
ghost use Rattle.metric_exposition.specs.LabelTexts.{escape, escaped};

use metric_text::{push_byte, push_text};
use std::alloc::AllocError;

/// Writes a text: a backslash and a line feed with a backslash before them, quotes too where they are escaped, and
/// every other byte as itself.
#[tactic(auto, unfolding(crate::specs::LabelTexts::escaped), using(metric_text::specs::ListLaws::steps))]
pub(crate) fn push_escaped(out: &mut Vec<u8>, quotes: bool, text: &[u8]) -> Result<(), AllocError>
    ensures { OnOk result (out.new.items ≡ out.old.items ++ escaped quotes text.now) }
{
    for byte in text {
        push_escape(out, quotes, *byte)?;
    }
    Ok(())
}

fn push_escape(out: &mut Vec<u8>, quotes: bool, byte: u8) -> Result<(), AllocError>
    ensures { OnOk result (out.new.items ≡ out.old.items ++ escape quotes byte) }
{
    match byte {
        b'\\' => push_text(out, "\\\\"),
        b'\n' => push_text(out, "\\n"),
        b'"' if quotes => push_text(out, "\\\""),
        _ => push_byte(out, byte),
    }
}
