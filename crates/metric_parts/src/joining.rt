//! Lines joined to a text.
ghost use Rattle.std.specs.Prelude.{◌≡◌, ◌∷◌, ◌++◌, IfOk, IsTrue, OnOk};
ghost use Rattle.std.specs.List.{flat_map, list_all};
ghost use Rattle.metric_parts.specs.Input.{is_content};
ghost use Rattle.metric_parts.specs.Reading.{texts};
ghost use Rattle.metric_parts.specs.Texts.{joined};

use metric_base::Text;
use std::alloc::{AllocError, Global};

/// The contents of a part with a line feed between each two lines.
pub fn joined(alloc: Global, lines: &[&[u8]]) -> Result<Text, AllocError>
    requires { IsTrue (list_all is_content (texts lines.now)) }
    ensures { IfOk result (λ text. text ≡ joined (texts lines.now)) }
{
    let bytes = joined_bytes(alloc, lines)?;
    Ok(Text::from_string(String::from_utf8(bytes).unwrap()))
}

fn joined_bytes(alloc: Global, lines: &[&[u8]]) -> Result<Vec<u8>, AllocError>
    ensures { IfOk result (λ bytes. bytes.items ≡ joined (texts lines.now)) }
{
    let mut bytes = Vec::new(alloc);
    if let Some((first, others)) = lines.split_first() {
        bytes.extend_from_slice(first)?;
        push_lines(&mut bytes, others)?;
    }
    Ok(bytes)
}

fn push_lines(bytes: &mut Vec<u8>, lines: &[&[u8]]) -> Result<(), AllocError>
    ensures { OnOk result (bytes.new.items
        ≡ bytes.old.items ++ flat_map (λ line. 10 ∷ line) (texts lines.now)) }
{
    for line in lines {
        bytes.push(b'\n')?;
        bytes.extend_from_slice(line)?;
    }
    Ok(())
}
