//! What is told at a byte of any text.
ghost use Rattle.std.specs.Prelude.{◌≡◌, Some};
ghost use Rattle.metric_messages.specs.Bytes.{byte_position};

use crate::diagnosis::Diagnosis;
use crate::marked::after_all;
use crate::sources::NamedText;
use metric_lint::Position;

/// What a person is told, in these words, at a byte of a text.
pub fn diagnose_at<'t, F>(
    source: NamedText<'t>,
    fault: F,
    at: usize,
    words: String,
) -> Diagnosis<'t, F>
    ensures fault { result.fault ≡ fault }
    ensures file { result.file.now ≡ source.entry.name.now }
    ensures place { result.position ≡ Some (byte_position source.entry.text.now at) }
{
    let position = position_of(source.text, at);
    Diagnosis::new(source, fault, Some(position), words)
}

// The line and the column of a byte of a text.
fn position_of(text: &str, at: usize) -> Position
    ensures { result ≡ byte_position text.now at }
{
    let bytes = text.as_bytes();
    after_all(bytes.split_at(at.min(bytes.len())).0)
}
