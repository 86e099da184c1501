//! Printable ASCII characters.
ghost use Rattle.std.specs.Prelude.{◌≡◌};
ghost use Rattle.metric_names.specs.Names.{first_other};
ghost use Rattle.metric_names.specs.Units.{is_printable};

/// The place of the first byte that is no printable ASCII character, from space to tilde.
pub fn first_other_than_printable(text: &[u8]) -> Option<usize>
    ensures { result ≡ first_other is_printable text.now }
{
    text.iter().position(|byte| !(32..=126).contains(byte))
}
