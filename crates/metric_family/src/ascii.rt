//! Texts of ASCII bytes.
ghost use Rattle.std.specs.Prelude.{◌≡◌, IsUtf8};

use metric_base::Text;

/// The text of these bytes. Allocates no memory.
pub(crate) fn text_of_ascii(bytes: Vec<u8>) -> Text
    requires { IsUtf8 bytes.items }
    ensures { result ≡ bytes.items }
{
    Text::from_string(String::from_utf8(bytes).unwrap())
}
