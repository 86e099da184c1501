//! The position of a fault in a text.
ghost use Rattle.std.specs.Prelude.{◌≡◌, ◌≤◌, ◌+◌, length};
ghost use Rattle.metric_messages.specs.Marks.{IsMarked, after, after_all, goes_on, start};

use crate::spot::Spot;
use crate::standing_tables::stands;
use metric_lint::Position;

// The position of a byte of a text, where that is the place of a fault.
pub(crate) fn marked(text: &[u8], start: usize, spot: Spot) -> Option<Position>
    ensures { IsMarked text.now spot result }
{
    if start > text.len() {
        return None;
    }
    let (before, rest) = text.split_at(start);
    if stands(text, spot, before, rest) {
        Some(after_all(before))
    } else {
        None
    }
}

// The position after these bytes.
pub(crate) fn after_all(bytes: &[u8]) -> Position
    ensures { result ≡ after_all start bytes.now }
{
    let mut place = Position { line: 1, column: 1 };
    for byte in bytes {
        place = after(place, *byte);
    }
    place
}

fn after(place: Position, byte: u8) -> Position
    requires line { place.line ≤ 18446744073709551614 }
    requires column { place.column ≤ 18446744073709551614 }
    ensures exact { result ≡ after place byte }
    ensures line { result.line ≤ place.line + 1 }
    ensures column { result.column ≤ place.column + 1 }
{
    if byte == b'\n' {
        Position {
            line: place.line + 1,
            column: 1,
        }
    } else if goes_on(byte) {
        place
    } else {
        Position {
            line: place.line,
            column: place.column + 1,
        }
    }
}

// Whether a byte goes on with a character.
fn goes_on(byte: u8) -> bool
    ensures { result ≡ goes_on byte }
{
    128 <= byte && byte <= 191
}
