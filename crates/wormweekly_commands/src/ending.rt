//! Whether the recordings of instruments last.
ghost use Rattle.std.specs.Prelude.{◌≡◌};
ghost use Rattle.wormweekly_commands.specs.Lasting.{ends_early, some_end_early};

use metric_command_lines::Options;
use metric_lint::Headroom;

/// Whether all that may be recorded on an instrument is recorded, at the rate, before the time is over that it is to
/// last. Where no time is said it never is.
pub(crate) fn ends_early(options: Options, room: &Headroom) -> bool
    ensures { result ≡ ends_early options room.now }
{
    room.total < u128::from(options.rate) * u128::from(options.lasts)
}

/// Whether it is so of some instrument.
pub(crate) fn some_end_early(options: Options, rooms: &[Headroom]) -> bool
    ensures { result ≡ some_end_early options rooms.now }
{
    rooms.iter().any(|room| ends_early(options, room))
}
