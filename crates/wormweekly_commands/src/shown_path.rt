//! What a file is called where something is told of it.
ghost use Rattle.std.specs.Prelude.{◌≡◌};
ghost use Rattle.wormweekly_commands.specs.Told.{shown};

use metric_command_lines::is_standard;

/// The path of a file that is read, or `<stdin>`.
pub(crate) fn shown(path: &str) -> &str
    ensures { result.now ≡ shown path.now }
{
    if is_standard(path) { "<stdin>" } else { path }
}
