//! What the definition of a replay's output entails.
ghost use Rattle.std.specs.Prelude.{◌≡◌, ℕ, List};
ghost use Rattle.metric_kit_commands.specs.declared.options.ReplayOptions.{ReplayOptions};
ghost use Rattle.metric_kit_commands.specs.Replaying.{IsOutput};

use metric_parts::one_reading;
use metric_script::one_script;

/// An input has one output. So [`replay`](crate::replay) writes what the bytes read determine. Does
/// nothing.
pub fn one_output()
    ensures { (options : ReplayOptions) (input a b : List ℕ)
        → IsOutput options input a → IsOutput options input b → a ≡ b }
{
    one_reading();
    one_script();
}
