//! How a script is replayed.
ghost use Rattle.std.specs.Prelude.{◌≡◌};
ghost use Rattle.metric_kit_commands.specs.Replaying.{needs_of};

use metric_parts::Needs;

/// How a script is replayed.
#[derive(Clone, Copy, Debug, PartialEq, Eq)]
pub struct ReplayOptions {
    /// Whether the config is tried without a certificate.
    pub trial: bool,
    /// Whether the replies are audited before they are written.
    pub audit: bool,
}

impl ReplayOptions {
    /// Which parts of the input the replay needs.
    pub fn needs(self) -> Needs
        ensures { result ≡ needs_of self }
    {
        Needs {
            certificate: !self.trial,
            script: true,
        }
    }
}
