//! What tells which views select which instruments.
ghost use Rattle.std.specs.Prelude.{◌≡◌, ◌<◌, length};
ghost use Rattle.metric_contents.specs.declared.contents.Contents.{Contents};
ghost use Rattle.metric_views.specs.declared.config.Config.{Config as Setup};
ghost use Rattle.metric_resolve.specs.Applying.{is_selected};

use crate::offers::meter_of;
use metric_catalogue::Catalogue;
use metric_views::Config;

/// A catalogue and a config, with what tells which views of the one select which instruments of the other.
pub trait Selection {
    // What the catalogue declares.
    ghost contents: { Self → Contents };

    // The readers and the views.
    ghost setup: { Self → Setup };

    /// The catalogue.
    fn catalogue(&self) -> &Catalogue
        ensures { result.now ≡ contents self.now };

    /// The config.
    fn config(&self) -> &Config
        ensures { result.now ≡ setup self.now };

    /// Whether the view of one number selects the instrument of another (Metrics SDK, instrument selection criteria).
    fn selects(&self, view: u32, instrument: u32) -> bool
        requires view { view < length (setup self.now).views }
        requires instrument { instrument < length (contents self.now).instruments }
        ensures { result ≡ is_selected (contents self.now) (setup self.now) instrument view };
}

// A catalogue and a config: the criteria of the views tell.
#[derive(Clone, Copy)]
pub(crate) struct ByCriteria<'a> {
    pub catalogue: &'a Catalogue,
    pub config: &'a Config,
}

impl Selection for ByCriteria<'_> {
    ghost contents = { λ s. s.catalogue.now };

    ghost setup = { λ s. s.config.now };

    fn catalogue(&self) -> &Catalogue {
        self.catalogue
    }

    fn config(&self) -> &Config {
        self.config
    }

    fn selects(&self, view: u32, instrument: u32) -> bool {
        let meter = meter_of(self.catalogue, instrument);
        self.config.views()[view as usize].selects(
            meter,
            &self.catalogue.instruments()[instrument as usize],
        )
    }
}
