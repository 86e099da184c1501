//! What the reasons of a certificate tell of views and instruments.
ghost use Rattle.std.specs.Prelude.{◌≡◌};
ghost use Rattle.metric_check.specs.Known.{ShowSelection, selects_by};

use metric_catalogue::Catalogue;
use metric_cert::{Evidence, SelectionReason};
use metric_glob::Reason;
use metric_resolve::Selection;
use metric_views::Config;

// A catalogue and a config, and for each pair of a view and an instrument the reason, which is true: it tells.
#[derive(Clone, Copy)]
pub(crate) struct ByReasons<'a> {
    pub catalogue: &'a Catalogue,
    pub config: &'a Config,
    pub reasons: &'a [SelectionReason],
    ghost shown: { ShowSelection catalogue.now config.now reasons.now },
}

impl Selection for ByReasons<'_> {
    ghost contents = { λ s. s.catalogue.now };

    ghost setup = { λ s. s.config.now };

    fn catalogue(&self) -> &Catalogue {
        self.catalogue
    }

    fn config(&self) -> &Config {
        self.config
    }

    fn selects(&self, view: u32, instrument: u32) -> bool {
        let place = view as usize * self.catalogue.instruments().len() + instrument as usize;
        shows_selection(&self.reasons[place].evidence)
    }
}

// Whether this evidence, where it is true, shows that a view selects an instrument.
fn shows_selection(evidence: &Evidence) -> bool
    ensures { result ≡ selects_by evidence.now }
{
    matches!(evidence, Evidence::Name(Reason::Takes(_)))
}
