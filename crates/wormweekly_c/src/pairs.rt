//! A catalogue and a config that a host gave, read.
ghost use Rattle.std.specs.Prelude.{◌≡◌, IfErr, IfOk, codes};
ghost use Rattle.metric_catalogue.specs.Catalogues.{opened_of};
ghost use Rattle.wormweekly_c.specs.Pairs.{IsPair};
ghost use Rattle.metric_setup.specs.Setups.{IsDeclared, IsFirstFault};

use metric_catalogue::Catalogue;
use metric_messages::{NamedText, Pair};
use metric_setup::{SetupFault, catalogue_of, config_of};
use metric_views::Config;
use std::alloc::Global;

/// What two texts are.
pub(crate) struct Declared {
    pub(crate) catalogue: Catalogue,
    pub(crate) config: Config,
}

impl Drop for Declared {
    fn drop(self) {
        let Declared {
            catalogue: _catalogue,
            config: _config,
        } = self;
    }
}

/// The catalogue and the config that two texts are, or the first fault.
pub(crate) fn declared_of(
    alloc: Global,
    catalogue_text: &str,
    config_text: &str,
) -> Result<Declared, SetupFault>
    ensures declared { IfOk result (λ both.
        IsDeclared (opened_of catalogue_text.now) config_text.now both.catalogue both.config) }
    ensures first { IfErr result (λ fault.
        IsFirstFault fault catalogue_text.now config_text.now) }
{
    let catalogue = catalogue_of(alloc, catalogue_text, true)?;
    let config = config_of(alloc, config_text)?;
    Ok(Declared { catalogue, config })
}

/// Both with the texts that they were read from, as a host is told of them: its texts are no files.
pub(crate) fn pair_of<'t>(declared: &'t Declared, catalogue: &'t str, config: &'t str) -> Pair<'t>
    requires { IsDeclared (opened_of catalogue.now) config.now declared.now.catalogue
        declared.now.config }
    ensures { IsPair catalogue.entry.now config.entry.now result }
{
    Pair {
        catalogue: &declared.catalogue,
        catalogue_source: catalogue_source(catalogue),
        config: &declared.config,
        config_source: config_source(config),
    }
}

/// The text of a catalogue.
pub(crate) fn catalogue_source(text: &str) -> NamedText<'_>
    ensures name { result.name.now ≡ codes "catalogue" }
    ensures text { result.text.now ≡ text.entry.now }
{
    let name = "catalogue";
    NamedText { name, text }
}

/// The text of a config.
pub(crate) fn config_source(text: &str) -> NamedText<'_>
    ensures name { result.name.now ≡ codes "config" }
    ensures text { result.text.now ≡ text.entry.now }
{
    let name = "config";
    NamedText { name, text }
}

/// The text of a certificate.
pub(crate) fn certificate_source(text: &str) -> NamedText<'_>
    ensures name { result.name.now ≡ codes "certificate" }
    ensures text { result.text.now ≡ text.entry.now }
{
    let name = "certificate";
    NamedText { name, text }
}
