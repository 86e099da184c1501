//! The texts that a fault is of.
use metric_catalogue::Catalogue;
use metric_views::Config;

/// A text with the name of its file, as a person knows it.
#[derive(Clone, Copy)]
pub struct NamedText<'t> {
    /// The name of the file, as `catalogue.toml`.
    pub name: &'t str,
    /// The text of the file.
    pub text: &'t str,
}

/// A catalogue and a config that were read, with the texts that they were read from: places are looked for in these.
#[derive(Clone, Copy)]
pub struct Pair<'t> {
    /// The catalogue that was read.
    pub catalogue: &'t Catalogue,
    /// The text of the catalogue.
    pub catalogue_source: NamedText<'t>,
    /// The config that was read.
    pub config: &'t Config,
    /// The text of the config.
    pub config_source: NamedText<'t>,
}
