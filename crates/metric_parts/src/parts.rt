//! What a command reads of its input.
use crate::Script;
use metric_base::Text;

/// What a command reads of its input: the texts of the parts that it needs. The lines of a text
/// are joined by line feeds.
pub struct Parts<'a> {
    /// The catalogue.
    pub catalogue: Text,
    /// Whether the catalogue may be of format 3.
    pub opens: bool,
    /// The config.
    pub config: Text,
    /// The certificate, where it is needed.
    pub certificate: Option<Text>,
    /// The script, where it is needed.
    pub script: Option<Script<'a>>,
}

impl Drop for Parts<'_> {
    // A call of its own, so that what owns parts does not carry the steps of dropping each of them.
    fn drop(self) {
        let Parts {
            catalogue: _catalogue,
            opens: _,
            config: _config,
            certificate: _certificate,
            script: _,
        } = self;
    }
}
