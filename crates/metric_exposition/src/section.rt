//! The lines of a stream in a page.
use metric_base::{Items, Text};

/// The lines of a stream in a page. Those of one family stand together there.
#[derive(Drop)]
pub struct Section {
    /// The name of its family.
    pub family: Text,
    /// The lines before its points.
    pub header: Items<u8>,
    /// Those of its points.
    pub lines: Items<u8>,
}
