//! Batches as the lines of pages.
ghost use Rattle.std.specs.Prelude.{◌≡◌};
ghost use Rattle.metric_exposition.specs.Expositions.{exposition};

use metric_export::Encoding;
use metric_exposition::{Dialect, push_exposition};
use metric_history::Batch;
use metric_plan::Plan;
use std::alloc::{AllocError, Global};
use std::marker::Model;

/// Each batch as the lines that a page has of it. A page is more than these, and has one family of several meters once:
/// see [`PageExporter`](crate::PageExporter).
#[derive(Drop)]
pub struct Exposition {
    dialect: Dialect,
}

impl Model for Exposition {
    ghost use Rattle.metric_exposition.specs.declared.dialect.Dialect.{Dialect};

    ghost Value = { Dialect };

    ghost view = { λ encoding. encoding.dialect };
}

impl Exposition {
    /// Lines of this format.
    pub fn new(dialect: Dialect) -> Exposition
        ensures { result ≡ dialect }
    {
        Exposition { dialect }
    }
}

impl Encoding for Exposition {
    ghost text = { λ dialect plan batch.
        exposition dialect plan.facts.contents plan.streams batch };

    fn takes(&self, _plan: u64, _reader: u32) -> bool {
        true
    }

    fn push(
        &self,
        alloc: Global,
        out: &mut Vec<u8>,
        plan: &Plan,
        batch: &Batch,
    ) -> Result<(), AllocError> {
        push_exposition(
            alloc,
            out,
            self.dialect,
            plan.catalogue(),
            plan.streams(),
            batch,
        )
    }
}
