//! What a catalogue and a config give.
ghost use Rattle.std.specs.Prelude.{◌≡◌, ◌≤◌, All, IfOk, length};
ghost use Rattle.metric_resolve.specs.Resolved.{IsKnown, streams_of};
ghost use Rattle.metric_resolve.specs.Warnings.{warnings_of};

use crate::collisions::add_collisions;
use crate::selection::ByCriteria;
use crate::stream_list::streams_by;
use crate::unfit::add_unfit;
use crate::warning::Warning;
use metric_base::{Few, Items};
use metric_catalogue::Catalogue;
use metric_views::{Config, Stream};
use std::alloc::{AllocError, Global};
use std::marker::Model;

/// The streams of all readers: those of 16 readers, of 512 instruments each, by 256 views at most.
pub type StreamList = Few<Stream, 2_097_152>;

/// The streams of all readers, numbered from 0, with what is to be warned of.
pub struct Streams {
    list: StreamList,
    warnings: Items<Warning>,
}

impl Drop for Streams {
    // A call of its own, so that what owns streams does not carry the steps of dropping each part.
    fn drop(self) {
        let Streams {
            list: _list,
            warnings: _warnings,
        } = self;
    }
}

impl Model for Streams {
    ghost use Rattle.std.specs.Prelude.{length, ◌≤◌};
    ghost use Rattle.metric_resolve.specs.Warnings.{Resolved};

    ghost Value = { Resolved };

    ghost view = { λ s. record { list = s.list; warnings = s.warnings } };

    ghost invariant = { λ s. length s.list ≤ 2097152 };
}

impl Streams {
    /// The streams by reader, instrument and view, the default stream of an instrument in place of its
    /// views. There are at most 2,097,152.
    pub fn list(&self) -> &[Stream]
        ensures list { result.now ≡ self.now.list }
        ensures few { length self.now.list ≤ 2097152 }
    {
        self.list.as_slice()
    }

    /// What is to be warned of: unfit views by view and instrument, then collisions by the later stream.
    pub fn warnings(&self) -> &[Warning]
        ensures { result.now ≡ self.now.warnings }
    {
        self.warnings.as_slice()
    }
}

/// The streams that a config gives for a catalogue (Metrics SDK, View), with what is to be warned of. Fails only when
/// out of memory.
///
/// A view applies to an instrument where it selects it and its aggregation fits the kind. Where no view
/// applies, the default stream is given. An aggregation that drops gives no stream, but applies.
pub fn resolve(alloc: Global, catalogue: &Catalogue, config: &Config) -> Result<Streams, AllocError>
    ensures list { IfOk result (λ s. s.list ≡ streams_of catalogue.now config.now) }
    ensures warnings { IfOk result (λ s. s.warnings ≡ warnings_of catalogue.now config.now) }
{
    let list = resolve_streams(alloc, catalogue, config)?;
    let mut warnings = Items::new(alloc);
    add_unfit(catalogue, config, &mut warnings)?;
    add_collisions(alloc, catalogue, list.as_slice(), &mut warnings)?;
    Ok(Streams { list, warnings })
}

/// The streams alone, for who asks for no warnings. Fails only when out of memory.
pub fn resolve_streams(
    alloc: Global,
    catalogue: &Catalogue,
    config: &Config,
) -> Result<StreamList, AllocError>
    ensures list { IfOk result (λ s. s ≡ streams_of catalogue.now config.now) }
    ensures few { IfOk result (λ s. length s ≤ 2097152) }
    ensures known { IfOk result (All (IsKnown catalogue.now)) }
{
    streams_by(alloc, &ByCriteria { catalogue, config })
}
