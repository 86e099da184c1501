//! The streams of a config, shown.
ghost use Rattle.std.specs.Prelude.{◌≡◌, IfErr, IfOk, OnOk};
ghost use Rattle.std.specs.Io.KnownBytes.{Appends};
ghost use Rattle.metric_io.specs.Prefix.{AppendsPrefix};
ghost use Rattle.metric_kit_commands.specs.Commands.{RunsCommand, sink_run, source_run};
ghost use Rattle.metric_kit_commands.specs.Declarations.{IsDeclaredFault};
ghost use Rattle.metric_kit_commands.specs.Faults.{IsOfInput};
ghost use Rattle.metric_kit_commands.specs.Showing.{IsFirstShowFault, IsListed, IsShown, listing_text};
ghost use Rattle.metric_kit_commands.specs.Written.{IsSinkFault};

use crate::command::{Command, run_whole};
use crate::fault::KitFault;
use crate::parts::{PartWriter, write_parts, write_text};
use crate::planning::{Declared, declared_of};
use metric_io::{Sink, Source};
use metric_lines::{push_shown, push_warning};
use metric_parts::{Needs, Parts};
use metric_resolve::{Streams, Warning, resolve};
use metric_views::Stream;
use std::alloc::Global;

/// Writes a line for each stream that the config of an input gives for its catalogue, and one for each
/// warning (Metrics SDK, View). A refused input writes nothing.
///
/// # Errors
///
/// [`KitFault::Read`] and [`KitFault::Write`] where the source or the sink failed, [`KitFault::Memory`], and
/// else the first fault that the input has.
pub fn show_run<R: Source, W: Sink>(
    alloc: Global,
    source: &mut R,
    sink: &mut W,
) -> Result<(), KitFault>
    ensures { RunsCommand IsShown IsFirstShowFault
        (source_run R.remaining R.counts source.old source.new)
        (sink_run W.contents W.failures sink.old sink.new) result }
{
    run_whole(alloc, &Show, source, sink)
}

// The command that shows the streams of a config.
struct Show;

impl Command for Show {
    ghost use Rattle.metric_kit_commands.specs.Declarations.{IsDeclaredFault as IsFault};
    ghost use Rattle.metric_kit_commands.specs.Showing.{IsFirstShowFault as IsFirst, IsListed as IsOfParts, listing_text as text_of, show_needs, show_refused};

    type Answer = Listing;

    ghost needed = { λ _. show_needs };

    ghost is_answer = { λ _ read l. IsOfParts read
        (text_of l.declared.catalogue l.declared.config l.streams.list l.streams.warnings) };

    ghost is_fault = { λ _. IsFault };

    ghost is_due = { λ _. IsOfParts };

    ghost is_first_fault = { λ _. IsFirst };

    ghost text = { λ _ _ l.
        text_of l.declared.catalogue l.declared.config l.streams.list l.streams.warnings };

    fn needed_parts(&self) -> Needs {
        Needs {
            certificate: false,
            script: false,
        }
    }

    fn answer(&self, alloc: Global, parts: &Parts<'_>) -> Result<Listing, KitFault> {
        listed(alloc, parts)
    }

    fn write<W: Sink>(
        &self,
        alloc: Global,
        sink: &mut W,
        _parts: &Parts<'_>,
        listing: Listing,
    ) -> Result<(), KitFault> {
        write_lines(alloc, sink, &listing)
    }

    ghost answered = { λ _ _ _ listed. listed };

    ghost refused = { λ _. show_refused };

    ghost unread = { λ _ _ _ found. found };

    ghost unremembered = { λ _ _. tt };
}

// What a catalogue and a config give.
#[derive(Drop)]
struct Listing {
    declared: Declared,
    streams: Streams,
}

impl PartWriter<Stream> for Listing {
    ghost use Rattle.metric_lines.specs.Streams.{shown_text};

    ghost text = { λ l number stream.
        shown_text l.declared.catalogue l.declared.config number stream };

    #[tactic(auto, using(metric_io::specs::Prefix::prefixes))]
    fn write_part<W: Sink>(
        &self,
        buffer: &mut Vec<u8>,
        sink: &mut W,
        number: u64,
        stream: &Stream,
    ) -> Result<(), KitFault> {
        buffer.clear();
        push_shown(
            buffer,
            &self.declared.catalogue,
            &self.declared.config,
            number,
            stream,
        )?;
        write_text(sink, buffer)
    }
}

impl PartWriter<Warning> for Listing {
    ghost use Rattle.metric_lines.specs.Streams.{warning_text};

    ghost text = { λ _ _ warning. warning_text warning };

    #[tactic(auto, using(metric_io::specs::Prefix::prefixes))]
    fn write_part<W: Sink>(
        &self,
        buffer: &mut Vec<u8>,
        sink: &mut W,
        _number: u64,
        warning: &Warning,
    ) -> Result<(), KitFault> {
        buffer.clear();
        push_warning(buffer, *warning)?;
        write_text(sink, buffer)
    }
}

// Writes the line of each stream, and then that of each warning.
#[tactic(auto, unfolding(crate::specs::Showing::listing_text), using(crate::specs::TextLaws::two_texts))]
fn write_lines<W: Sink>(alloc: Global, sink: &mut W, listing: &Listing) -> Result<(), KitFault>
    ensures ok { OnOk result (Appends (W.contents sink.old) (W.contents sink.new)
        (listing_text listing.now.declared.catalogue listing.now.declared.config
        listing.now.streams.list listing.now.streams.warnings)) }
    ensures prefix { AppendsPrefix (W.contents sink.old) (W.contents sink.new)
        (listing_text listing.now.declared.catalogue listing.now.declared.config
        listing.now.streams.list listing.now.streams.warnings) }
    ensures broken { IfErr result (IsSinkFault (W.failures sink.old) (W.failures sink.new)) }
    ensures counted { OnOk result (W.failures sink.new ≡ W.failures sink.old) }
{
    write_parts(alloc, sink, listing, listing.streams.list())?;
    write_parts(alloc, sink, listing, listing.streams.warnings())?;
    Ok(())
}

// What the parts declare, with its streams.
fn listed(alloc: Global, parts: &Parts<'_>) -> Result<Listing, KitFault>
    ensures ok { IfOk result (λ l. IsListed parts.now
        (listing_text l.declared.catalogue l.declared.config l.streams.list l.streams.warnings)) }
    ensures first { IfErr result (λ fault. IsDeclaredFault fault parts.now) }
    ensures own { IfErr result IsOfInput }
{
    let declared = declared_of(alloc, parts)?;
    let streams = resolve(alloc, &declared.catalogue, &declared.config)?;
    Ok(Listing { declared, streams })
}
