//! A certificate made for a catalogue and a config.
ghost use Rattle.std.specs.Prelude.{IfErr, IfOk, string_bytes};
ghost use Rattle.metric_kit_commands.specs.Certifying.{FailsToMake, IsCertificateText, IsCertified, IsFirstMakeFault, IsMakeFault, IsTextFor};
ghost use Rattle.metric_kit_commands.specs.Commands.{RunsCommand, sink_run, source_run};
ghost use Rattle.metric_kit_commands.specs.Faults.{IsOfInput};

use crate::command::{Command, run_whole};
use crate::fault::KitFault;
use crate::parts::write_text;
use crate::planning::declared_of;
use metric_catalogue::Catalogue;
use metric_io::{Sink, Source};
use metric_parts::{Needs, Parts};
use metric_setup::certificate_for;
use metric_views::Config;
use std::alloc::Global;

/// Writes a certificate that the catalogue and the config of an input are safe, as a text that
/// `Certificate::read` answers with the certificate that `make` gives. A refused input writes nothing.
///
/// # Errors
///
/// [`KitFault::Read`] and [`KitFault::Write`] where the source or the sink failed, [`KitFault::Memory`], and
/// else the first fault that the input has.
pub fn make_run<R: Source, W: Sink>(
    alloc: Global,
    source: &mut R,
    sink: &mut W,
) -> Result<(), KitFault>
    ensures { RunsCommand IsCertificateText IsFirstMakeFault
        (source_run R.remaining R.counts source.old source.new)
        (sink_run W.contents W.failures sink.old sink.new) result }
{
    run_whole(alloc, &Make, source, sink)
}

// The command that makes a certificate.
struct Make;

impl Command for Make {
    ghost use Rattle.std.specs.Prelude.{string_bytes};
    ghost use Rattle.metric_kit_commands.specs.Certifying.{IsCertified as IsOfParts, IsFirstMakeFault as IsFirst, IsMakeFault as IsFault, make_refused};
    ghost use Rattle.metric_kit_commands.specs.Showing.{show_needs};

    type Answer = String;

    ghost needed = { λ _. show_needs };

    ghost is_answer = { λ _ read text. IsOfParts read (string_bytes text) };

    ghost is_fault = { λ _. IsFault };

    ghost is_due = { λ _. IsOfParts };

    ghost is_first_fault = { λ _. IsFirst };

    ghost text = { λ _ _ text. string_bytes text };

    fn needed_parts(&self) -> Needs {
        Needs {
            certificate: false,
            script: false,
        }
    }

    fn answer(&self, alloc: Global, parts: &Parts<'_>) -> Result<String, KitFault> {
        certificate_text(alloc, parts)
    }

    fn write<W: Sink>(
        &self,
        _alloc: Global,
        sink: &mut W,
        _parts: &Parts<'_>,
        text: String,
    ) -> Result<(), KitFault> {
        write_text(sink, text.as_bytes())
    }

    ghost answered = { λ _ _ _ certified. certified };

    ghost refused = { λ _. make_refused };

    ghost unread = { λ _ _ _ found. found };

    ghost unremembered = { λ _ _. tt };
}

/// The text of the certificate for what the parts declare, which `Certificate::read` answers with the certificate that
/// `make` gives.
///
/// # Errors
///
/// The first fault, in this order: those of [`declared_of`]; [`KitFault::Make`]. [`KitFault::Memory`] may stand in the
/// place of any.
pub fn certificate_text(alloc: Global, parts: &Parts<'_>) -> Result<String, KitFault>
    ensures ok { IfOk result (λ text. IsCertified parts.now (string_bytes text)) }
    ensures first { IfErr result (λ fault. IsMakeFault fault parts.now) }
    ensures own { IfErr result IsOfInput }
{
    let declared = declared_of(alloc, parts)?;
    text_for(alloc, &declared.catalogue, &declared.config)
}

// The text of the certificate for a catalogue and a config.
fn text_for(alloc: Global, catalogue: &Catalogue, config: &Config) -> Result<String, KitFault>
    ensures ok { IfOk result (λ text. IsTextFor catalogue.now config.now (string_bytes text)) }
    ensures err { IfErr result (λ fault. FailsToMake fault catalogue.now config.now) }
{
    let certificate = certificate_for(alloc, catalogue, config)?;
    let text = certificate.write(alloc)?;
    Ok(text)
}
