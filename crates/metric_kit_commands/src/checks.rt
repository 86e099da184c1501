//! A certificate checked.
ghost use Rattle.std.specs.Prelude.{IfErr, IfOk};
ghost use Rattle.metric_kit_commands.specs.Checking.{IsAcceptance, IsFirstCheckFault, check_needs};
ghost use Rattle.metric_kit_commands.specs.Claims.{IsCertifiedPlan};
ghost use Rattle.metric_kit_commands.specs.Commands.{IsAnswerTo, RunsCommand, sink_run, source_run};
ghost use Rattle.metric_kit_commands.specs.Faults.{IsOfInput};

use crate::command::{Command, read_and_answer, run_whole};
use crate::fault::KitFault;
use crate::parts::write_text;
use crate::planning::certified_plan;
use metric_io::{Sink, Source};
use metric_parts::{Needs, Parts};
use metric_plan::Plan;
use std::alloc::Global;

/// Writes `accepted` and a line feed where the certificate of an input shows that its catalogue and its
/// config can overflow neither a limit nor a number, whoever made it. A refused input writes nothing.
///
/// # Errors
///
/// [`KitFault::Read`] and [`KitFault::Write`] where the source or the sink failed, [`KitFault::Memory`], and
/// else the first fault that the input has; the last of them are those of the certificate's check.
pub fn check_run<R: Source, W: Sink>(
    alloc: Global,
    source: &mut R,
    sink: &mut W,
) -> Result<(), KitFault>
    ensures { RunsCommand IsAcceptance IsFirstCheckFault
        (source_run R.remaining R.counts source.old source.new)
        (sink_run W.contents W.failures sink.old sink.new) result }
{
    run_whole(alloc, &Check, source, sink)
}

/// The plan of an input whose certificate shows that its catalogue and its config can overflow neither a limit nor a
/// number.
///
/// # Errors
///
/// [`KitFault::Memory`], and else the first fault that the input has.
pub fn checked_plan(alloc: Global, input: &[u8]) -> Result<Plan, KitFault>
    ensures ok { IfOk result (IsAnswerTo check_needs IsCertifiedPlan input.now) }
    ensures first { IfErr result (IsFirstCheckFault input.now) }
    ensures own { IfErr result IsOfInput }
{
    read_and_answer(alloc, &Check, input)
}

// The command that checks a certificate.
struct Check;

impl Command for Check {
    ghost use Rattle.std.specs.Prelude.{refl};
    ghost use Rattle.metric_kit_commands.specs.Checking.{IsAccepted as IsText, IsFirstCheckFault as IsFirst, accepted_text, check_needs, check_refused};
    ghost use Rattle.metric_kit_commands.specs.Claims.{IsCertifiedPlan as IsPlan, IsClaimFault as IsFault};

    type Answer = Plan;

    ghost needed = { λ _. check_needs };

    ghost is_answer = { λ _. IsPlan };

    ghost is_fault = { λ _. IsFault };

    ghost is_due = { λ _. IsText };

    ghost is_first_fault = { λ _. IsFirst };

    ghost text = { λ _ _ _. accepted_text };

    fn needed_parts(&self) -> Needs {
        Needs {
            certificate: true,
            script: false,
        }
    }

    fn answer(&self, alloc: Global, parts: &Parts<'_>) -> Result<Plan, KitFault> {
        certified_plan(alloc, parts)
    }

    fn write<W: Sink>(
        &self,
        _alloc: Global,
        sink: &mut W,
        _parts: &Parts<'_>,
        _plan: Plan,
    ) -> Result<(), KitFault> {
        write_text(sink, b"accepted\n")
    }

    ghost answered = { λ _ _ plan certified.
        record { plan = plan; certified = certified; written = refl } };

    ghost refused = { λ _. check_refused };

    ghost unread = { λ _ _ _ found. found };

    ghost unremembered = { λ _ _. tt };
}
