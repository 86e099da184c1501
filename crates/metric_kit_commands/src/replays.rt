//! A script replayed against a catalogue and a config.
ghost use Rattle.std.specs.Prelude.{◌≡◌, false, IfErr, IfOk, IsSome};
ghost use Rattle.metric_kit_commands.specs.Commands.{HasNeeded, RunsCommand, RunsParts, sink_run, source_run};
ghost use Rattle.metric_kit_commands.specs.Faults.{IsOfInput};
ghost use Rattle.metric_kit_commands.specs.Replaying.{IsAuditedRun, IsEncodedOutput, IsFirstFault, IsOutput, IsOutputOf, IsReplayFault, needs_of, plain_options};

use crate::audits::audited_replies;
use crate::command::{Command, run_parts, run_whole};
use crate::fault::KitFault;
use crate::forms::{Encoded, Printed, ReplyForm};
use crate::options::ReplayOptions;
use crate::pieces::write_run;
use crate::prepared::{PreparedRun, event_lines, prepared_run};
use crate::replies::{accepted_count, write_audited};
use metric_audit::Audited;
use metric_core::Core;
use metric_export::Encoding;
use metric_history::Reply;
use metric_io::{Sink, Source};
use metric_marked::Marked;
use metric_parts::{Needs, Parts};
use std::alloc::Global;

/// Replays the script of an input against its catalogue and its config, and writes the text of each reply.
/// The whole script is read before the first byte is written, so a refused input writes nothing. It is read once more
/// as the events are run and their replies written, so that memory holds its text, a few events and one batch.
///
/// With an audit the recordings are kept, and each instrument's journal is audited with the slips that the events make
/// and the batches among the replies, before anything is written; a last line tells how many recordings were accepted.
/// No audit fails. Memory holds all events and replies then, and a copy of the batches of one instrument.
///
/// # Errors
///
/// [`KitFault::Read`] and [`KitFault::Write`] where the source or the sink failed, [`KitFault::Memory`], and
/// else the first fault that the input has.
pub fn replay<R: Source, W: Sink>(
    alloc: Global,
    options: ReplayOptions,
    source: &mut R,
    sink: &mut W,
) -> Result<(), KitFault>
    ensures { RunsCommand (IsOutput options) (IsFirstFault options)
        (source_run R.remaining R.counts source.old source.new)
        (sink_run W.contents W.failures sink.old sink.new) result }
{
    let trial = options.trial;
    if options.audit {
        run_whole(alloc, &AuditedReplay { trial }, source, sink)
    } else {
        let form = &Printed;
        run_whole(alloc, &FormedReplay { trial, form }, source, sink)
    }
}

/// [`replay`] of parts that were read. The lines of faults are those of the script.
///
/// # Errors
///
/// Those of [`replay`], but for the source, and the first fault is that of the parts.
pub fn replay_parts<W: Sink>(
    alloc: Global,
    options: ReplayOptions,
    parts: &Parts<'_>,
    sink: &mut W,
) -> Result<(), KitFault>
    requires { HasNeeded (needs_of options) parts.now }
    ensures { RunsParts (IsOutputOf options parts.now)
        (λ fault. IsReplayFault options fault parts.now)
        (sink_run W.contents W.failures sink.old sink.new) result }
{
    let trial = options.trial;
    if options.audit {
        run_parts(alloc, &AuditedReplay { trial }, parts, sink)
    } else {
        let form = &Printed;
        run_parts(alloc, &FormedReplay { trial, form }, parts, sink)
    }
}

/// [`replay_parts`] without an audit, which writes batches alone: the bytes of each in an encoding, in the order of the
/// replies, and nothing of any other reply.
///
/// # Errors
///
/// Those of [`replay_parts`].
pub fn replay_encoded<E: Encoding, W: Sink>(
    alloc: Global,
    trial: bool,
    encoding: &E,
    parts: &Parts<'_>,
    sink: &mut W,
) -> Result<(), KitFault>
    requires { HasNeeded (needs_of (plain_options trial)) parts.now }
    ensures { RunsParts (IsEncodedOutput (E.text encoding.now) (plain_options trial) parts.now)
        (λ fault. IsReplayFault (plain_options trial) fault parts.now)
        (sink_run W.contents W.failures sink.old sink.new) result }
{
    let form = &Encoded { encoding };
    run_parts(alloc, &FormedReplay { trial, form }, parts, sink)
}

// A replay without an audit, of which the replies are written in a form.
#[derive(Clone, Copy)]
struct FormedReplay<'a, F> {
    trial: bool,
    form: &'a F,
}

impl<F: ReplyForm> Command for FormedReplay<'_, F> {
    ghost use Rattle.std.specs.Prelude.{[]};
    ghost use Rattle.std.proofs.Common.{inl, refl};
    ghost use Rattle.metric_core.specs.CoreStands.{CoreStands};
    ghost use Rattle.metric_marked.specs.Marks.{StandsMarked};
    ghost use Rattle.metric_kit_commands.specs.DueRuns.{is_due_run};
    ghost use Rattle.metric_kit_commands.specs.Replaying.{IsFirstFault as IsFirst, IsFormed as IsText, IsPrepared as IsOfParts, IsReplayFault as IsFault, needs_of as parts_needed, plain_options as options_of, replay_refused, script_events_of};
    ghost use Rattle.metric_kit_commands.specs.Runs.{due_replies};
    ghost use Rattle.metric_kit_commands.specs.WrittenRuns.{due_text};

    type Answer = PreparedRun<Marked>;

    ghost needed = { λ c. parts_needed (options_of c.trial) };

    ghost is_answer = { λ c read run.
        IsOfParts (options_of c.trial) read run.core.plan run.core.start (script_events_of read)
        × CoreStands StandsMarked run.core [] };

    ghost is_fault = { λ c. IsFault (options_of c.trial) };

    ghost is_due = { λ c. IsText (F.text c.form.now) (options_of c.trial) };

    ghost is_first_fault = { λ c. IsFirst (options_of c.trial) };

    ghost text = { λ c read run.
        due_text (F.text c.form.now) run.core.plan run.core.start [] (script_events_of read) };

    fn needed_parts(&self) -> Needs {
        plain_options(self.trial).needs()
    }

    fn answer(&self, alloc: Global, parts: &Parts<'_>) -> Result<PreparedRun<Marked>, KitFault> {
        prepared_run(alloc, plain_options(self.trial), parts)
    }

    fn write<W: Sink>(
        &self,
        alloc: Global,
        sink: &mut W,
        parts: &Parts<'_>,
        run: PreparedRun<Marked>,
    ) -> Result<(), KitFault> {
        let PreparedRun { mut core, start: _ } = run;
        write_run(alloc, sink, self.form, &mut core, event_lines(parts))
    }

    ghost answered = { λ _ read run known. record {
      plan = run.core.plan;
      replies = due_replies run.core.plan.facts run.core.start [] (script_events_of read);
      answered = record {
        script = known.0.script;
        start = run.core.start;
        events = script_events_of read;
        is_planned = known.0.is_planned;
        has_script = known.0.has_script;
        is_script = known.0.is_script;
        run = is_due_run run.core.plan run.core.start (script_events_of read);
      };
      written = refl;
    } };

    ghost refused = { λ c. replay_refused (options_of c.trial) };

    ghost unread = { λ _ _ _ found. inl found };

    ghost unremembered = { λ _ _. tt };
}

// A replay with an audit.
#[derive(Clone, Copy)]
struct AuditedReplay {
    trial: bool,
}

/// A replay without an audit.
pub(crate) fn plain_options(trial: bool) -> ReplayOptions
    ensures { result ≡ plain_options trial }
{
    ReplayOptions {
        trial,
        audit: false,
    }
}

// The replies to a script that were audited, and how many recordings they accept.
#[derive(Drop)]
struct AuditedRun {
    core: Core<Audited>,
    replies: Vec<Reply>,
    accepted: u64,
}

// The replies to the script of an input, audited.
fn audited_run(
    alloc: Global,
    options: ReplayOptions,
    parts: &Parts<'_>,
) -> Result<AuditedRun, KitFault>
    requires certificate { options.trial ≡ false → IsSome parts.now.certificate }
    requires script { IsSome parts.now.script }
    ensures ok { IfOk result (λ run. IsAuditedRun options parts.now run.core.plan
        run.replies.items run.accepted) }
    ensures first { IfErr result (λ fault. IsReplayFault options fault parts.now) }
    ensures own { IfErr result IsOfInput }
{
    let run = prepared_run(alloc, options, parts)?;
    let PreparedRun { mut core, start } = run;
    let events = event_lines(parts).all(alloc)?;
    let replies = audited_replies(alloc, &mut core, start, events.as_slice())?;
    let accepted = accepted_count(&replies);
    Ok(AuditedRun {
        core,
        replies,
        accepted,
    })
}

impl Command for AuditedReplay {
    ghost use Rattle.std.specs.Prelude.{ℕ, ◌++◌};
    ghost use Rattle.std.proofs.Common.{ap, inl};
    ghost use Rattle.metric_kit_commands.specs.Replaying.{IsAuditedRun as IsAudited, IsFirstFault as IsFirst, IsOutputOf as IsText, IsReplayFault as IsFault, audited_options, needs_of as parts_needed, replay_refused};
    ghost use Rattle.metric_kit_commands.specs.Replies.{audited_text, replies_text};

    type Answer = AuditedRun;

    ghost needed = { λ c. parts_needed (audited_options c.trial) };

    ghost is_answer = { λ c read run. IsAudited (audited_options c.trial) read run.core.plan
        run.replies.items run.accepted };

    ghost is_fault = { λ c. IsFault (audited_options c.trial) };

    ghost is_due = { λ c. IsText (audited_options c.trial) };

    ghost is_first_fault = { λ c. IsFirst (audited_options c.trial) };

    ghost text = { λ _ _ run.
        replies_text run.core.plan run.replies.items ++ audited_text run.accepted };

    fn needed_parts(&self) -> Needs {
        let options = ReplayOptions {
            trial: self.trial,
            audit: true,
        };
        options.needs()
    }

    fn answer(&self, alloc: Global, parts: &Parts<'_>) -> Result<AuditedRun, KitFault> {
        let options = ReplayOptions {
            trial: self.trial,
            audit: true,
        };
        audited_run(alloc, options, parts)
    }

    fn write<W: Sink>(
        &self,
        alloc: Global,
        sink: &mut W,
        _parts: &Parts<'_>,
        run: AuditedRun,
    ) -> Result<(), KitFault> {
        write_audited(alloc, sink, run.core.plan(), &run.replies, run.accepted)
    }

    ghost answered = { λ _ _ run known. record {
      plan = run.core.plan;
      replies = run.replies.items;
      answered = known.answered;
      audited = λ _. known.audited;
      written = ap (λ (n : ℕ). replies_text run.core.plan run.replies.items ++ audited_text n)
          known.counted;
    } };

    ghost refused = { λ c. replay_refused (audited_options c.trial) };

    ghost unread = { λ _ _ _ found. inl found };

    ghost unremembered = { λ _ _. tt };
}
