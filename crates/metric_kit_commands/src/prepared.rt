//! What an input's parts declare, made ready to be run.
ghost use Rattle.std.specs.Prelude.{◌≡◌, [], false, IfErr, IfOk, IsSome};
ghost use Rattle.metric_kit_commands.specs.Faults.{IsOfInput};
ghost use Rattle.metric_kit_commands.specs.Replaying.{HasEvents, IsPlanFault, IsPlanned, IsPrepared, IsReplayFault, script_events_of};
ghost use Rattle.metric_core.specs.CoreStands.{CoreStands};

use crate::fault::KitFault;
use crate::options::ReplayOptions;
use crate::planning::{certified_plan, trial_plan};
use metric_core::Core;
use metric_history::Book;
use metric_parts::Parts;
use metric_plan::Plan;
use metric_script::{EventLines, events_of};
use std::alloc::Global;

/// A core that has run nothing since the start of a script.
#[derive(Drop)]
pub(crate) struct PreparedRun<B: Book> {
    pub core: Core<B>,
    pub start: u64,
}

/// What an input's parts declare, made ready for the events of their script.
pub(crate) fn prepared_run<B: Book>(
    alloc: Global,
    options: ReplayOptions,
    parts: &Parts<'_>,
) -> Result<PreparedRun<B>, KitFault>
    requires certificate { options.trial ≡ false → IsSome parts.now.certificate }
    requires script { IsSome parts.now.script }
    ensures ok { IfOk result (λ run. IsPrepared options parts.now
        run.core.plan run.core.start (script_events_of parts.now)) }
    ensures fresh { IfOk result (λ run. CoreStands B.stands run.core []) }
    ensures start { IfOk result (λ run. run.core.start ≡ run.start) }
    ensures first { IfErr result (λ fault. IsReplayFault options fault parts.now) }
    ensures own { IfErr result IsOfInput }
{
    let plan = planned(alloc, options, parts)?;
    let script = events_of(alloc, parts.script.as_ref().unwrap())?;
    let core = core_of(alloc, plan, script.start)?;
    Ok(PreparedRun {
        core,
        start: script.start,
    })
}

/// The events of the script of parts that a run was prepared for.
pub(crate) fn event_lines<'a>(parts: &Parts<'a>) -> EventLines<'a>
    requires { HasEvents parts.now }
    ensures { result ≡ script_events_of parts.now }
{
    EventLines::of_script(parts.script.as_ref().unwrap())
}

// The plan of what the parts declare: that of a trial, or the one that their certificate shows to be safe.
fn planned(alloc: Global, options: ReplayOptions, parts: &Parts<'_>) -> Result<Plan, KitFault>
    requires { options.trial ≡ false → IsSome parts.now.certificate }
    ensures ok { IfOk result (IsPlanned options parts.now) }
    ensures first { IfErr result (λ fault. IsPlanFault options fault parts.now) }
    ensures own { IfErr result IsOfInput }
{
    if options.trial {
        trial_plan(alloc, parts)
    } else {
        certified_plan(alloc, parts)
    }
}

// A core of the plan without any event, since a start.
fn core_of<B: Book>(alloc: Global, plan: Plan, start: u64) -> Result<Core<B>, KitFault>
    ensures plan { IfOk result (λ core. core.plan ≡ plan) }
    ensures start { IfOk result (λ core. core.start ≡ start) }
    ensures stands { IfOk result (λ core. CoreStands B.stands core []) }
    ensures err { IfErr result (λ fault. fault ≡ KitFault.Memory) }
{
    match Core::new(alloc, plan, start) {
        Ok(core) => Ok(core),
        Err(_) => Err(KitFault::Memory),
    }
}
