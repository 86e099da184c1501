//! Recordings and collections made by threads at once.
ghost use Rattle.std.specs.Prelude.{◌≡◌, IfErr, IfOk, IsTrue, length};
ghost use Rattle.metric_kit_commands.specs.Commands.{RunsCommand, sink_run, source_run};
ghost use Rattle.metric_kit_commands.specs.Faults.{IsOfInput};
ghost use Rattle.metric_kit_program.specs.Threading.{IsAfterThreads, IsCounted, IsFirstThreadsFault, totals_text};

use crate::options::ThreadsOptions;
use crate::seats::run_seats;
use crate::totals::write_totals;
use metric_io::{Sink, Source, read_all};
use metric_kit_commands::{KitFault, checked_plan};
use metric_marked::Marked;
use metric_plan::Plan;
use metric_provider::Total;
use std::alloc::Global;
use std::sync::Wait;
use std::thread::Threads;

/// Lets each recorder of an input record, and each reader collect, in a thread of its own: a recorder on each
/// instrument in order, so many times, the greatest value of its range with the first declared value of each required
/// key; a reader all instruments at the times 1 to 8 (Metrics SDK, concurrency requirements). Recordings beyond a
/// budget, and those of a combination that an instrument does not allow, are passed over. After the threads have ended
/// it writes what each instrument comes to. A refused input writes nothing.
///
/// # Errors
///
/// [`KitFault::Read`] and [`KitFault::Write`] where the source or the sink failed, [`KitFault::Memory`] also if memory
/// ran out in a thread or a thread could not be started, after the others have ended, and else the first fault that the
/// input has. The last of them are those of the certificate's check; after the threads [`KitFault::Finish`] may come.
pub fn threads_run<R: Threads + Wait + Sync, S: Source, W: Sink>(
    rt: &R,
    alloc: Global,
    options: ThreadsOptions,
    source: &mut S,
    sink: &mut W,
) -> Result<(), KitFault>
    ensures { RunsCommand IsCounted IsFirstThreadsFault
        (source_run S.remaining S.counts source.old source.new)
        (sink_run W.contents W.failures sink.old sink.new) result }
{
    let input = read_all(alloc, source)?;
    let totals = counted(rt, alloc, options, &input)?;
    write_totals(alloc, sink, &totals)
}

// What the instruments of an input come to.
#[tactic(auto, using(crate::proofs::ThreadLaws::thread_laws))]
fn counted<R: Threads + Wait + Sync>(
    rt: &R,
    alloc: Global,
    options: ThreadsOptions,
    input: &[u8],
) -> Result<Vec<Total>, KitFault>
    ensures ok { IfOk result (λ totals. IsCounted input.now (totals_text totals.items)) }
    ensures first { IfErr result (IsFirstThreadsFault input.now) }
    ensures own { IfErr result IsOfInput }
{
    let plan = checked_plan(alloc, input)?;
    let totals = totals_of(rt, alloc, options, plan)?;
    Ok(totals)
}

// What the instruments of a certified plan come to after its recorders and readers have run in threads.
fn totals_of<R: Threads + Wait + Sync>(
    rt: &R,
    alloc: Global,
    options: ThreadsOptions,
    plan: Plan,
) -> Result<Vec<Total>, KitFault>
    requires { IsTrue plan.is_certified }
    ensures ok { IfOk result (λ totals. length totals.items ≡ length plan.facts.instruments) }
    ensures err { IfErr result IsAfterThreads }
{
    let run = run_seats::<R, Marked>(rt, alloc, options, plan)?;
    Ok(run.totals.instruments)
}
