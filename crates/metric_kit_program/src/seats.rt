//! The seats of a certified plan, each at work in a thread of its own.
ghost use Rattle.std.specs.Prelude.{◌≡◌, IfErr, IfOk, IsTrue, length, map};
ghost use Rattle.metric_kit_program.specs.Threading.{IsAfterThreads};
ghost use Rattle.metric_provider.specs.Totals.{entries_by};

use crate::options::ThreadsOptions;
use crate::workers::{Shared, Worked, work};
use metric_history::{Batch, Book};
use metric_kit_commands::KitFault;
use metric_plan::Plan;
use metric_provider::{Collector, FinishFault, NoGate, Recorder, Totals, start};
use std::alloc::Global;
use std::sync::Wait;
use std::thread::Threads;

// When the provider starts, before the first collection.
const START: u64 = 0;

// The number of the run, of which there is one.
const RUN: u64 = 0;

/// What the seats of a provider did in their threads.
#[derive(Drop)]
pub struct SeatsRun {
    /// What the provider came to by the seats of its recorders.
    pub totals: Totals,
    /// The batches that the readers were told, those of one reader in order. None where the books keep no entries.
    pub batches: Vec<Batch>,
}

/// Lets each recorder of a certified plan record, and each reader collect, in a thread of its own, over any book, as
/// [`threads_run`](crate::threads_run) does. After the threads have ended it hands out what they came to: where the
/// books keep their entries, all that an audit of each instrument since the start 0 asks for.
///
/// # Errors
///
/// [`KitFault::Memory`], also if memory ran out in a thread or a thread could not be started, after the others have
/// ended; [`KitFault::Finish`] where what the recorders were told could not be settled.
pub fn run_seats<R: Threads + Wait + Sync, B: Book + Send + Sync>(
    rt: &R,
    alloc: Global,
    options: ThreadsOptions,
    plan: Plan,
) -> Result<SeatsRun, KitFault>
    requires { IsTrue plan.is_certified }
    ensures one_each { IfOk result (λ run.
        length run.totals.instruments.items ≡ length plan.facts.instruments) }
    ensures entries { IfOk result (λ run. let numbers = length plan.facts.contents.recorders in
        run.totals.slips.items ≡ map (entries_by numbers) run.totals.journals.items) }
    ensures err { IfErr result IsAfterThreads }
{
    let Seats {
        provider,
        recorders,
        collectors,
    } = seats_of::<R, B>(rt, alloc, plan)?;
    let Worked { recorders, batches } = work(rt, alloc, &provider, options, recorders, collectors)?;
    let totals = finished(rt, alloc, provider, recorders)?;
    Ok(SeatsRun { totals, batches })
}

// A provider, and the seats of its recorders and readers in order.
#[derive(Drop)]
struct Seats<B: Book> {
    provider: Shared<B>,
    recorders: Vec<Recorder>,
    collectors: Vec<Collector>,
}

// The provider of a certified plan, with its seats.
fn seats_of<R: Wait, B: Book>(rt: &R, alloc: Global, plan: Plan) -> Result<Seats<B>, KitFault>
    requires { IsTrue plan.is_certified }
    ensures ok { IfOk result (λ seats. seats.provider.plan ≡ plan) }
    ensures err { IfErr result (λ fault. fault ≡ KitFault.Memory) }
{
    match start(rt, alloc, plan, START, RUN, NoGate) {
        Ok((provider, recorders, collectors)) => Ok(Seats {
            provider,
            recorders,
            collectors,
        }),
        Err(_) => Err(KitFault::Memory),
    }
}

// What the provider comes to by the seats of its recorders.
fn finished<R: Wait, B: Book>(
    rt: &R,
    alloc: Global,
    provider: Shared<B>,
    recorders: Vec<Recorder>,
) -> Result<Totals, KitFault>
    ensures one_each { IfOk result (λ totals.
        length totals.instruments.items ≡ length provider.plan.facts.instruments) }
    ensures entries { IfOk result (λ totals.
        let numbers = length provider.plan.facts.contents.recorders in
        totals.slips.items ≡ map (entries_by numbers) totals.journals.items) }
    ensures err { IfErr result IsAfterThreads }
{
    match provider.finish(rt, alloc, recorders) {
        Ok(totals) => Ok(totals),
        Err((_, _, fault)) => Err(fault_of(fault)),
    }
}

// The fault of a run whose threads have ended.
fn fault_of(fault: FinishFault) -> KitFault
    ensures { IsAfterThreads result }
{
    match fault {
        FinishFault::Memory => KitFault::Memory,
        fault => KitFault::Finish(fault),
    }
}
