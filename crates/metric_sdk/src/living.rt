//! A run of a service in threads.
ghost use Rattle.std.specs.Prelude.{◌≡◌};
ghost use Rattle.metric_periodic.specs.Outlets.{MakesTurnsOf};
ghost use Rattle.metric_sdk.specs.Services.{DoesEach};

use crate::service::Service;
use metric_history::Book;
use metric_periodic::{Outlets, StopFlag, make_turns};
use metric_provider::{Gate, Provider};
use std::sync::Wait;
use std::thread::{Threads, for_each_mut, join};
use std::time::Clock;

// How many threads workers have at most.
const THREADS: usize = 64;

/// What each worker does in a run.
pub trait Work<W, P>: Sync {
    /// What a call says of the provider, and of the worker before and after it: nothing, where no contract needs it.
    ghost does: { Self → P → W → W → Type 0 } = { λ _ _ _ _. Unit {0} };

    /// Works until the run ends. It is called once for each worker in a run, in a thread of its own.
    fn work<R: Wait + Clock>(&self, rt: &R, provider: &P, worker: &mut W)
        ensures { does self.now provider.now worker.old worker.new };
}

/// A run of a service: each worker works in a thread of its own, at most 64 at once, while the outlets make their turns
/// in another. When all workers have ended, the flag is set, and the service is handed back with the workers; its run
/// has not ended yet, so that [`Service::roll_over`] or [`Service::end`] comes next. The flag was made for this run: by
/// [`StopFlag::wake`] all outlets make a turn at once, and who sets it ends the turns.
///
/// Where no thread can be made, the turns and the workers come one after the other, and the turns never end.
pub fn live<R, O, W, J, B, G>(
    rt: &R,
    service: Service<O, B, G>,
    workers: Vec<W>,
    flag: &StopFlag,
    work: &J,
) -> (Service<O, B, G>, Vec<W>)
where
    R: Threads + Wait + Clock + Sync + AllocGlobal,
    O: Outlets + Drop + Send,
    W: Drop + Send,
    J: Work<W, Provider<B, G>>,
    B: Book + Send + Sync,
    G: Gate + Send + Sync,
    ensures service { (result.0.provider ≡ service.provider) × (result.0.runs ≡ service.runs) }
    ensures turns { MakesTurnsOf (O.turns service.provider) service.outlets result.0.outlets }
    ensures workers { DoesEach (J.does work.now service.provider) workers.items result.1.items }
{
    let Service {
        provider,
        outlets,
        runs,
    } = service;
    let lent = &provider;
    let (outlets, workers) = join(
        rt,
        || make_turns(rt, rt.alloc(), lent, outlets, flag),
        || {
            let workers = work_each(rt, lent, workers, work);
            flag.set(rt);
            workers
        },
    );
    (
        Service {
            provider,
            outlets,
            runs,
        },
        workers,
    )
}

// Each worker works, in a thread of its own.
fn work_each<R, P, W, J>(rt: &R, provider: &P, workers: Vec<W>, work: &J) -> Vec<W>
where
    R: Threads + Wait + Clock + Sync,
    P: Sync,
    W: Send,
    J: Work<W, P>,
    ensures { DoesEach (J.does work.now provider.now) workers.items result.items }
{
    let mut workers = workers;
    let each = |_, worker: &mut W| work.work(rt, provider, worker);
    for_each_mut(rt, workers.as_mut_slice(), THREADS, &each);
    workers
}
