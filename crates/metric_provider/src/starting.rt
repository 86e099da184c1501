//! A provider with its seats.
ghost use Rattle.std.specs.Prelude.{◌≡◌, ◌<◌, ◌≤◌, ◌+◌, IsTrue, length, map, vec_capacity, vec_len, IfOk, IfErr, OnOk};
ghost use Rattle.std.specs.List.{range_with_len};
ghost use Rattle.metric_provider.specs.NewSlots.{AreNewSlots};
ghost use Rattle.metric_provider.specs.Rolling.{new_collectors, new_recorders};
ghost use Rattle.metric_seat.specs.Seats.{provider_of, run_of};

use crate::collector::Collector;
use crate::gate::Gate;
use crate::lanes::Lanes;
use crate::provider::Provider;
use crate::recorder::Recorder;
use crate::sharing::{lane_of_each, lanes_for};
use metric_history::Book;
use metric_plan::Plan;
use metric_seat::RunId;
use metric_slot::Slot;
use std::alloc::{AllocError, Global};
use std::sync::Wait;

/// A provider of a certified plan without recordings, since a start in nanoseconds, with a seat for each recorder and
/// each reader, in order. The seats of the readers have the start, with which that of each instrument is compared under
/// its lock: no batch tells another one. Seats serve the run that they were made for, by its number, its start and its
/// plan's fingerprint: give each provider a number of its own. Where the books keep their entries, the seats of the recorders keep slips. The seed of books that hash is made of the start
/// and the number of the run. When out of memory, the plan and the gate are handed back.
pub fn start<R: Wait, B: Book, G: Gate>(
    _rt: &R,
    alloc: Global,
    plan: Plan,
    start: u64,
    run: u64,
    gate: G,
) -> Result<(Provider<B, G>, Vec<Recorder>, Vec<Collector>), (Plan, G, AllocError)>
    requires { IsTrue plan.is_certified }
    ensures provider { IfOk result (λ made. made.0 ≡ provider_of plan (run_of plan run start)) }
    ensures recorders { IfOk result (λ made. made.1.items
        ≡ new_recorders B.KEEPS_ENTRIES (run_of plan run start) plan) }
    ensures collectors { IfOk result (λ made. made.2.items
        ≡ new_collectors (run_of plan run start) plan) }
    ensures back { IfErr result (λ refused. (refused.0 ≡ plan) × (refused.1 ≡ gate)) }
{
    let beginning = Beginning {
        start,
        run,
        most: 1,
    };
    begin(alloc, plan, beginning, gate)
}

/// The same, where an instrument may stand behind several locks, its lanes, so many at most: recorders of different
/// lanes do not wait for each other. A recorder always records in one lane; a collection, a grant and the end of an
/// instrument take the locks of all its lanes, so each is one step. An instrument has as many lanes as recorders that
/// can record on it, 64 at most; one where the book keeps entries, and where a stream reports last values. Each lane
/// has tables of its own. The next run has as many.
pub fn start_with_lanes<R: Wait, B: Book, G: Gate>(
    _rt: &R,
    alloc: Global,
    plan: Plan,
    start: u64,
    run: u64,
    gate: G,
    lanes: u32,
) -> Result<(Provider<B, G>, Vec<Recorder>, Vec<Collector>), (Plan, G, AllocError)>
    requires { IsTrue plan.is_certified }
    ensures provider { IfOk result (λ made. made.0 ≡ provider_of plan (run_of plan run start)) }
    ensures recorders { IfOk result (λ made. made.1.items
        ≡ new_recorders B.KEEPS_ENTRIES (run_of plan run start) plan) }
    ensures collectors { IfOk result (λ made. made.2.items
        ≡ new_collectors (run_of plan run start) plan) }
    ensures back { IfErr result (λ refused. (refused.0 ≡ plan) × (refused.1 ≡ gate)) }
{
    let beginning = Beginning {
        start,
        run,
        most: lanes,
    };
    begin(alloc, plan, beginning, gate)
}

/// When a run starts, in nanoseconds, its number, and how many lanes an instrument may have.
#[derive(Clone, Copy)]
pub(crate) struct Beginning {
    pub(crate) start: u64,
    pub(crate) run: u64,
    pub(crate) most: u32,
}

fn begin<B: Book, G: Gate>(
    alloc: Global,
    plan: Plan,
    beginning: Beginning,
    gate: G,
) -> Result<(Provider<B, G>, Vec<Recorder>, Vec<Collector>), (Plan, G, AllocError)>
    requires { IsTrue plan.is_certified }
    ensures provider { IfOk result (λ made.
        made.0 ≡ provider_of plan (run_of plan beginning.run beginning.start)) }
    ensures recorders { IfOk result (λ made. made.1.items
        ≡ new_recorders B.KEEPS_ENTRIES (run_of plan beginning.run beginning.start) plan) }
    ensures collectors { IfOk result (λ made. made.2.items
        ≡ new_collectors (run_of plan beginning.run beginning.start) plan) }
    ensures back { IfErr result (λ refused. (refused.0 ≡ plan) × (refused.1 ≡ gate)) }
{
    match new_parts(alloc, &plan, beginning) {
        Ok((slots, recorders, collectors)) => {
            let run = RunId::of(&plan, beginning.run, beginning.start);
            let provider = Provider::from_slots(plan, run, gate, slots, beginning.most);
            Ok((provider, recorders, collectors))
        }
        Err(error) => Err((plan, gate, error)),
    }
}

/// The instruments, and the seats of the recorders and the readers.
pub(crate) fn new_parts<B: Book>(
    alloc: Global,
    plan: &Plan,
    beginning: Beginning,
) -> Result<(Vec<Lanes<B>>, Vec<Recorder>, Vec<Collector>), AllocError>
    requires { IsTrue plan.now.is_certified }
    ensures slots { IfOk result (λ made. vec_len made.0 ≡ length plan.now.facts.instruments) }
    ensures recorders { IfOk result (λ made. made.1.items
        ≡ new_recorders B.KEEPS_ENTRIES (run_of plan.now beginning.run beginning.start) plan.now) }
    ensures collectors { IfOk result (λ made. made.2.items
        ≡ new_collectors (run_of plan.now beginning.run beginning.start) plan.now) }
{
    let Beginning { start, run, .. } = beginning;
    let slots = new_slots(alloc, plan, start, seed_of(start, run))?;
    let mut slots = locked(alloc, slots)?;
    add_lanes(alloc, plan, beginning, &mut slots)?;
    let run = RunId::of(plan, run, start);
    let recorders = new_recorders(alloc, plan, run, B::KEEPS_ENTRIES)?;
    let collectors = new_collectors(alloc, plan, run)?;
    Ok((slots, recorders, collectors))
}

// The seed of a run. Runs that start in one moment have different ones: the factor is odd, so it takes no two numbers
// to one, and has its bits spread, so it takes them far apart.
fn seed_of(start: u64, run: u64) -> u64 {
    start ^ run.wrapping_mul(0x9E37_79B9_7F4A_7C15)
}

// The slot of each instrument, in order, without recordings since the start.
fn new_slots<B: Book>(
    alloc: Global,
    plan: &Plan,
    start: u64,
    seed: u64,
) -> Result<Vec<Slot<B>>, AllocError>
    requires { IsTrue plan.now.is_certified }
    ensures all { IfOk result (λ slots. vec_len slots ≡ length plan.now.facts.instruments) }
    ensures each { IfOk result (λ slots.
        AreNewSlots B.stands plan.now.facts.instruments start slots.items) }
{
    let count = plan.catalogue().instruments().len() as u32;
    let mut slots = Vec::new(alloc);
    for instrument in 0..count {
        let slot = Slot::with_seed(alloc, plan, instrument, start, seed)?;
        slots.push(slot)?;
    }
    Ok(slots)
}

// The slots in order, each the one lane of its instrument.
fn locked<B: Book>(alloc: Global, slots: Vec<Slot<B>>) -> Result<Vec<Lanes<B>>, AllocError>
    ensures { IfOk result (λ locked. vec_len locked ≡ vec_len slots) }
{
    let mut unlocked = slots;
    let mut locked = Vec::with_capacity(alloc, unlocked.len())?;
    unlocked.as_mut_slice().reverse();
    lock_each(alloc, &mut unlocked, &mut locked)?;
    Ok(locked)
}

// Puts each slot behind a lock, the last one first. Fails only when out of memory.
fn lock_each<B: Book>(
    alloc: Global,
    slots: &mut Vec<Slot<B>>,
    locked: &mut Vec<Lanes<B>>,
) -> Result<(), AllocError>
    requires room { vec_len locked.old + vec_len slots.old ≤ vec_capacity locked.old }
    ensures { OnOk result (vec_len locked.new ≡ vec_len locked.old + vec_len slots.old) }
{
    while let Some(slot) = slots.pop() {
        locked.push_reserved(Lanes::one(alloc, slot)?);
    }
    Ok(())
}

// Adds to each instrument's first lane the others, where it has some.
fn add_lanes<B: Book>(
    alloc: Global,
    plan: &Plan,
    beginning: Beginning,
    all: &mut Vec<Lanes<B>>,
) -> Result<(), AllocError>
    requires certified { IsTrue plan.now.is_certified }
    requires slots { vec_len all.old ≡ length plan.now.facts.instruments }
    ensures { vec_len all.new ≡ vec_len all.old }
{
    for instrument in 0..instruments_of(plan) {
        let lanes = &mut all[instrument as usize];
        add_others(alloc, plan, beginning, instrument, lanes)?;
    }
    Ok(())
}

// How many instruments a plan has.
fn instruments_of(plan: &Plan) -> u32
    ensures { result ≡ length plan.now.facts.instruments }
{
    plan.catalogue().instruments().len() as u32
}

// Adds the other lanes of an instrument to its first one.
fn add_others<B: Book>(
    alloc: Global,
    plan: &Plan,
    beginning: Beginning,
    instrument: u32,
    lanes: &mut Lanes<B>,
) -> Result<(), AllocError>
    requires certified { IsTrue plan.now.is_certified }
    requires known { instrument < length plan.now.facts.instruments }
{
    let facts = plan.facts(instrument);
    let count = lanes_for(facts, B::KEEPS_ENTRIES, beginning.most);
    let seed = seed_of(beginning.start, beginning.run);
    for _other in 1..count {
        lanes.add(Slot::with_seed(alloc, plan, instrument, beginning.start, seed)?)?;
    }
    lanes.share(lane_of_each(alloc, facts, count)?);
    Ok(())
}

// The seat of each recorder, told of nothing, and whether it keeps slips.
fn new_recorders(
    alloc: Global,
    plan: &Plan,
    run: RunId,
    keeps: bool,
) -> Result<Vec<Recorder>, AllocError>
    ensures { IfOk result (λ seats. seats.items ≡ new_recorders keeps run plan.now) }
{
    let instruments = plan.all_facts().len();
    let count = plan.catalogue().recorders().len() as u32;
    let mut seats = Vec::new(alloc);
    for number in 0..count {
        seats.push(Recorder::new(alloc, run, number, instruments, keeps)?)?;
    }
    Ok(seats)
}

// The seat of each reader, which has seen nothing of a run.
fn new_collectors(alloc: Global, plan: &Plan, run: RunId) -> Result<Vec<Collector>, AllocError>
    ensures { IfOk result (λ seats. seats.items ≡ new_collectors run plan.now) }
{
    let instruments = plan.all_facts().len();
    let count = plan.config().readers().len() as u32;
    let mut seats = Vec::new(alloc);
    for number in 0..count {
        seats.push(Collector::new(alloc, run, number, instruments)?)?;
    }
    Ok(seats)
}
