//! The start.
ghost use Rattle.std.specs.Prelude.{◌≡◌, ◌≢◌, ◌≤◌, ◌⊎◌, ◌↔◌, ◌&&◌, false, true, IsTrue, length, IfErr, IfOk};
ghost use Rattle.std.specs.Str.{is_utf8};
ghost use Rattle.wormweekly_c.specs.Opening.{AreNewInstruments, Begins, Counted, HasFault, IsOpenCode, Opens, counts_of, held_by, held_in, holds_something, lacks_handles, new_readers, new_recorders};
ghost use Rattle.wormweekly_c.specs.Refusing.{IsWhy};
ghost use Rattle.wormweekly_c.specs.Telling.{HasFront};
ghost use Rattle.wormweekly_c.specs.Texts.{AreFirst};
ghost use Rattle.metric_seat.specs.Seats.{run_of};
ghost use Rattle.metric_setup.specs.Setups.{IsCertifiedPlan};

use crate::codes::{DONE, MEMORY, NO_TEXT, OPEN, TOO_SHORT};
use crate::empty::holds_something;
use crate::handles::Handle;
use crate::held::Held;
use crate::no_plan::{NoPlan, tell};
use crate::telling::fault_message;
use metric_base::{Copied, Shared};
use metric_hosted::{
    Batches, Hosted, HostedReader, HostedRecorder, ReaderSeat, RecorderSeat, RunId,
};
use metric_plan::Plan;
use metric_setup::certified_plan;
use std::alloc::{AllocError, Global};
use std::str::from_utf8;

/// How many instruments, recorders and readers there are.
#[repr(C)]
#[derive(Clone, Copy, Drop)]
pub struct Counts {
    pub instruments: usize,
    pub recorders: usize,
    pub readers: usize,
}

/// Opens the instruments of the certified plan of a catalogue and a config, since a start in nanoseconds, in the run of
/// a number, with a seat for each recorder and each reader, and writes how many there are. Where there are too few
/// handles, one that holds something, or a fault, nothing is opened. A fault is told as in `wormweekly lint`, with its
/// file and its place, as far as there is room, with its whole length.
#[unsafe(no_mangle)]
pub extern "C" fn wormweekly_open_run(
    alloc: Global,
    catalogue: &[u8],
    config: &[u8],
    start: u64,
    run: u64,
    instruments: &mut [Handle],
    recorders: &mut [Handle],
    readers: &mut [Handle],
    counts: &mut Counts,
    fault: &mut [u8],
    fault_length: &mut usize,
) -> u32
    ensures opened { let old = held_by instruments.old recorders.old readers.old in
        let new = held_by instruments.new recorders.new readers.new in
        result ≡ 0 → Opens (IsCertifiedPlan catalogue.now config.now) start run counts.new old new }
    ensures answer { IsOpenCode result ⊎ ((result ≡ 101) ⊎ ((result ≡ 103) ⊎ (result ≡ 109))) }
    ensures held { let old = held_by instruments.old recorders.old readers.old in
        (result ≡ 109) ↔ (holds_something old ≡ true) }
    ensures counted { result ≡ 102 → Counted (IsCertifiedPlan catalogue.now config.now) counts.new }
    ensures short { result ≡ 102 → lacks_handles counts.new
        (length instruments.old) (length recorders.old) (length readers.old) ≡ true }
    ensures uncounted { (result ≡ 101) ⊎ ((result ≡ 103) ⊎ (result ≡ 109))
        → counts.new ≡ counts.old }
    ensures no_text { result ≡ 101 → (is_utf8 catalogue.now && is_utf8 config.now) ≡ false }
    ensures texts { result ≡ 103 → (is_utf8 catalogue.now && is_utf8 config.now) ≡ true }
    ensures fault { result ≢ 103 → (fault.new ≡ fault.old) × (fault_length.new ≡ 0) }
    ensures told { let HasFault = HasFault catalogue.now config.now in
        result ≡ 103 → HasFront HasFault fault.old fault.new fault_length.new }
    ensures instruments { result ≢ 0 → held_in instruments.new ≡ held_in instruments.old }
    ensures recorders { result ≢ 0 → held_in recorders.new ≡ held_in recorders.old }
    ensures readers { result ≢ 0 → held_in readers.new ≡ held_in readers.old }
{
    *fault_length = 0;
    if holds_something(alloc, instruments, recorders, readers) {
        return OPEN;
    }
    match plan_for(alloc, catalogue, config) {
        Err(NoPlan::NoText) => NO_TEXT,
        Err(NoPlan::Memory) => MEMORY,
        Err(NoPlan::Fault(text)) => tell(text.as_slice(), fault, fault_length),
        Ok(plan) => open_plan(
            alloc,
            plan,
            start,
            run,
            instruments,
            recorders,
            readers,
            counts,
        ),
    }
}

// The certified plan of two texts.
fn plan_for(alloc: Global, catalogue: &[u8], config: &[u8]) -> Result<Plan, NoPlan>
    ensures certified { IfOk result (λ plan. IsTrue plan.is_certified) }
    ensures plan { IfOk result (IsCertifiedPlan catalogue.now config.now) }
    ensures why { IfErr result (IsWhy (is_utf8 catalogue.now && is_utf8 config.now)
        (HasFault catalogue.now config.now)) }
{
    let Ok(catalogue) = from_utf8(catalogue) else {
        return Err(NoPlan::NoText);
    };
    let Ok(config) = from_utf8(config) else {
        return Err(NoPlan::NoText);
    };
    plan_of(alloc, catalogue, config)
}

fn plan_of(alloc: Global, catalogue: &str, config: &str) -> Result<Plan, NoPlan>
    ensures certified { IfOk result (λ plan. IsTrue plan.is_certified) }
    ensures plan { IfOk result (IsCertifiedPlan catalogue.now config.now) }
    ensures why { IfErr result (IsWhy true (HasFault catalogue.now config.now)) }
{
    match certified_plan(alloc, catalogue, config) {
        Ok(plan) => Ok(plan),
        Err(fault) => match fault_message(alloc, catalogue, config, "", fault) {
            Ok(text) => Err(NoPlan::Fault(text)),
            Err(_) => Err(NoPlan::Memory),
        },
    }
}

/// Opens the instruments of a certified plan, and writes how many of each there are; where there are too few handles,
/// nothing is opened.
pub(crate) fn open_plan(
    alloc: Global,
    plan: Plan,
    start: u64,
    run: u64,
    instruments: &mut [Handle],
    recorders: &mut [Handle],
    readers: &mut [Handle],
    counts: &mut Counts,
) -> u32
    requires { IsTrue plan.is_certified }
    ensures counts { result ≢ 11 → counts.new ≡ counts_of plan }
    ensures opened { let old = held_by instruments.old recorders.old readers.old in
        let new = held_by instruments.new recorders.new readers.new in
        result ≡ 0 → Begins plan start run old new }
    ensures answer { IsOpenCode result }
    ensures short { result ≡ 102 → lacks_handles counts.new
        (length instruments.old) (length recorders.old) (length readers.old) ≡ true }
    ensures instruments { result ≢ 0 → instruments.new ≡ instruments.old }
    ensures recorders { result ≢ 0 → recorders.new ≡ recorders.old }
    ensures readers { result ≢ 0 → readers.new ≡ readers.old }
{
    match Shared::new(alloc, plan) {
        Err(_) => MEMORY,
        Ok(plan) => open_shared(
            alloc,
            &plan,
            start,
            run,
            instruments,
            recorders,
            readers,
            counts,
        ),
    }
}

/// The same of a plan that other handles share.
pub(crate) fn open_shared(
    alloc: Global,
    plan: &Shared<Plan>,
    start: u64,
    run: u64,
    instruments: &mut [Handle],
    recorders: &mut [Handle],
    readers: &mut [Handle],
    counts: &mut Counts,
) -> u32
    requires { IsTrue plan.now.is_certified }
    ensures counts { counts.new ≡ counts_of plan.now }
    ensures opened { let old = held_by instruments.old recorders.old readers.old in
        let new = held_by instruments.new recorders.new readers.new in
        result ≡ 0 → Begins plan.now start run old new }
    ensures answer { IsOpenCode result }
    ensures short { result ≡ 102 → lacks_handles counts.new
        (length instruments.old) (length recorders.old) (length readers.old) ≡ true }
    ensures instruments { result ≢ 0 → instruments.new ≡ instruments.old }
    ensures recorders { result ≢ 0 → recorders.new ≡ recorders.old }
    ensures readers { result ≢ 0 → readers.new ≡ readers.old }
{
    *counts = counts_of(plan.get());
    if lacks_handles(counts, instruments.len(), recorders.len(), readers.len()) {
        return TOO_SHORT;
    }
    match new_run(alloc, plan, start, run) {
        Err(_) => MEMORY,
        Ok(made) => {
            place(instruments, made.instruments);
            place(recorders, made.recorders);
            place(readers, made.readers);
            DONE
        }
    }
}

// Whether there are fewer handles of some kind than there are to be.
fn lacks_handles(counts: &Counts, instruments: usize, recorders: usize, readers: usize) -> bool
    ensures { result ≡ lacks_handles counts.now instruments recorders readers }
{
    instruments < counts.instruments || recorders < counts.recorders || readers < counts.readers
}

fn counts_of(plan: &Plan) -> Counts
    ensures { result ≡ counts_of plan.now }
{
    Counts {
        instruments: plan.catalogue().instruments().len(),
        recorders: plan.catalogue().recorders().len(),
        readers: plan.config().readers().len(),
    }
}

// Puts what was made into the first places.
fn place<T: Drop>(places: &mut [T], made: Vec<T>)
    requires { length made.items ≤ length places.old }
    ensures { AreFirst made.items places.old places.new }
{
    let mut made = made;
    while let Some(one) = made.pop() {
        let at = made.len();
        places[at] = one;
    }
}

// What a run begins with.
#[derive(Drop)]
struct NewRun {
    instruments: Vec<Handle>,
    recorders: Vec<Handle>,
    readers: Vec<Handle>,
}

fn new_run(alloc: Global, plan: &Shared<Plan>, start: u64, run: u64) -> Result<NewRun, AllocError>
    requires { IsTrue plan.now.is_certified }
    ensures instruments { IfOk result (λ made.
        AreNewInstruments plan.now start run (held_in made.instruments.items)) }
    ensures recorders { IfOk result (λ made.
        held_in made.recorders.items ≡ new_recorders plan.now (run_of plan.now run start)) }
    ensures readers { IfOk result (λ made.
        held_in made.readers.items ≡ new_readers plan.now (run_of plan.now run start)) }
{
    let instruments = new_instruments(alloc, plan.get(), start, run)?;
    let run = RunId::of(plan.get(), run, start);
    let recorders = new_recorders(alloc, plan, run)?;
    let readers = new_readers(alloc, plan, run)?;
    Ok(NewRun {
        instruments,
        recorders,
        readers,
    })
}

fn new_instruments(
    alloc: Global,
    plan: &Plan,
    start: u64,
    run: u64,
) -> Result<Vec<Handle>, AllocError>
    requires { IsTrue plan.now.is_certified }
    ensures { IfOk result (λ all.
        AreNewInstruments plan.now start run (held_in all.items)) }
{
    let count = plan.catalogue().instruments().len() as u32;
    let mut all = Vec::new(alloc);
    for number in 0..count {
        let hosted = Hosted::new(alloc, plan, number, start, run)?;
        let held = Box::new(alloc, Held::Instrument(hosted))?;
        all.push(Handle::of(held))?;
    }
    Ok(all)
}

fn new_recorders(alloc: Global, plan: &Shared<Plan>, run: RunId) -> Result<Vec<Handle>, AllocError>
    ensures { IfOk result (λ all. held_in all.items ≡ new_recorders plan.now run) }
{
    let instruments = plan.get().all_facts().len();
    let count = plan.get().catalogue().recorders().len() as u32;
    let mut all = Vec::new(alloc);
    for number in 0..count {
        let seat = RecorderSeat::new(alloc, run, number, instruments, false)?;
        let plan = plan.copy(alloc)?;
        let own = HostedRecorder { plan, seat };
        let held = Box::new(alloc, Held::Recorder(own))?;
        all.push(Handle::of(held))?;
    }
    Ok(all)
}

fn new_readers(alloc: Global, plan: &Shared<Plan>, run: RunId) -> Result<Vec<Handle>, AllocError>
    ensures { IfOk result (λ all. held_in all.items ≡ new_readers plan.now run) }
{
    let instruments = plan.get().all_facts().len();
    let count = plan.get().config().readers().len() as u32;
    let mut all = Vec::new(alloc);
    for number in 0..count {
        let seat = ReaderSeat::new(alloc, run, number, instruments)?;
        let plan = plan.copy(alloc)?;
        let kept = Batches::new(alloc);
        let own = HostedReader { plan, seat, kept };
        let held = Box::new(alloc, Held::Reader(own))?;
        all.push(Handle::of(held))?;
    }
    Ok(all)
}
