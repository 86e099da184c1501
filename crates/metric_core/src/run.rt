//! All instruments of a plan.
ghost use Rattle.std.specs.Prelude.{◌≡◌, ℕ, ◌<◌, ◌≤◌, List, [], length, vec_capacity, All, IfOk, IfErr, OnErr};
ghost use Rattle.metric_core.specs.CertifiedRuns.{StaysSafe};
ghost use Rattle.metric_core.specs.CoreStands.{AreCellsOf, CellsStand, CoreStands, TellsAccepted};
ghost use Rattle.metric_history.specs.declared.event.Event.{Event as events_of};
ghost use Rattle.metric_history.specs.declared.event.Reply.{Reply as replies_of};
ghost use Rattle.metric_history.specs.Events.{attr_count};
ghost use Rattle.metric_history.specs.History.{History};
ghost use Rattle.metric_history.specs.Legal.{AllLegal, grown};

use crate::cell::Cell;
use crate::steps::step;
use metric_history::laws::runs_keep_histories_legal;
use metric_history::{Book, Entry, Event, Reply};
use metric_plan::Plan;
use metric_safety::laws::safe_plans_have_safe_histories;
use std::alloc::{AllocError, Global};
use std::marker::Model;

/// The instruments of a plan, and what was recorded on them since a time. One thread runs it.
///
/// A core stands for the history of the events that it has run: each reply is the one that this history
/// asks for. A recording takes memory only once nothing else refuses it.
pub struct Core<B: Book> {
    plan: Plan,
    start: u64,
    cells: Vec<Cell<B>>,
}

impl<B: Book> Drop for Core<B> {
    // A call of its own, so that what owns a core does not carry the steps of dropping each part.
    fn drop(self) {
        let Core {
            plan: _plan,
            start: _,
            cells: _cells,
        } = self;
    }
}

impl<B: Book> Model for Core<B> {
    ghost use Rattle.metric_core.specs.CoreStands.{AreCellsOf, CoreValue};

    ghost Value = { CoreValue B };

    ghost view = { λ c. record { plan = c.plan; start = c.start; cells = c.cells.items } };

    ghost invariant = { λ c. AreCellsOf c.plan.facts.instruments c.cells.items };
}

// The cell of each instrument, without recordings.
fn new_cells<B: Book>(alloc: Global, plan: &Plan, start: u64) -> Result<Vec<Cell<B>>, AllocError>
    ensures { IfOk result (λ cells. CellsStand B.stands plan.now.facts start cells.items []) }
{
    let count = plan.catalogue().instruments().len() as u32;
    let mut cells = Vec::new(alloc);
    for instrument in 0..count {
        cells.push(Cell::new(alloc, plan, instrument, start)?)?;
    }
    Ok(cells)
}

// What legal replies add to a legal history of a certified plan keeps it safe.
fn runs_stay_safe(plan: &Plan)
    ensures { (start : ℕ) (h : History) (events : List events_of) (replies : List replies_of)
        → AllLegal plan.now.facts start h events replies
        → StaysSafe plan.now start h events replies }
{
    // For the proof alone: what a plan and a catalogue keep.
    let _ = plan.catalogue().instruments();
    runs_keep_histories_legal();
    safe_plans_have_safe_histories();
}

// How many attributes the longest list of the events has.
fn longest(events: &[Event]) -> usize
    ensures { All (λ event. attr_count event ≤ result) events.now }
{
    let mut most = 0;
    for event in events {
        most = most.max(event.attr_count());
    }
    most
}

// Answers the events in order. There is room for the replies, and for the keys of each list of
// attributes.
fn run_on<'a, B: Book>(
    alloc: Global,
    plan: &Plan,
    cells: &mut [Cell<B>],
    events: &'a [Event],
    room: &mut Vec<&'a str>,
    replies: &mut Vec<Reply>,
)
    requires none { replies.old.items ≡ [] }
    requires replies { length events.now ≤ vec_capacity replies.old }
    requires room { All (λ event. attr_count event ≤ vec_capacity room.old) events.now }
    requires cells { AreCellsOf plan.now.facts.instruments cells.old }
    ensures cells { AreCellsOf plan.now.facts.instruments cells.new }
    ensures legal { (since : ℕ) (h : History)
        → CellsStand B.stands plan.now.facts since cells.old h
        → AllLegal plan.now.facts since h events.now replies.new.items }
    ensures stands { (since : ℕ) (h : History)
        → CellsStand B.stands plan.now.facts since cells.old h
        → CellsStand B.stands plan.now.facts since cells.new
        (grown h events.now replies.new.items) }
{
    for event in events {
        let reply = step(alloc, plan, cells, event, room);
        replies.push_reserved(reply);
    }
}

impl<B: Book> Core<B> {
    /// A core of the plan without any event, since a start in nanoseconds. When out of memory, the plan is handed back.
    pub fn new(alloc: Global, plan: Plan, start: u64) -> Result<Core<B>, (Plan, AllocError)>
        ensures plan { IfOk result (λ core. core.plan ≡ plan) }
        ensures start { IfOk result (λ core. core.start ≡ start) }
        ensures stands { IfOk result (λ core. CoreStands B.stands core []) }
        ensures err { IfErr result (λ refused. refused.0 ≡ plan) }
    {
        match new_cells(alloc, &plan, start) {
            Err(error) => Err((plan, error)),
            Ok(cells) => Ok(Core { plan, start, cells }),
        }
    }

    /// Answers the events in order, each after those before it. Fails only where the room for the replies, or
    /// for the keys of the longest list of attributes, is refused, and then nothing has changed.
    ///
    /// Where a certificate vouches for the plan, no two exported streams of the history share an identity, no batch
    /// has an overflow point, no recording is refused for a sum, and every number is one of 64 bits.
    pub fn run(&mut self, alloc: Global, events: &[Event]) -> Result<Vec<Reply>, AllocError>
        ensures legal { IfOk result (λ replies. (h : History) → CoreStands B.stands self.old h
            → AllLegal self.old.plan.facts self.old.start h events.now replies.items) }
        ensures stands { IfOk result (λ replies. (h : History) → CoreStands B.stands self.old h
            → CoreStands B.stands self.new (grown h events.now replies.items)) }
        ensures safe { IfOk result (λ replies. (h : History) → CoreStands B.stands self.old h
            → StaysSafe self.old.plan self.old.start h events.now replies.items) }
        ensures plan { self.new.plan ≡ self.old.plan }
        ensures start { self.new.start ≡ self.old.start }
        ensures err { OnErr result (self.new ≡ self.old) }
    {
        let mut replies = Vec::with_capacity(alloc, events.len())?;
        let mut room = Vec::with_capacity(alloc, longest(events))?;
        run_on(
            alloc,
            &self.plan,
            self.cells.as_mut_slice(),
            events,
            &mut room,
            &mut replies,
        );
        runs_stay_safe(&self.plan);
        Ok(replies)
    }

    /// The accepted recordings of an instrument, oldest first, where the book keeps them (`B::KEEPS_ENTRIES`); else
    /// none.
    pub fn entries(&self, instrument: u32) -> &[Entry]
        requires { instrument < length self.now.plan.facts.instruments }
        ensures { TellsAccepted B.stands B.KEEPS_ENTRIES self.now instrument result.now }
    {
        self.cells[instrument as usize].entries()
    }

    /// The plan.
    pub fn plan(&self) -> &Plan
        ensures { result.now ≡ self.now.plan }
    {
        &self.plan
    }
}
