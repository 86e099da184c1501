//! What a provider's instruments come to.
use crate::collector::Collector;
use crate::gate::Gate;
use crate::provider::Provider;
use crate::recorder::Recorder;
use metric_base::Items;
use metric_history::{Book, Entry, Slip};
use metric_plan::Plan;
use metric_seat::Total;

/// What a provider comes to when it is finished.
#[derive(Drop)]
pub struct Totals {
    /// The total of each instrument, in order.
    pub instruments: Vec<Total>,
    /// The accepted recordings of each instrument, in order, oldest first. Each list is empty where the books keep no
    /// entries.
    pub journals: Vec<Items<Entry>>,
    /// The slips of each recorder on each instrument, both in order. Each list is empty where the books keep no
    /// entries.
    pub slips: Vec<Items<Items<Slip>>>,
}

/// What a finished provider comes to, and what it was started of.
#[derive(Drop)]
pub struct Finished<G> {
    /// What it comes to.
    pub totals: Totals,
    /// The certified plan.
    pub plan: Plan,
    /// What was done inside its locks.
    pub gate: G,
}

/// What a provider comes to that is finished without the seats of some of its recorders.
#[derive(Drop)]
pub struct Partly {
    /// What the recorders that have seats were told, with the journals of all.
    pub totals: Totals,
    /// The numbers of the recorders without a seat, in ascending order.
    pub missing: Vec<u32>,
}

/// A provider of the next run of a plan with its seats, and what the run before came to.
#[derive(Drop)]
pub struct Rolled<B: Book, G: Gate> {
    /// The provider of the next run.
    pub provider: Provider<B, G>,
    /// The seat of each recorder for the next run, in order, told of nothing.
    pub recorders: Vec<Recorder>,
    /// The seat of each reader for the next run, in order, which has seen nothing.
    pub collectors: Vec<Collector>,
    /// What the run before came to.
    pub totals: Totals,
}
