//! Seats with the plan that they are of, which several owners share.
ghost use Rattle.std.specs.Prelude.{◌≡◌, [], OnErr, OnOk};
ghost use Rattle.metric_hosted.specs.Readers.{Collects, RefusesReading};

use crate::instrument::Hosted;
use metric_base::Shared;
use metric_contents::Refusal;
use metric_history::Batch;
use metric_plan::Plan;
use metric_seat::{ReaderSeat, RecorderSeat};
use std::alloc::Global;
use std::marker::Model;

/// The seat of a recorder with its plan.
#[derive(Drop)]
pub struct HostedRecorder {
    /// The plan.
    pub plan: Shared<Plan>,
    /// The seat.
    pub seat: RecorderSeat,
}

/// The seat of a reader with its plan, and the batches that it keeps.
#[derive(Drop)]
pub struct HostedReader {
    /// The plan.
    pub plan: Shared<Plan>,
    /// The seat.
    pub seat: ReaderSeat,
    /// The batches of a collection, in order; none before one.
    pub kept: Batches,
}

/// Batches that a reader keeps.
#[derive(Drop)]
pub struct Batches {
    batches: Vec<Batch>,
}

impl Model for Batches {
    ghost use Rattle.std.specs.Prelude.{List};
    ghost use Rattle.metric_history.specs.declared.batch.Batch.{Batch as Kept};

    ghost Value = { List Kept };

    ghost view = { λ b. b.batches.items };
}

impl Batches {
    /// No batches. Allocates no memory.
    pub fn new(alloc: Global) -> Batches
        ensures { result ≡ [] }
    {
        Batches {
            batches: Vec::new(alloc),
        }
    }

    /// The batches in order.
    pub fn as_slice(&self) -> &[Batch]
        ensures { result.now ≡ self.now }
    {
        self.batches.as_slice()
    }
}

impl HostedReader {
    /// Collects an instrument at a time in nanoseconds (Metrics SDK, collect). The batch is kept alone, or behind those
    /// that are kept.
    ///
    /// # Errors
    ///
    /// Those of [`Hosted::collect`]; then nothing is collected.
    pub fn collect(
        &mut self,
        alloc: Global,
        held: &mut Hosted,
        now: u64,
        keeps: bool,
    ) -> Result<(), Refusal>
        ensures answer { RefusesReading held.old self.old now result }
        ensures done { OnOk result (Collects keeps now held.old held.new self.old self.new) }
        ensures held { OnErr result (held.new ≡ held.old) }
        ensures err { OnErr result (self.new ≡ self.old) }
    {
        let HostedReader { plan, seat, kept } = self;
        if kept.batches.reserve(1).is_err() {
            return Err(Refusal::Memory);
        }
        let batch = held.collect(alloc, plan.get(), seat, now)?;
        if !keeps {
            kept.batches.clear();
        }
        kept.batches.push_reserved(batch);
        Ok(())
    }
}
