//! What holds an instrument, as a seat calls it.
ghost use Rattle.std.specs.Prelude.{◌≡◌, ◌<◌, ℕ, All, List, Result, length, IfErr, IfOk, OnErr, OnOk};
ghost use Rattle.metric_contents.specs.declared.refusal.Refusal.{Refusal as refusals};
ghost use Rattle.metric_facts.specs.declared.facts.Facts.{Facts as declared_facts};
ghost use Rattle.metric_history.specs.declared.batch.Batch.{Batch as batches};
ghost use Rattle.metric_seat.specs.Collections.{IsNextBatch, RefusesCollection};
ghost use Rattle.metric_seat.specs.KeyRecordings.{IsRecordable, IsRefusedUnder, told_each};
ghost use Rattle.metric_seat.specs.declared.fault.SetsFault.{SetsFault as faults};
ghost use Rattle.metric_seat.specs.declared.keys.Measurement.{Measurement as measurements};
ghost use Rattle.metric_slot.specs.declared.seen.Seen.{Seen as sightings};
ghost use Rattle.metric_slot.specs.declared.told.Told.{Told as tellings};
ghost use Rattle.metric_slot.specs.Sightings.{seen_of};

use crate::fault::SetsFault;
use crate::keys::Measurement;
use metric_contents::Refusal;
use metric_facts::Facts;
use metric_history::{Batch, Book};
use metric_slot::{Seen, Slot, Told};
use std::alloc::Global;

/// An instrument with a book of type `B`, on which recorders record. As a trait, so that a seat cannot but call it:
/// what recordings came to is known by the call alone, and so are the recorder, the set keys and the values of them.
pub trait Held<B: Book> {
    // What recordings in a row come to: the instrument before and after them, the facts and what the recorder was told,
    // which are brought, the recorder's number, the recordings, and their answer.
    ghost records: { Self → Self → declared_facts → tellings → ℕ → List measurements
        → Result (Unit {0}) faults → Type 0 };

    /// Makes recordings, one after the other, and tells their recorder of each, up to the first that is refused.
    fn record_each(
        &mut self,
        facts: &Facts,
        told: &mut Told,
        recorder: u32,
        all: &[Measurement],
    ) -> Result<(), SetsFault>
        requires some { 0 < length all.now }
        requires recorder { recorder < length facts.now.budgets }
        requires each { All (IsRecordable facts.now) all.now }
        ensures told { OnOk result (told.new ≡ told_each told.old facts.now.lo all.now) }
        ensures refused { IfErr result (λ fault.
            IsRefusedUnder B.spares_memory facts.now recorder told.old told.new all.now fault) }
        ensures made { records self.old self.new facts.now told.old recorder all.now result };
}

/// An instrument of which readers collect. As a trait, so that a seat cannot but call it, as [`Held`].
pub trait Collected {
    // What a collection comes to: the instrument before and after it, the facts, the start of the run and what the
    // reader has seen, which are brought, the reader's number, the time, and its answer.
    ghost collects: { Self → Self → declared_facts → ℕ → sightings → ℕ → ℕ
        → Result batches refusals → Type 0 };

    /// Makes a collection at a time in nanoseconds, in a run that started at another; the reader has then seen it.
    fn collect(
        &mut self,
        alloc: Global,
        facts: &Facts,
        start: u64,
        seen: &mut Seen,
        reader: u32,
        now: u64,
    ) -> Result<Batch, Refusal>
        requires { reader < length facts.now.delta }
        ensures batch { IfOk result (λ batch.
            IsNextBatch facts.now start reader seen.old now batch) }
        ensures seen { IfOk result (λ batch. seen.new ≡ seen_of batch) }
        ensures refused { IfErr result (λ refusal. RefusesCollection refusal) }
        ensures seen_err { OnErr result (seen.new ≡ seen.old) }
        ensures made { collects self.old self.new facts.now start seen.old reader now result };
}

impl<B: Book> Collected for Slot<B> {
    ghost use Rattle.metric_seat.specs.OneSlot.{CollectsSlot};

    ghost collects = { λ old new own start seen reader now result.
        CollectsSlot B.stands old new own start seen reader now result };

    fn collect(
        &mut self,
        alloc: Global,
        facts: &Facts,
        start: u64,
        seen: &mut Seen,
        reader: u32,
        now: u64,
    ) -> Result<Batch, Refusal> {
        Slot::collect(self, alloc, facts, start, seen, reader, now)
    }
}
