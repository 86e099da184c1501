//! A book of running tables that keeps the recordings too.
ghost use Rattle.std.specs.Prelude.{Err};
ghost use Rattle.metric_history.specs.Journals.{JudgesRecording, MayTake};
ghost use Rattle.metric_marked.specs.Marks.{StandsMarked};

use metric_contents::Refusal;
use metric_facts::Facts;
use metric_history::{Book, Entry, Window};
use metric_marked::Marked;
use std::alloc::{AllocError, Global};
use std::marker::Model;

/// The accepted recordings of one instrument twice: as the running values of their series, from which collections
/// are answered, and as a list that can be handed out and audited. Each recording makes the list longer.
#[derive(Drop)]
pub struct Audited {
    tables: Marked,
    entries: Vec<Entry>,
}

impl Model for Audited {
    ghost use Rattle.metric_audit.specs.AuditedStands.{AuditedValue};

    ghost Value = { AuditedValue };

    ghost view = { λ book. record { tables = book.tables; entries = book.entries.items } };
}

impl Book for Audited {
    ghost use Rattle.std.specs.Prelude.{true};
    ghost use Rattle.metric_audit.specs.AuditedStands.{StandsAudited};

    ghost stands = { StandsAudited };

    // Each recording makes the list longer.
    ghost spares_memory = { λ _. ⊥ };

    ghost kept = { λ book. book.entries };

    ghost KEEPS_ENTRIES = { true };

    ghost keeps_all_or_nothing = { λ book facts journal marks stand. stand.entries };

    const KEEPS_ENTRIES: bool = true;

    fn new(alloc: Global, facts: &Facts, seed: u64) -> Result<Audited, AllocError> {
        Ok(Audited {
            tables: Marked::new(alloc, facts, seed)?,
            entries: Vec::new(alloc),
        })
    }

    // The room in the list is made first, so that nothing can fail once the tables have taken the recording.
    fn push(&mut self, entry: Entry) -> Result<(), Refusal> {
        if self.entries.reserve(1).is_err() {
            return Err(refusal_without_room(&self.tables, &entry));
        }
        self.tables.push(entry)?;
        self.entries.push_reserved(entry);
        Ok(())
    }

    fn report(&self, alloc: Global, reader: u32) -> Result<Window, AllocError> {
        self.tables.report(alloc, reader)
    }

    fn advance(&mut self, reader: u32) {
        self.tables.advance(reader);
    }

    fn entries(&self) -> &[Entry] {
        self.entries.as_slice()
    }
}

// The refusal of a recording for which the list has no room: `SumRange` of any table goes before `Memory`.
fn refusal_without_room(tables: &Marked, entry: &Entry) -> Refusal
    requires { MayTake (StandsMarked tables.now) entry.now }
    ensures { JudgesRecording (StandsMarked tables.now) entry.now (Err result) }
{
    if tables.fits(entry) {
        Refusal::Memory
    } else {
        Refusal::SumRange
    }
}
