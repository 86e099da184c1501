//! Memory that runs out in the middle of a run.
//!
//! No test can have one allocation of its process refused, so a book refuses in its place, as it would where a
//! table can not grow.
use crate::asserted::assert_equal;
use crate::runs::told;
use metric_contents::Refusal;
use metric_facts::Facts;
use metric_history::{Book, Entry, Window};
use metric_marked::Marked;
use std::alloc::{AllocError, Global};
use std::cell::Cell;
use std::marker::Model;

/// A book of running tables that says `Memory` to the first recording and to the first collection, each once.
#[derive(Drop)]
struct Refusing {
    book: Marked,
    is_new: bool,
    refuses_recording: bool,
    refuses_collection: Cell<bool>,
}

impl Model for Refusing {
    ghost use Rattle.tests_runs.specs.Refusing.{RefusingValue};

    ghost Value = { RefusingValue };

    ghost view = { λ r. record { book = r.book; is_new = r.is_new } };
}

impl Book for Refusing {
    ghost use Rattle.std.specs.Prelude.{[], false, refl};
    ghost use Rattle.tests_runs.specs.Refusing.{StandsRefusing};

    ghost stands = { StandsRefusing };

    ghost spares_memory = { λ _. ⊥ };

    ghost kept = { λ _. [] };

    ghost KEEPS_ENTRIES = { false };

    ghost keeps_all_or_nothing = { λ book facts journal marks stand. refl };

    const KEEPS_ENTRIES: bool = false;

    fn new(alloc: Global, facts: &Facts, seed: u64) -> Result<Refusing, AllocError> {
        Ok(Refusing {
            book: Marked::new(alloc, facts, seed)?,
            is_new: true,
            refuses_recording: true,
            refuses_collection: Cell::new(true),
        })
    }

    fn push(&mut self, entry: Entry) -> Result<(), Refusal> {
        if self.is_new && self.refuses_recording {
            self.refuses_recording = false;
            return Err(Refusal::Memory);
        }
        self.book.push(entry)?;
        self.is_new = false;
        Ok(())
    }

    fn report(&self, alloc: Global, reader: u32) -> Result<Window, AllocError> {
        if self.refuses_collection.replace(false) {
            return Err(AllocError);
        }
        self.book.report(alloc, reader)
    }

    fn advance(&mut self, reader: u32) {
        self.book.advance(reader);
    }

    fn entries(&self) -> &[Entry] {
        &[]
    }
}

// Two series are held: fewer than the key has values, as many as the budget allows.
const INPUT: &str = "%% catalogue
format = 1
[[meter]]
name = 'm'
[[meter.instrument]]
name = 'hits'
kind = 'counter'
range = [0, 9]
key = [{ name = 'k', values = ['x', 'y', 'z'] }]
[[recorder]]
name = 'r'
budget = [{ instrument = 0, amount = 2 }]
%% config
format = 1
[[reader]]
name = 'main'
temporality = { counter = 'delta' }
[[view]]
instrument_name = 'hits'
limit = 2
%% script
start 0
record 0 0 1 \"k\"=\"x\"
record 0 0 1 \"k\"=\"x\"
collect 0 0 10
collect 0 0 10
record 0 0 1 \"k\"=\"y\"
record 0 0 1 \"k\"=\"z\"
collect 0 0 20
";

const REPLIES: &str = "refused 11 Memory
accepted
refused 11 Memory
collected 10 1
stream reader=\"main\" meter=\"m\" version=\"\" schema=\"\" name=\"hits\" unit=\"\" description=\"\" kind=sum monotonic=yes temporality=delta
point {\"k\"=\"x\"} start=0 time=10 value=1
accepted
refused 9 Budget
collected 20 1
stream reader=\"main\" meter=\"m\" version=\"\" schema=\"\" name=\"hits\" unit=\"\" description=\"\" kind=sum monotonic=yes temporality=delta
point {\"k\"=\"y\"} start=10 time=20 value=1
";

#[test]
fn what_memory_refused_changes_nothing(rt: HostRuntime) {
    assert_equal(
        &rt,
        told::<_, Refusing>(&rt, rt.alloc(), INPUT, usize::MAX).as_str(),
        REPLIES,
    );
}
