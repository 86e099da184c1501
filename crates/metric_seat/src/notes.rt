//! The slips of a recorder.
ghost use Rattle.std.specs.Prelude.{◌≡◌, ◌≤◌, ◌+◌, ◌-◌, [], ◌++◌, length, map, replicate, take, vec_capacity, vec_len, IfOk, OnOk, OnErr};
ghost use Rattle.metric_seat.specs.KeyRecordings.{slip_of_one};

use crate::keys::Measurement;
use metric_history::Slip;
use std::alloc::{AllocError, Global};
use std::marker::Model;

/// The slips of one recorder on one instrument, in order. A clause sees the list.
#[derive(Drop)]
pub(crate) struct Notes {
    slips: Vec<Slip>,
}

impl Model for Notes {
    ghost use Rattle.std.specs.Prelude.{List};
    ghost use Rattle.metric_history.specs.declared.slip.Slip.{Slip};

    ghost Value = { List Slip };

    ghost view = { λ n. n.slips.items };
}

impl Notes {
    // No slips. Allocates no memory.
    fn new(alloc: Global) -> Notes
        ensures { result ≡ [] }
    {
        Notes {
            slips: Vec::new(alloc),
        }
    }

    /// A slip of each recording, after those so far. When out of memory, none is made.
    pub(crate) fn add_each(&mut self, all: &[Measurement]) -> Result<(), AllocError>
        ensures ok { OnOk result (self.new ≡ self.old ++ map slip_of_one all.now) }
        ensures err { OnErr result (self.new ≡ self.old) }
    {
        self.slips.reserve(all.len())?;
        add_reserved(&mut self.slips, all);
        Ok(())
    }

    /// Strikes out so many of the last ones.
    pub(crate) fn strike_out(&mut self, count: usize)
        ensures { self.new ≡ take (length self.old - count) self.old }
    {
        let left = self.slips.len().saturating_sub(count);
        self.slips.truncate(left);
    }

    /// The slips, in order.
    pub(crate) fn as_slice(&self) -> &[Slip]
        ensures { result.now ≡ self.now }
    {
        self.slips.as_slice()
    }
}

// Puts a slip of each recording last.
fn add_reserved(slips: &mut Vec<Slip>, all: &[Measurement])
    requires { vec_len slips.old + length all.now ≤ vec_capacity slips.old }
    ensures { slips.new.items ≡ slips.old.items ++ map slip_of_one all.now }
{
    for one in all {
        slips.push_reserved(Slip {
            set: one.set,
            value: one.value,
        });
    }
}

/// A list without slips for each of so many instruments.
pub(crate) fn no_notes(alloc: Global, instruments: usize) -> Result<Vec<Notes>, AllocError>
    ensures { IfOk result (λ notes. notes.items ≡ replicate instruments []) }
{
    let mut notes = Vec::with_capacity(alloc, instruments)?;
    for _ in 0..instruments {
        notes.push_reserved(Notes::new(alloc));
    }
    Ok(notes)
}
