//! What the recorders of an instrument have spent of their budgets, and what they were granted of its spare.
ghost use Rattle.std.specs.Prelude.{◌≡◌, ◌<◌, ◌≤◌, ◌+◌, ◌-◌, ◌^◌, length, nat_lt, replicate, slice_index, slice_set, vec_len, IfOk};

use crate::room::numbers_apart;
use std::alloc::{AllocError, Global};

// How many recordings each recorder has made, of as many as its budget and what it was granted, and how many may
// still be granted.
#[derive(Drop)]
pub(crate) struct Budgets {
    spent: Vec<u64>,
    granted: Vec<u64>,
    spare: u64,
}

impl Budgets {
    // Those of so many recorders without recordings and without grants, with this spare.
    pub(crate) fn new(alloc: Global, recorders: usize, spare: u64) -> Result<Budgets, AllocError>
        ensures spent { IfOk result (λ new. new.spent.items ≡ replicate recorders 0) }
        ensures granted { IfOk result (λ new. new.granted.items ≡ replicate recorders 0) }
        ensures spare { IfOk result (λ new. new.spare ≡ spare) }
    {
        Ok(Budgets {
            spent: numbers_apart(alloc, 0, recorders)?,
            granted: numbers_apart(alloc, 0, recorders)?,
            spare,
        })
    }

    // Whether the recorder has made fewer recordings than its budget and what it was granted. Grants are looked at only
    // where the budget is spent.
    #[inline(always)]
    pub(crate) fn has_left(&self, budgets: &[u64], recorder: u32) -> bool
        requires spent { recorder < vec_len self.now.spent }
        requires granted { recorder < vec_len self.now.granted }
        requires budgets { recorder < length budgets.now }
        ensures { let declared = slice_index budgets.now recorder in
            let most = declared + slice_index self.now.granted.items recorder in
            result ≡ nat_lt (slice_index self.now.spent.items recorder) most }
    {
        let at = recorder as usize;
        let made = self.spent[at];
        let budget = budgets[at];
        made < budget || made - budget < self.granted[at]
    }

    // Counts one recording more of the recorder.
    #[inline(always)]
    pub(crate) fn charge(&mut self, recorder: u32)
        requires known { recorder < vec_len self.old.spent }
        requires room { slice_index self.old.spent.items recorder + 1 < 2 ^ 64 }
        ensures spent { let before = slice_index self.old.spent.items recorder in
            self.new.spent.items ≡ slice_set self.old.spent.items recorder (before + 1) }
        ensures granted { self.new.granted ≡ self.old.granted }
        ensures spare { self.new.spare ≡ self.old.spare }
    {
        self.spent[recorder as usize] += 1;
    }

    // Grants the recorder so many recordings of what is left of the spare.
    pub(crate) fn grant(&mut self, recorder: u32, amount: u64)
        requires known { recorder < vec_len self.old.granted }
        requires room { slice_index self.old.granted.items recorder + amount < 2 ^ 64 }
        requires left { amount ≤ self.old.spare }
        ensures granted { let before = slice_index self.old.granted.items recorder in
            self.new.granted.items ≡ slice_set self.old.granted.items recorder (before + amount) }
        ensures spare { self.new.spare ≡ self.old.spare - amount }
        ensures spent { self.new.spent ≡ self.old.spent }
    {
        self.granted[recorder as usize] += amount;
        self.spare -= amount;
    }

    // How many recordings the recorder has made; none for one of another number.
    #[inline(always)]
    pub(crate) fn spent(&self, recorder: u32) -> u64
        ensures { result ≡ slice_index self.now.spent.items recorder }
    {
        self.spent.get(recorder as usize).copied().unwrap_or(0)
    }

    // How many recordings the recorder was granted; none for one of another number.
    pub(crate) fn granted(&self, recorder: u32) -> u64
        ensures { result ≡ slice_index self.now.granted.items recorder }
    {
        self.granted.get(recorder as usize).copied().unwrap_or(0)
    }

    // How many recordings may still be granted.
    pub(crate) fn spare(&self) -> u64
        ensures { result ≡ self.now.spare }
    {
        self.spare
    }
}
