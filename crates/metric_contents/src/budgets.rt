//! The budgets of a recorder.
ghost use Rattle.std.specs.Prelude.{◌≡◌, find};
ghost use Rattle.std.specs.Option.{option_copied};
ghost use Rattle.metric_contents.specs.Budgets.{amount_of, is_budget};

use crate::contents::{Budget, Recorder};

impl Recorder {
    /// How many recordings the recorder may make on an instrument: 0 where it declares no budget.
    pub fn budget(&self, instrument: u32) -> u64
        ensures { result ≡ amount_of self.now instrument }
    {
        match budget_for(self.budgets.as_slice(), instrument) {
            Some(budget) => budget.amount,
            None => 0,
        }
    }
}

fn budget_for(budgets: &[Budget], instrument: u32) -> Option<&Budget>
    ensures { option_copied result ≡ find (is_budget instrument) budgets.now }
{
    budgets
        .iter()
        .find(|budget| budget.instrument == instrument)
}
