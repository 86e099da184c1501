//! What is left for the recorders of an instrument.
ghost use Rattle.std.specs.Prelude.{◌≡◌, slice_index, OnErr, OnOk};
ghost use Rattle.metric_core.specs.CellAnswers.{KeepsJournal};
ghost use Rattle.metric_hosted.specs.Budgets.{AnswersAsking, TellsBudget, budget_at, spare_of};
ghost use Rattle.metric_hosted.specs.Grants.{with_granted};
ghost use Rattle.metric_marked.specs.Marks.{StandsMarked};

use crate::instrument::Hosted;
use metric_contents::Refusal;
use metric_plan::Plan;
use metric_seat::RecorderSeat;

/// The recordings that a recorder may make on an instrument, and those that it has made.
#[repr(C)]
#[derive(Clone, Copy, Debug, PartialEq, Eq, Drop)]
pub struct Budget {
    /// How many the catalogue declares.
    pub declared: u64,
    /// How many were granted beside these.
    pub granted: u64,
    /// How many were made.
    pub spent: u64,
    /// How many are left.
    pub left: u64,
}

/// The recordings that may be granted to the recorders of an instrument beside their budgets.
#[repr(C)]
#[derive(Clone, Copy, Debug, PartialEq, Eq, Drop)]
pub struct Spare {
    /// How many the catalogue declares.
    pub declared: u64,
    /// How many of them were granted.
    pub granted: u64,
    /// How many are left.
    pub left: u64,
}

impl Hosted {
    /// The recordings that may be granted beside the budgets.
    pub fn spare(&self) -> Spare
        ensures { result ≡ spare_of self.now }
    {
        let declared = self.cell().facts().spare;
        let left = self.cell().spare();
        Spare {
            declared,
            granted: declared.saturating_sub(left),
            left,
        }
    }

    // What the recorder of a number may record, and has recorded.
    fn budget_at(&self, recorder: u32) -> Budget
        ensures { result ≡ budget_at self.now recorder }
    {
        let declared = self.declared_of(recorder);
        let granted = self.cell().granted(recorder);
        let spent = self.cell().spent(recorder);
        let left = declared.saturating_add(granted).saturating_sub(spent);
        Budget {
            declared,
            granted,
            spent,
            left,
        }
    }

    // How many recordings the catalogue declares for a recorder; none for one of another number.
    fn declared_of(&self, recorder: u32) -> u64
        ensures { result ≡ slice_index self.now.cell.facts.budgets recorder }
    {
        let budgets = self.cell().facts().budgets.as_slice();
        budgets.get(recorder as usize).copied().unwrap_or(0)
    }

    /// What the recorder of a seat may record, and has recorded. The plan is that of the seat.
    ///
    /// # Errors
    ///
    /// `Stranger` where the seat is of another run, or of a plan that does not have the instrument's facts.
    pub fn budget_of(&self, plan: &Plan, seat: &RecorderSeat) -> Result<Budget, Refusal>
        ensures { TellsBudget plan.now self.now seat.now result }
    {
        match self.told_of(plan, seat) {
            Ok(_) => Ok(self.budget_at(seat.number())),
            Err(_) => Err(Refusal::Stranger),
        }
    }

    /// Asks for so many recordings of the recorder of a seat beside its budget, of what is left of the instrument's
    /// spare budget. The plan is that of the seat. Allocates no memory.
    ///
    /// # Errors
    ///
    /// `Stranger` where the seat is of another run, or of a plan that does not have the instrument's facts; else those
    /// of [`Hosted::grant`].
    pub fn ask(&mut self, plan: &Plan, seat: &RecorderSeat, amount: u64) -> Result<(), Refusal>
        ensures answer { AnswersAsking plan.now self.old seat.now amount result }
        ensures new { let recorder = seat.now.number in
            OnOk result (self.new ≡ with_granted self.old recorder amount) }
        ensures stands { OnOk result (
            KeepsJournal StandsMarked self.old.cell self.new.cell) }
        ensures err { OnErr result (self.new ≡ self.old) }
    {
        match self.told_of(plan, seat) {
            Ok(_) => self.grant(seat.number(), amount),
            Err(_) => Err(Refusal::Stranger),
        }
    }
}
