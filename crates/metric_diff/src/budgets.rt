//! Which budgets of recorders differ.
ghost use Rattle.std.specs.Prelude.{◌≡◌, ◌++◌, OnOk, find, slice_get};
ghost use Rattle.std.specs.List.{position_from};
ghost use Rattle.std.specs.Option.{option_copied, option_map};
ghost use Rattle.std.specs.Str.{bytes_eq};
ghost use Rattle.metric_contents.specs.Budgets.{amount_of, is_budget};
ghost use Rattle.metric_diff.specs.Instruments.{budget_with, recorder_named};
ghost use Rattle.metric_diff.specs.Placed.{placed_recorder};

use crate::change::Change;
use crate::each::Teller;
use crate::parts::{Numbers, add_when};
use metric_base::Items;
use metric_contents::{Budget, Recorder};
use std::alloc::AllocError;

/// A recorder with its number.
#[derive(Clone, Copy)]
pub(crate) struct PlacedRecorder<'r> {
    pub(crate) number: usize,
    pub(crate) recorder: &'r Recorder,
}

/// The budgets of old recorders for an instrument, beside those of the new recorders for another one.
#[derive(Clone, Copy)]
pub(crate) struct Budgets<'r> {
    pub(crate) of: Numbers,
    pub(crate) others: &'r [Recorder],
}

impl Teller<Recorder> for Budgets<'_> {
    ghost use Rattle.metric_diff.specs.Instruments.{budget};

    ghost told = { λ these recorder. budget these.of.old these.of.new these.others.now recorder };

    fn tell(
        &self,
        changes: &mut Items<Change>,
        number: usize,
        recorder: &Recorder,
    ) -> Result<(), AllocError> {
        let found = recorder_named(self.others, recorder.name.as_str());
        add_budget(changes, self.of, PlacedRecorder { number, recorder }, found)
    }
}

// Puts last that two recorders have other budgets for the instruments of these numbers.
fn add_budget(
    changes: &mut Items<Change>,
    of: Numbers,
    recorder: PlacedRecorder<'_>,
    found: Option<PlacedRecorder<'_>>,
) -> Result<(), AllocError>
    ensures { OnOk result (changes.new ≡ changes.old ++ budget_with of.old of.new
        (placed_recorder recorder.entry) (option_map placed_recorder found.entry)) }
{
    let Some(other) = found else {
        return Ok(());
    };
    let before = amount(recorder.recorder, of.old);
    let after = amount(other.recorder, of.new);
    let change = Change::BudgetChanged {
        old: of.old,
        new: of.new,
        recorder: recorder.number,
        other: other.number,
        is_less: after < before,
    };
    add_when(changes, before != after, change)
}

// How many recordings a recorder may make on the instrument of a number: 0 where it declares no budget.
fn amount(recorder: &Recorder, instrument: usize) -> u64
    ensures { result ≡ amount_of recorder.now instrument }
{
    match budget_for(recorder.budgets.as_slice(), instrument) {
        Some(budget) => budget.amount,
        None => 0,
    }
}

fn budget_for(budgets: &[Budget], instrument: usize) -> Option<&Budget>
    ensures { option_copied result ≡ find (is_budget instrument) budgets.now }
{
    budgets
        .iter()
        .find(|budget| budget.instrument as usize == instrument)
}

// The first recorder of a name, with its number.
fn recorder_named<'r>(recorders: &'r [Recorder], name: &str) -> Option<PlacedRecorder<'r>>
    ensures { option_map placed_recorder result ≡ recorder_named recorders.entry.now name.now }
{
    let number = place_of(recorders, name)?;
    let recorder = recorder_at(recorders, number)?;
    Some(PlacedRecorder { number, recorder })
}

fn place_of(recorders: &[Recorder], name: &str) -> Option<usize>
    ensures { result
        ≡ position_from (λ recorder. bytes_eq recorder.name name.now) 0 recorders.now }
{
    recorders
        .iter()
        .position(|recorder| recorder.name.as_str() == name)
}

fn recorder_at(recorders: &[Recorder], number: usize) -> Option<&Recorder>
    ensures { option_copied result ≡ slice_get recorders.now number }
{
    recorders.get(number)
}
