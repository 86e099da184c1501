//! What a certified plan says of each of its instruments.
ghost use Rattle.std.specs.Prelude.{IsTrue};
ghost use Rattle.metric_slot.specs.SlotAnswers.{WithinReports};
ghost use Rattle.metric_slot.specs.Slots.{AreCertified};

use metric_plan::Plan;
use metric_safety::laws::{journals_are_bounded, safe_plans_run_safely};

/// The facts of each instrument of a certified plan are those of a certified plan, and safe.
pub fn certified_facts_are_safe(plan: &Plan)
    requires { IsTrue plan.now.is_certified }
    ensures { AreCertified plan.now.facts.instruments }
{
    // For the proof alone: what a plan and a catalogue keep.
    let _ = plan.catalogue().instruments();
    safe_plans_run_safely();
}

/// A batch that goes on where the reader's last one ended, and reports recordings that a certified instrument may have
/// accepted, is within the bounds of the instrument.
pub fn journal_reports_are_within()
    ensures { WithinReports }
{
    journals_are_bounded();
}
