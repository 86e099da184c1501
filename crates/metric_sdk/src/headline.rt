//! The headline, as laws.
ghost use Rattle.std.specs.Prelude.{IsTrue};
ghost use Rattle.metric_sdk.specs.Headline.{CertifiedRunsAreExact, RunsAreExact, SafeRunsAreExact};

use metric_check::valid_is_safe;
use metric_history::Book;
use metric_history::laws::{recordings_are_counted_once, runs_keep_histories_legal};
use metric_plan::Plan;
use metric_safety::laws::{safe_configs_give_safe_plans, safe_plans_have_safe_histories};

/// Where a catalogue and a config are safe together, a new core of their plan has after any number of runs, over every
/// order of recordings and collections: no two exported streams of one identity, no overflow point, no number outside
/// its 64 bits, no recording refused for a sum, and in each batch the points of what was accepted before it, each
/// recording counted once. So it is where a certificate is valid, whoever made it. The function does nothing.
pub fn certified_runs_are_exact<B: Book>()
    ensures safe { SafeRunsAreExact B.stands }
    ensures certified { CertifiedRunsAreExact B.stands }
{
    valid_is_safe();
    safe_configs_give_safe_plans();
    safe_plans_have_safe_histories();
    runs_keep_histories_legal();
    recordings_are_counted_once();
}

/// The same of a certified plan, with no premise left but those of the runs. The function does nothing.
pub fn certified_plans_run_exactly<B: Book>(plan: &Plan)
    requires { IsTrue plan.now.is_certified }
    ensures { RunsAreExact B.stands plan.now }
{
    // For the proof alone: what a plan and a catalogue keep.
    let _ = plan.catalogue().instruments();
    safe_plans_have_safe_histories();
    runs_keep_histories_legal();
    recordings_are_counted_once();
}
