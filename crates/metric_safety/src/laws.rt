//! What a safe plan entails for each of its runs. The functions do nothing.
ghost use Rattle.std.specs.Prelude.{ℕ, Bool, List};
ghost use Rattle.metric_contents.specs.declared.contents.Contents.{Contents};
ghost use Rattle.metric_views.specs.declared.config.Config.{Config};
ghost use Rattle.metric_history.specs.History.{History};
ghost use Rattle.metric_history.specs.Legal.{IsLegal};
ghost use Rattle.metric_plan.specs.Plans.{PlanValue};
ghost use Rattle.metric_safety.specs.SafeRuns.{AreIdentified, AreWindowsBounded, AllKeepBudgets, GivesSafePlan, IsSafeHistory, IsSafePlan, IsSafeRun, NoSumRefuses, NothingOverflows, NumbersFit, OfSafeRuns};
ghost use Rattle.metric_safety.specs.WindowBounds.{BoundsJournals, BoundsReports, FitsJournals};

use metric_facts::laws::attributes_name_allowed_sets;
use metric_resolve::streams_are_what_views_give;

/// A sound catalogue and a config that are safe give a safe plan, whoever vouched for them.
#[tactic(auto, using(crate::proofs::PlanLaws::plan_of_safe))]
pub fn safe_configs_give_safe_plans()
    ensures { (is_certified : Bool) (by_product : List Bool) (contents : Contents) (config : Config)
        → GivesSafePlan is_certified by_product contents config }
{}

/// The facts of a safe plan are safe, with no two streams of one identity.
pub fn safe_plans_run_safely()
    ensures { (plan : PlanValue) → IsSafePlan plan → IsSafeRun plan.streams plan.facts }
{
    streams_are_what_views_give();
}

/// The recordings that an instrument of safe facts may have accepted stay bounded in every window: no more series than
/// the keys allow, or the combinations where these are listed, and than there are recordings, none of them the overflow
/// series (Metrics SDK, cardinality limits), counts and sums that add up, each number by the range and the number of
/// recordings. The next recording within the budgets is in range for each stream, whatever the marks of the readers.
/// And what a reader is told stays within the bounds for as many recordings as it covers.
pub fn journals_are_bounded()
    ensures bounded { BoundsJournals }
    ensures fits { FitsJournals }
    ensures reports { BoundsReports }
{}

/// The accepted recordings of an instrument are admitted, each recorder's are within its budget and what it was
/// granted, and no more than the spare budget was granted in all.
pub fn accepted_recordings_are_within_budgets()
    ensures { OfSafeRuns (λ _ facts start h. AllKeepBudgets facts start h) }
{
    attributes_name_allowed_sets();
}

/// Each window of each reader is bounded after every history.
pub fn windows_are_bounded()
    ensures { OfSafeRuns (λ _ facts start h. AreWindowsBounded facts start h) }
{
    attributes_name_allowed_sets();
}

/// Two different streams in batches differ in identity (Metrics data model, identity).
pub fn exported_streams_differ()
    ensures { OfSafeRuns (λ streams facts _ h. AreIdentified facts.contents streams h) }
{}

/// No recording that a batch covers belongs to the overflow series, and no batch has an overflow point
/// (Metrics SDK, cardinality limits).
pub fn no_series_overflows()
    ensures { OfSafeRuns (λ _ facts start h. NothingOverflows facts start h) }
{
    attributes_name_allowed_sets();
}

/// No recording is refused for the range of a sum, so a declared one within its recorder's budget and what it was
/// granted is accepted, unless the instrument is closed or memory runs out.
pub fn no_sum_refuses_a_recording()
    ensures { OfSafeRuns (λ _ facts start h. NoSumRefuses facts start h) }
{
    attributes_name_allowed_sets();
}

/// Each sum, least, greatest and last value of a batch is an `i64` and each count a `u64`, in every batch that
/// was answered or could be.
pub fn numbers_are_in_range()
    ensures { OfSafeRuns (λ _ facts start h. NumbersFit facts start h) }
{
    attributes_name_allowed_sets();
}

/// All of it for every legal history of a safe plan.
pub fn safe_plans_have_safe_histories()
    ensures { (plan : PlanValue) (start : ℕ) (h : History)
        → IsSafePlan plan → IsLegal plan.facts start h → IsSafeHistory plan start h }
{
    safe_plans_run_safely();
    exported_streams_differ();
    windows_are_bounded();
    no_series_overflows();
    no_sum_refuses_a_recording();
    numbers_are_in_range();
}
