//! What the definitions of a run come to, in words that do not follow the code.
ghost use Rattle.std.specs.Prelude.{◌≡◌, ℕ, List, ◌∷◌};
ghost use Rattle.std.specs.Cmp.Lexicographic.{slice_cmp};
ghost use Rattle.std.specs.List.Sorted.{IsPermutation, IsSorted};
ghost use Rattle.std.specs.Ordering.{nat_cmp};
ghost use Rattle.metric_views.specs.declared.stream.Stream.{Stream};
ghost use Rattle.metric_history.specs.declared.entry.Entry.{Entry};
ghost use Rattle.metric_history.specs.Legal.{KeepsLegal};
ghost use Rattle.metric_history.specs.Points.{CountsOnce, ascending as in_order};
ghost use Rattle.metric_history.specs.Series.{distinct, others};

/// The keys in ascending order are the keys, and none of them comes before the one that it follows.
pub fn ascending_sorts_keys()
    ensures keys { (keys : List (List ℕ)) → IsPermutation keys (in_order keys) }
    ensures sorted { (keys : List (List ℕ)) → IsSorted (slice_cmp nat_cmp) (in_order keys) }
{}

/// The distinct keys are the first key, and the distinct ones of the others.
#[tactic(auto, using(crate::proofs::Distinct::distinct_laws))]
pub fn distinct_drops_repetitions()
    ensures { (key : List ℕ) (keys : List (List ℕ))
        → distinct (key ∷ keys) ≡ key ∷ others key (distinct keys) }
{}

/// Each recording of a window belongs to exactly one of a stream's points: it is counted once.
#[tactic(auto, using(crate::proofs::CountedOnce::counted_once))]
pub fn recordings_are_counted_once()
    ensures { (s : Stream) (window : List Entry) → CountsOnce s window }
{}

/// What a run adds to a legal history makes a legal history.
#[tactic(auto, using(crate::proofs::LegalLaws::legal_grown))]
pub fn runs_keep_histories_legal()
    ensures { KeepsLegal }
{}
