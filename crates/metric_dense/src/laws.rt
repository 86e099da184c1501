//! What ranks are good for. The functions do nothing.
ghost use Rattle.std.specs.Prelude.{ℕ, Bool, List};
ghost use Rattle.metric_facts.specs.declared.facts.KeyFacts.{KeyFacts};
ghost use Rattle.metric_facts.specs.Ranks.{IsBelow};
ghost use Rattle.metric_dense.specs.RankLaws.{GivesBack, KeepsOrder, RanksBack};

/// The rank of a full set is below the product of the radices and gives back its series, so that full sets of one
/// rank are of one series. The set of a rank has that rank, and the sets of ranks are ordered as the ranks are.
pub fn ranks_are_places_of_series()
    ensures below { (kept : List Bool) (keys : List KeyFacts) (set : List ℕ)
        → IsBelow kept keys set }
    ensures series { (pad : ℕ) (kept : List Bool) (keys : List KeyFacts) (set : List ℕ)
        → GivesBack pad kept keys set }
    ensures ranks { (pad : ℕ) (kept : List Bool) (keys : List KeyFacts) (r : ℕ)
        → RanksBack pad kept keys r }
    ensures order { (pad : ℕ) (kept : List Bool) (keys : List KeyFacts) (a b : ℕ)
        → KeepsOrder pad kept keys a b }
{}
