//! What restrictions come to. The functions do nothing.
ghost use Rattle.std.specs.Prelude.{◌≡◌, ℕ, Bool, List};
ghost use Rattle.metric_combinations.specs.Restrictions.{AreRestrictions, restrictions};

/// The restrictions of rows rise strictly and are those of the rows, and no other list is and does so.
pub fn restrictions_are_those_of_rows()
    ensures listed { (kept : List Bool) (rows : List (List ℕ))
        → AreRestrictions kept rows (restrictions kept rows) }
    ensures only { (kept : List Bool) (rows list : List (List ℕ))
        → AreRestrictions kept rows list → list ≡ restrictions kept rows }
{}
