//! What full sets are good for.
ghost use Rattle.metric_facts.specs.Facts.{EncodesAllowedSets};

/// The set key that attributes name is a full set of the instrument: for each declared key a declared value, or
/// none where the key may be absent. Where the instrument lists its combinations, the set key is one of them.
#[tactic(auto, using(crate::proofs::FullSets::encoded_sets_are_allowed))]
pub fn attributes_name_allowed_sets()
    ensures { EncodesAllowedSets }
{}
