//! What set keys that a host writes itself stand for.
ghost use Rattle.wormweekly_c.specs.Expected.{CallsAreTheirTexts, ExpectedRanksName};
ghost use Rattle.wormweekly_c.specs.Ranks.{KeysAreTheirTexts, RanksAreTold, RanksNameSets};

/// Each full set of an instrument's keys is what the attributes of its entries name, and these are refused exactly where it is
/// not allowed.
pub fn ranks_name_sets()
    ensures { RanksNameSets }
{}

/// Set keys that differ name attributes that differ.
#[tactic(auto, using(crate::proofs::NamedSets::ranks_are_told))]
pub fn ranks_are_told()
    ensures { RanksAreTold }
{}

/// A recording of such a set key is admitted as the one with the attributes that it names, so both are answered and kept alike.
#[tactic(auto, using(crate::proofs::NamedKeys::keys_are_their_texts))]
pub fn keys_are_their_texts()
    ensures { KeysAreTheirTexts }
{}

/// Where the keys of an instrument mean what a program was made for, its ranks name the attributes that the program means.
pub fn expected_ranks_name()
    ensures { ExpectedRanksName }
{}

/// Where an instrument means what a program was made for, a recording of the program's ranks is the one with the attributes
/// that the program means.
#[tactic(auto, using(crate::proofs::NamedKeys::calls_are_their_texts))]
pub fn calls_are_their_texts()
    ensures { CallsAreTheirTexts }
{}
