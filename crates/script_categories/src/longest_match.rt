//! The law of the longest match: no longer prefix is accepted.
ghost use Rattle.script_categories.specs.LongestMatch.{LongestIsLongest, LongestIsUnique};

/// A prefix that is found is accepted, and no longer prefix is; where none is found, no prefix is accepted.
#[tactic(auto, using(crate::proofs::Walks::is_longest))]
pub fn law_longest_is_longest()
    ensures { LongestIsLongest }
{}

/// The accepted prefix that no longer one exceeds is the one that is found.
#[tactic(auto, using(crate::proofs::Walks::is_unique))]
pub fn law_longest_is_unique()
    ensures { LongestIsUnique }
{}
