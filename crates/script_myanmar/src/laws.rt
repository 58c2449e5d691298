//! Laws of the order in a Myanmar syllable.
ghost use Rattle.script_myanmar.specs.Myanmar.{MyanmarPermutes};

/// The reordering of Myanmar permutes each syllable by itself.
#[tactic(auto, using(crate::proofs::MyanmarPermuted::myanmar_permutes))]
pub fn law_myanmar_permutes()
    ensures { MyanmarPermutes }
{}
