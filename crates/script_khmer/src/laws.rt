//! Laws of the order in a Khmer syllable.
ghost use Rattle.script_khmer.specs.Khmer.{KhmerPermutes};

/// The reordering of Khmer permutes each syllable by itself.
#[tactic(auto, using(crate::proofs::KhmerPermuted::khmer_permutes))]
pub fn law_khmer_permutes()
    ensures { KhmerPermutes }
{}
