//! Laws of the order in a syllable.
ghost use Rattle.script_universal.specs.Reordering.{UniversalPermutes};

/// The reordering permutes each syllable by itself.
#[tactic(auto, using(crate::proofs::Permuted::universal_permutes))]
pub fn law_universal_permutes()
    ensures { UniversalPermutes }
{}
