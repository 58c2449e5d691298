//! Laws of the order in a syllable.
ghost use Rattle.script_indic_reordering.specs.Orders.{FinalPermutes, InitialPermutes};

/// The initial reordering of Indic syllables permutes each of them by itself.
#[tactic(auto, using(crate::specs::Lemmas::InitialPermuted::initial_permutes))]
pub fn law_initial_permutes()
    ensures { InitialPermutes }
{}

/// The final reordering permutes each syllable by itself; the feature of words changes no number.
#[tactic(auto, using(crate::proofs::Lemmas::FinalPermuted::final_permutes))]
pub fn law_final_permutes()
    ensures { FinalPermutes }
{}
