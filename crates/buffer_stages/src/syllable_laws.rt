//! Laws of rules that are applied syllable by syllable.
ghost use Rattle.buffer_stages.specs.SyllableLaws.{PermutesEachSyllable};

/// A rule that permutes each list leaves each syllable permuted by itself.
#[tactic(auto, using(crate::specs::Lemmas::Permuted::permutes_each_syllable))]
pub fn law_permutes_each_syllable()
    ensures { PermutesEachSyllable }
{}
