//! Laws of equivalent texts and of the normalised list.
ghost use Rattle.buffer_properties.specs.NormalLaws.{EquivalenceIsOneOrder, EquivalentsNormalizeAlike, ExpansionKeepsRunsShort, NormalizingKeepsEquivalence, NotFoundIsOfMissing};

/// Under lawful tables, texts are equivalent exactly where their full expansions have one class order.
#[tactic(auto, using(crate::proofs::Preserved::equivalence_is_one_order))]
pub fn law_equivalence_is_one_order()
    ensures { EquivalenceIsOneOrder }
{}

/// Under lawful tables, equivalent texts that meet the premises have the same normalised list, for a normaliser that
/// splits as far as it can and as Unicode does. It may compose and reorder as it likes.
#[tactic(auto, using(crate::proofs::Alike::equivalents_normalize_alike))]
pub fn law_equivalents_normalize_alike()
    ensures { EquivalentsNormalizeAlike }
{}

/// Under lawful tables, the characters of the normalised list are equivalent to the text, for a normaliser that splits
/// as Unicode does, composes nothing that Unicode doesn't and reorders no sorted run. The text has no variation
/// selector, and no long run of combining marks in its full expansion.
#[tactic(auto, using(crate::proofs::Preserved::normalizing_keeps_equivalence))]
pub fn law_normalizing_keeps_equivalence()
    ensures { NormalizingKeepsEquivalence }
{}

/// Under lawful tables, runs of combining marks that are short in the full expansion are short in what the font
/// supports of it.
#[tactic(auto, using(crate::proofs::Short::expansion_keeps_runs_short))]
pub fn law_expansion_keeps_runs_short()
    ensures { ExpansionKeepsRunsShort }
{}

/// The not-found glyph changes nothing of characters that the font has.
#[tactic(auto, using(crate::proofs::Missing::not_found_is_of_missing))]
pub fn law_not_found_is_of_missing()
    ensures { NotFoundIsOfMissing }
{}
