//! Laws of a character map that a client sets.
ghost use Rattle.layout_face.specs.CharacterMap.{NominalGlyphIsSet, VariationGlyphIsSet};

/// A character has the glyph that was set for it, or none, and each other one has its own.
#[tactic(auto, using(crate::proofs::MapLaws::nominal_glyph_is_set))]
pub fn law_nominal_glyph_is_set()
    ensures { NominalGlyphIsSet }
{}

/// A variation sequence has the glyph that was set for it, or none, and each other one has its own.
#[tactic(auto, using(crate::proofs::MapLaws::variation_glyph_is_set))]
pub fn law_variation_glyph_is_set()
    ensures { VariationGlyphIsSet }
{}
