//! Lookups that can act at no glyph of a text may be left out.
ghost use Rattle.layout_laws.specs.Skipping.{SkippingPositionsAlike, SkippingSubstitutesAlike};

/// Skipping a GSUB lookup that covers no glyph of the text with a bit of its mask changes no glyph, position or flag.
#[tactic(auto, using(crate::proofs::Skipping::substituted_alike))]
pub fn law_skipping_substitutes_alike()
    ensures { SkippingSubstitutesAlike }
{}

/// Skipping a GPOS lookup that covers no glyph of the text with a bit of its mask changes no glyph, position or flag.
#[tactic(auto, using(crate::proofs::Skipping::positioned_alike))]
pub fn law_skipping_positions_alike()
    ensures { SkippingPositionsAlike }
{}
