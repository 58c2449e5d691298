//! The pipeline stages on glyphs keep the parts of a text, reverse no list and leave its direction.
ghost use Rattle.shape_parts.specs.StageLaws.{FallbackClassesStayInLine, FontClassesStayInLine, GlyphsStayInLine, IgnorablesStayInLine, SelectorsStayInLine, SpreadStaysInLine, SynthesizedClassesStayInLine};

/// The classes for fallback positioning keep the parts.
pub fn law_fallback_classes_stay_in_line()
    ensures { FallbackClassesStayInLine }
{}

/// Glyphs in place of characters keep the parts.
pub fn law_glyphs_stay_in_line()
    ensures { GlyphsStayInLine }
{}

/// GDEF classes keep the parts.
pub fn law_font_classes_stay_in_line()
    ensures { FontClassesStayInLine }
{}

/// Synthesized classes keep the parts.
pub fn law_synthesized_classes_stay_in_line()
    ensures { SynthesizedClassesStayInLine }
{}

/// Variation selectors that are shown keep the parts.
pub fn law_selectors_stay_in_line()
    ensures { SelectorsStayInLine }
{}

/// Default ignorables that are hidden or deleted keep the parts.
pub fn law_ignorables_stay_in_line()
    ensures { IgnorablesStayInLine }
{}

/// The spread of glyph flags keeps the parts.
pub fn law_spread_stays_in_line()
    ensures { SpreadStaysInLine }
{}
