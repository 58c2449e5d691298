//! Laws of our own, which rustybuzz has not: stages on glyphs of a text that is broken into two, up to what it shows.
ghost use Rattle.shape_laws.specs.Breaks.GlyphLaws.{FallbackMarksDivide, GlyphStagesDivide, GlyphsShowBoth, IgnorablesDivide, LinksDivide, VisualOrderDivides};

/// Stages that change glyphs and positions each by itself.
pub fn law_glyph_stages_divide()
    ensures { GlyphStagesDivide }
{}

/// Default ignorables, hidden or deleted.
pub fn law_ignorables_divide()
    ensures { IgnorablesDivide }
{}

/// Links of attached glyphs, where they lead inside the pieces.
pub fn law_links_divide()
    ensures { LinksDivide }
{}

/// Fallback positions of marks around their bases.
pub fn law_fallback_marks_divide()
    ensures { FallbackMarksDivide }
{}

/// The visual order of a line.
pub fn law_visual_order_divides()
    ensures { VisualOrderDivides }
{}

/// The stages from glyphs to the end: a text shows what its two pieces show, wherever it may be cut.
pub fn law_glyphs_show_both()
    ensures { GlyphsShowBoth }
{}
