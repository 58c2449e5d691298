//! Laws of printed texts.
ghost use Rattle.buffer_wrappers.specs.Shown.{EqualTextsShowEqualRuns};

/// The printed text determines the glyphs: with `NO_GLYPH_NAMES` and `GLYPH_FLAGS` and no other flag, runs of any
/// length with equal texts have equal numbers, clusters, offsets, advances and glyph flags.
#[tactic(auto, using(crate::proofs::ReadBack::equal_texts_show_equal_runs))]
pub fn law_equal_texts_show_equal_runs()
    ensures { EqualTextsShowEqualRuns }
{}
