//! Laws of source slices.
//!
//! What a caller can test of their premises: the clusters of glyphs fit the text, and are in order: `slices_fit`. The slices
//! are those of the glyphs: `source_slices` makes them. Neighbours of one cluster have one set of flags in each result of
//! `shape`, by `shape_pipeline`'s law `law_texts_are_even`.
ghost use Rattle.shape_slices.specs.Laws.{RunsHaveOneFlagSet, SourceSlicesAreText, SourceSlicesJoin};

/// Slices cover the whole text, in the order of the line.
pub fn law_source_slices_join()
    ensures { SourceSlicesJoin }
{}

/// The bytes of all slices, in the order of the text, are the text.
pub fn law_source_slices_are_text()
    ensures { SourceSlicesAreText }
{}

/// Each run has one set of glyph flags, where neighbouring glyphs of one cluster have the same.
pub fn law_runs_have_one_flag_set()
    ensures { RunsHaveOneFlagSet }
{}
