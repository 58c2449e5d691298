//! Matching: the glyphs that a rule requires, with skipped glyphs between them; a lookup applied at each glyph of a
//! buffer (rustybuzz: hb/ot_layout_gsubgpos.rs).
#![tactic(auto)]

pub mod apply_context;
pub mod laws;
pub mod lookup;
pub mod marking;
pub mod matching;
pub mod neighbours;
pub mod next_glyph;
pub mod search;
pub mod sequence;
pub mod skipping;
pub mod text_digest;

pub use apply_context::hb_ot_apply_context_t;
pub use matching::{
    MAX_CONTEXT_LENGTH, MatchPositions, input_end, match_backtrack, match_input, match_lookahead,
};
pub use neighbours::{neighbour_after, neighbour_before};
pub use next_glyph::{
    NextGlyph, NextGlyphs, flags_failures, next_for_rules, next_glyphs, next_input,
};
pub use search::{GlyphSearch, match_t};
pub use sequence::{MatchSequence, match_class, match_coverage, match_glyph};
pub use skipping::skipping_iterator_t;
pub use text_digest::{TextDigest, TextGlyphs};
