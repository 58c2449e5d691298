//! The lookups of a text are divisible: what they do to a text that may be broken at a cluster, they do to its fragments.
//!
//! What a caller can test of their premises: that PRODUCE_SAFE_BREAKS is set, and the level monotone; that a fragment has a
//! glyph; and what was spent of the limits, by `nested_lookups_left`.

pub mod backward_laws;
pub mod matching_laws;
pub mod member_laws;
pub mod pass_laws;
pub mod position_laws;
pub mod positioning_laws;
pub mod rule_laws;
pub mod seam_laws;
pub mod stage_laws;
