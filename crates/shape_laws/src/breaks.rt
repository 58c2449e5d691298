//! Texts that are broken into two: what the pipeline stages on characters do to a text, they do to the two texts that it is
//! broken into, or make it unsafe to break there. All are laws of our own, which rustybuzz has not.
//!
//! What a caller can test of their premises:
//! - The text is in its script's direction (`IsNativeLine`), and the pieces have the settings of the whole but for the
//!   contexts between them and the ends that these lack (`AreBrokenSettings`).
//! - A mark is after the first character of both pieces or of none, and no U+034F is directly before the break
//!   (`AreNormalizedApart`).
//! - Contexts show the letters near (`ContextsShow`).

pub mod break_laws;
pub mod chain_laws;
pub mod glyph_laws;
pub mod laws;
pub mod pause_laws;
pub mod seam_plan_laws;
