//! Tests of a font, tables and texts: whether the texts are canonically equivalent, and are normalized alike then.
#![tactic(auto)]

pub mod equivalence;
pub mod laws;
pub mod texts;

pub use equivalence::are_equivalent;
pub use texts::{has_full_expansion, has_short_runs, is_regular};
