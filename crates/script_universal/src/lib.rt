//! The universal shaper: its features, masks and categories, its pauses, and the order of glyphs in a syllable.
#![tactic(auto)]

mod categories;
mod character_categories;
pub mod laws;
pub mod masks;
pub mod pauses;
pub mod reorder;
pub mod requests;
