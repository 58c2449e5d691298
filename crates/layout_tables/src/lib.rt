//! The layout tables of a font (OpenType, chapter 2): scripts, language systems and features, sets of ligatures, and
//! the subtables of GSUB and GPOS: substitutions, positions, contexts (rustybuzz takes them from the crate
//! ttf-parser).
#![tactic(auto)]

pub mod choice;
pub mod context;
mod covers;
pub mod cursive;
mod fits;
mod indices;
pub mod item_rule;
mod keyed;
pub mod ligature;
pub mod mark;
pub mod pair;
pub mod pair_rows;
pub mod reverse;
pub mod rules;
pub mod script;
pub mod sequence;
pub mod single_pos;
pub mod single_subst;
pub mod table;
pub mod value;

pub use buffer_rows::{Keyed, is_above, is_rising};
