//! Reads a font from a JSON value or a JSON text, with the fault that comes first.
#![tactic(auto)]

mod contexts;
pub mod face;
mod features;
mod font_rows;
pub mod glyphs;
mod lengths;
pub mod lists;
mod lookups;
mod marks;
mod numbers;
mod objects;
mod position_table;
mod positions;
pub mod rising;
mod rows;
mod scripts;
mod substitution_table;
mod substitutions;
mod text;
pub mod value;

pub use face::read_face;
pub use text::{read_by_keys, read_face_text};
