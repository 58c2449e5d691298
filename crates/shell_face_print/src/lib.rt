//! Writes a font as the JSON text that the reader of fonts reads: each type with the form that the reader takes.
#![tactic(auto)]

mod contexts;
mod face;
mod font_rows;
mod lists;
mod lookups;
mod marks;
mod objects;
mod pairs;
mod positioning;
mod positions;
mod rows;
mod scripts;
mod substitution;
mod substitutions;
mod tags;
mod value;

pub use face::print_face;
