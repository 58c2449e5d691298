//! Contexts and chained contexts of GSUB and GPOS, from their bytes (OpenType, chapter 2, sequence context and chained
//! sequence context formats 1 to 3).
#![tactic(auto)]

pub mod arrays;
pub mod classes;
pub mod contexts;
pub mod coverages;
pub mod few;
pub mod rules;
pub mod sets;

pub use contexts::read_context;
