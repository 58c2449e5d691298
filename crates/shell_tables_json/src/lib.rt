//! Reads tables from JSON values: rows of characters, names of numbers, languages, and the machines that find
//! syllables; and what the tables hold beside what their reader's clauses say.
#![tactic(auto)]

pub mod characters;
mod languages;
pub mod laws;
pub mod names;
pub mod rows;
mod syllables;
mod unicode;

pub use languages::read_languages;
pub use syllables::read_syllables;
pub use unicode::read_tables;
