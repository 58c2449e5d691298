//! Properties of characters by tables that a caller gives (rustybuzz: hb/unicode.rs, with tables in code).
#![tactic(auto)]

pub mod character;
mod depth;
mod expansion;
pub mod hangul;
pub mod law_fault;
pub mod laws;
pub mod records;
mod second_halves;
pub mod tables;

pub use buffer_unicode::{TablesFault, UnicodeRows};
pub use character::CharTablesExt;
pub use hangul::{compose_hangul, decompose_hangul, law_hangul_pairs_are_splits};
pub use law_fault::LawFault;
pub use records::UnicodeRecords;
pub use tables::{UnicodeTables, compose, decompose};
