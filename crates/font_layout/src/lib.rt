//! GSUB and GPOS, from their bytes (OpenType, chapter 2; GSUB, GPOS).
#![tactic(auto)]

pub mod contexts;
pub mod positioning;
pub mod substitution;
pub mod tables;

pub use tables::{read_gpos, read_gsub};
