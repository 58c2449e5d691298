//! GDEF, and of GSUB and GPOS all but the subtables of lookups, from their bytes (OpenType, chapter 2; GDEF).
#![tactic(auto)]

pub mod definition;
pub mod features;
pub mod header;
pub mod lists;
pub mod lookups;
pub mod scripts;
pub mod subtables;
pub mod tagged;
pub mod variations;

pub use definition::read_gdef;
