//! The table `kern` (OpenType, chapter kern; Apple's version 1.0) as lookups and features of GPOS.
#![tactic(auto)]

pub mod classes;
pub mod features;
pub mod gpos;
pub mod kerning;
pub mod lookups;
pub mod marks;
pub mod order;
pub mod pairs;
pub mod scripts;
pub mod subtables;
pub mod systems;

pub use gpos::with_kerning;
