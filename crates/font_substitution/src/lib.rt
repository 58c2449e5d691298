//! The subtables of substitutions from their bytes (OpenType, GSUB lookup types 1 to 4 and 8; contexts have a crate of
//! their own). Each reader answers none for a subtable of an unknown format, which is left out.
#![tactic(auto)]

mod glyphs;
pub mod ligature;
pub mod reverse;
pub mod sequence;
pub mod single;

pub use ligature::read_ligature_subst;
pub use reverse::read_reverse_subst;
pub use sequence::{read_alternate_subst, read_multiple_subst};
pub use single::read_single_subst;
