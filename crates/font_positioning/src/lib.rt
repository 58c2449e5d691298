//! The subtables of positions from their bytes (OpenType, GPOS lookup types 1 to 6; contexts have a crate of their own).
//! Each reader answers none for a subtable of an unknown format, which is left out. Devices are passed over.
#![tactic(auto)]

mod anchors;
mod classes;
pub mod cursive;
pub mod marks;
pub mod pair;
mod pair_sets;
pub mod single;
mod values;

pub use cursive::read_cursive_pos;
pub use marks::{read_mark_base_pos, read_mark_lig_pos};
pub use pair::read_pair_pos;
pub use single::read_single_pos;
