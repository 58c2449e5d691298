//! GPOS subtables that call no other lookup, applied at the cursor of a buffer without an output.
#![tactic(auto)]

pub mod anchor;
pub mod apply;
pub mod bases;
pub mod mark;
pub mod mark_lig;
pub mod mark_mark;
pub mod pair;
pub mod placing;
pub mod search;
pub mod single;
pub mod value;
