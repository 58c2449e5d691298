//! The shaper of Hebrew: composes presentation forms, and has its own order of marks.
#![tactic(auto)]

pub mod hebrew;
pub mod laws;
pub mod mark_order;
