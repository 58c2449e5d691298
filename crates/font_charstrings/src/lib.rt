//! Charstrings of type 2 (Adobe TN 5177; OpenType, chapter CFF2): the control boxes of what they draw; INDEX (TN 5176).
#![tactic(auto)]

pub mod index;
pub mod laws;
pub mod machine;
pub mod numbers;
pub mod operators;
pub mod paths;
pub mod pen;
