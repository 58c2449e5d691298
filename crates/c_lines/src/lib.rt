//! Lines and carets of the last text of a font that C holds. rustybuzz has no interface for C, and leaves lines and carets to
//! its callers.
#![tactic(auto)]

pub mod carets;
pub mod checked;
pub mod lines;
pub mod numbers;
pub mod rows;
pub mod types;
