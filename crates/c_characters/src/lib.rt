//! The characters of texts that C passes in UTF-16, in UTF-32, or one by one with clusters of the caller's own. rustybuzz
//! reads UTF-8 alone.
#![tactic(auto)]

pub mod characters;
pub mod contexts;
pub mod push;
pub mod units;
