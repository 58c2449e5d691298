//! Which bytes of a text each run of glyphs of its result comes from: each run of one cluster has the bytes from its cluster to the
//! next greater one. rustybuzz leaves this to its callers.
#![tactic(auto)]

pub mod fitting;
pub mod laws;
pub mod slices;
