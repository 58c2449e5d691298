//! The library for C: the calls that `include/kuspveli.h` declares. rustybuzz has no interface for C.
#![tactic(auto)]

pub mod calls;
pub mod faults;
pub mod lines;
pub mod names;
pub mod queries;
pub mod settings;
#[cfg(test)]
mod tests;
