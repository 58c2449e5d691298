//! Reads JSON: numbers, rows and keys from values, with the fault that comes first; and a text one value at a time, so
//! that no more than that value is held in memory.
#![tactic(auto)]

pub mod cell;
pub mod fault;
pub mod items;
pub mod key_takers;
pub mod keys;
pub mod members;
pub mod number;
pub mod rows;
pub mod unread;
pub mod value;
