//! The options of a run of the program, the reasons why it is refused, and the readers of its tables and its font.
#![tactic(auto)]

pub mod fault;
pub mod input;
pub mod laws;
pub mod options;
pub mod tables;
pub mod values;
