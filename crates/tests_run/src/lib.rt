//! Runs of the program that no row of `tests_rows` can say: readers and writers that fail, files and streams, and texts
//! past 65,536 characters.
//!
//! Each module of tests has a line `#[cfg(test)]`, since the gate also proves the crate without its tests: with none of
//! these lines it would prove every function twice.
#![tactic(auto)]

#[cfg(test)]
mod long_texts;
#[cfg(test)]
mod memory;
#[cfg(test)]
mod program;
#[cfg(test)]
mod streams;
#[cfg(test)]
mod written_lines;
