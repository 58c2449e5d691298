//! Worked rows of lists of glyphs, of the buffer's calls, of texts and printed glyphs, and of the numbers of flags and
//! other types.
//!
//! Each module of tests has a line `#[cfg(test)]`, since the gate also proves the crate without its tests: with none of
//! these lines it would prove every function twice.
#![tactic(auto)]

#[cfg(test)]
mod call;
#[cfg(test)]
mod call_words;
#[cfg(test)]
mod growth;
#[cfg(test)]
mod in_place;
#[cfg(test)]
mod lists;
#[cfg(test)]
mod memory;
#[cfg(test)]
mod parts;
#[cfg(test)]
mod rows;
#[cfg(test)]
mod settings;
#[cfg(test)]
mod texts;
#[cfg(test)]
mod types;
