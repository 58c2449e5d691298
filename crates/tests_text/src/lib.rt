//! Tests of texts, characters, words, JSON values, tables, syllables and languages.
//!
//! Each module of tests has a line `#[cfg(test)]`, since the gate also proves the crate without its tests: with none of
//! these lines it would prove every function twice.
#![tactic(auto)]

#[cfg(test)]
mod characters;
#[cfg(test)]
mod faults;
#[cfg(test)]
mod features;
#[cfg(test)]
mod glyph_words;
#[cfg(test)]
mod machines;
#[cfg(test)]
mod names;
#[cfg(test)]
mod number_rows;
#[cfg(test)]
mod printing;
#[cfg(test)]
mod rows;
#[cfg(test)]
mod sorted;
#[cfg(test)]
mod syllables;
#[cfg(test)]
mod table_faults;
#[cfg(test)]
mod texts;
#[cfg(test)]
mod unicode_characters;
#[cfg(test)]
mod values;
#[cfg(test)]
mod words;
