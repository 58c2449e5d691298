//! Tests of fonts, of a font's tables and of the default tables, which are read from bytes: what they are read as.
//!
//! Each module of tests has a line `#[cfg(test)]`, since the gate also proves the crate without its tests: with none of
//! these lines it would prove every function twice.
#![tactic(auto)]

#[cfg(test)]
mod bytes;
#[cfg(test)]
mod carets;
#[cfg(test)]
mod cff;
#[cfg(test)]
mod character_map;
#[cfg(test)]
mod cmap;
#[cfg(test)]
mod contexts;
#[cfg(test)]
mod coverages;
#[cfg(test)]
mod fonts;
#[cfg(test)]
mod kern;
#[cfg(test)]
mod lists;
#[cfg(test)]
mod positions;
#[cfg(test)]
mod rows;
#[cfg(test)]
mod substitutions;
#[cfg(test)]
mod tables;
