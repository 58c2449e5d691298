//! Tests of the premises of safe breaks: of tables and fonts, and of cuts of texts.
//!
//! The wanted values of tables that ship are by another reading of their rows, with the general categories of Python's
//! `unicodedata`; those of small tables and of texts are by hand, from the premises of the law.
#![tactic(auto)]

#[cfg(test)]
mod cuts;
#[cfg(test)]
mod data;
#[cfg(test)]
mod premises;
