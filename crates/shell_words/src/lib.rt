//! Parses the command-line words of the two programs.
#![tactic(auto)]

mod command;
mod font_options;
mod options;

pub use font_options::{FontCommand, FontLine, parse_font_options};
pub use options::{CommandLine, parse_options};
