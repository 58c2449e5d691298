//! A JSON text that is written a token at a time; and the tokens of values.
#![tactic(auto)]

mod json_text;

pub use json_text::JsonText;
