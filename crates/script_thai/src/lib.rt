//! The shaper of Thai and Lao: splits vowels, and takes private-use forms of marks.
#![tactic(auto)]

pub mod text;
pub mod thai_private;
pub mod thai_vowel;
