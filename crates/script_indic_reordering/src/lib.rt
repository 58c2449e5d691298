//! The two reorderings of Indic syllables, before and after their forms are made (rustybuzz: hb/ot_shaper_indic.rs).
#![tactic(auto)]

mod base;
pub mod consonants;
mod features;
pub mod final_order;
mod formed;
pub mod forms;
mod glyphs;
pub mod initial;
pub mod laws;
mod left;
mod positions;
mod reph;
pub mod script;
mod sought;
mod words;
