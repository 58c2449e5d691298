//! The Indic shaper for the nine scripts of India (rustybuzz: hb/ot_shaper_indic.rs): its scripts' values, the forms and
//! masks that it reads of a font, the categories, decompositions and compositions of its characters, and its two pauses.
#![tactic(auto)]

pub mod categories;
pub mod characters;
pub mod config;
pub mod font_forms;
pub mod masks;
pub mod reordering;
pub mod requests;
pub mod would_substitute;
