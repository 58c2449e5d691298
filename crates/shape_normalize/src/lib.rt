//! The normal form of a text for a font, round by round on the buffer, with the requests of the rounds to a shaper
//! (rustybuzz: hb/ot_shape_normalize.rs).
#![tactic(auto)]

pub mod characters;
pub mod composing;
pub mod expanding;
mod fronts;
pub mod joiners;
mod kept_runs;
mod known_glyphs;
pub mod normalize;
pub mod normalizing;
pub mod ordering;
mod outputting;
pub mod rounds;
mod searching;
mod selecting;
pub mod starters;
mod undecomposed;

/// A list of this length or more is searched to its end, so that several glyphs are tested at once.
const SEVERAL: usize = 16;
