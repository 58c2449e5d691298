//! The Indic shaper's orders of syllables, by listed forms and by the forms of fonts.
mod costs;
pub(crate) mod font_rows;
pub(crate) mod fonts;
mod forms;
pub(crate) mod rows;
mod text;
mod would_substitute;
