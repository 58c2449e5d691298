//! Normalizing on the buffer.
mod in_place;
pub(crate) mod indic;
pub(crate) mod lists;
mod rows;
mod texts;
