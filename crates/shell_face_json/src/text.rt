//! Reads a font from a JSON text: key by key, so that a large font takes little more memory than its records, or else
//! whole, with the fault that comes first.

mod definition;
mod face;
mod found;
mod keys;
mod rows;
mod table;

pub use face::{read_by_keys, read_face_text};
