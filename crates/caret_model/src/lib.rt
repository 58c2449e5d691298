//! Carets of a shaped line: where one may stand in a text and at which position, the nearest one to a position, the next
//! ones along the line and in the text, slices and selections. rustybuzz leaves this to its callers. The crate stands on the
//! calls and laws of `kuspveli` alone.
#![tactic(auto)]

mod carets;
pub mod laws;
mod ligatures;
mod line;
mod model;
mod moves;
#[cfg(test)]
mod rows;
mod stops;

pub use carets::{Caret, CaretFault, Selection};
pub use model::CaretModel;
