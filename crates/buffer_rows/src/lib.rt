//! Records whose keys rise strictly, and the search for the record of a key; the stable order of elements by a key.
#![tactic(auto)]

mod dense;
mod keyed;
pub mod laws;
mod numbered;
mod pages;
mod rows;
mod slots;

pub use dense::DenseRows;
pub use keyed::{Keyed, find_row, is_above, is_rising};
pub use numbered::{Numbered, first_from};
pub use pages::PagedRows;
pub use rows::SortedRows;
