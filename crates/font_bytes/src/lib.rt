//! Numbers, records and tables at offsets of a font file's bytes, and the faults of a font file and of its tables.
#![tactic(auto)]

pub mod directory;
pub mod fault;
pub mod font_fault;
pub mod room;
pub mod table_names;
pub mod words;

pub use directory::{font_count, font_table, table_directory};
pub use fault::TableFault;
pub use font_fault::FontFault;
pub use room::Room;
pub use table_names::FontTable;
