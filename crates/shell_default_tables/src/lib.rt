//! The tables of Unicode 15.0 inside the library: the rows of `data/tables.json` as bytes.
#![tactic(auto)]

mod bytes;
mod tables;

pub use bytes::TABLES;
pub use shell_tables_bytes::BinaryFault;
pub use tables::{DefaultTables, default_tables};
