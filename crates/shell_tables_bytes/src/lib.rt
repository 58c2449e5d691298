//! Reads tables from bytes: sections of records of one width, after a header that says where they are.
#![tactic(auto)]

mod characters;
mod fault;
mod languages;
mod records;
mod runs;
mod sections;
mod syllables;

pub use characters::read_characters;
pub use fault::BinaryFault;
pub use languages::read_languages;
pub use sections::HEADER;
pub use syllables::read_syllables;
