//! How many rows a face has that is read of a font file: the limits of docs/TOOLS.md bound them, whatever the file.
#![tactic(auto)]

pub mod laws;

pub use laws::{
    law_characters_are_bounded, law_definitions_are_bounded, law_face_is_bounded,
    law_kern_is_bounded, law_positions_are_bounded, law_substitutions_are_bounded,
};
