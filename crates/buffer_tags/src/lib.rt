//! What is named by tags: requests for features of a font, with the parser of their texts (rustybuzz: hb/common.rs,
//! `Feature`; hb/text_parser.rs), and languages with their OpenType tags (hb/tag_table.rs).
#![tactic(auto)]

pub mod feature;
pub mod language_table;
pub mod text_parser;
