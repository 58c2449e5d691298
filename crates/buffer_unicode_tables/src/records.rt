//! The records of all tables.
use buffer_unicode::{
    CharacterClass, CharacterRange, Counterpart, IndicRow, JoiningRow, Pair, Split, ThaiRow,
    UniversalRow,
};

/// The records of all tables, each in the order of its keys.
#[derive(Drop)]
pub struct UnicodeRecords {
    pub splits: Vec<Split>,
    pub pairs: Vec<Pair>,
    pub classes: Vec<CharacterClass>,
    pub mirrored: Vec<Counterpart>,
    pub vertical: Vec<Counterpart>,
    /// Ranges of pictographic characters, in the order of their first characters.
    pub pictographic: Vec<CharacterRange>,
    pub joining: Vec<JoiningRow>,
    pub indic: Vec<IndicRow>,
    pub universal: Vec<UniversalRow>,
    /// Private forms of Thai, in the order of their characters and then of their actions.
    pub thai: Vec<ThaiRow>,
}
