//! A law of the tables that `read_tables` reads.
ghost use Rattle.shell_tables_json.specs.Split.{ReadTablesSplitCharacters};

/// Tables that are read from JSON split characters alone: a number that is no character has no decomposition.
pub fn law_read_tables_split_characters()
    ensures { ReadTablesSplitCharacters }
{}
