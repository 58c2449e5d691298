//! Laws of the tables that `UnicodeTables::new` makes.
//!
//! What a caller can test of their premise, that rows have no fault: the clause `sound` of `UnicodeTables::new`.
ghost use Rattle.shape_premises.specs.Texts.{CheckedTablesSplitCharacters};

/// Tables whose rows have no fault split characters alone: a number that is no character has no decomposition.
#[tactic(auto, using(crate::proofs::Checked::checked_tables_split_characters))]
pub fn law_checked_tables_split_characters()
    ensures { CheckedTablesSplitCharacters }
{}
