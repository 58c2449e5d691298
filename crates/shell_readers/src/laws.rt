//! The laws of a run's input.

ghost use Rattle.shell_readers.specs.Laws.{FontsJoinTables, InputsAreOne};

/// Tables and a font have at most one result: the relation that specifies how they are read is a function.
#[tactic(auto, using(crate::proofs::Reading::inputs_are_one))]
pub fn law_inputs_are_one()
    ensures { InputsAreOne }
{}

/// Tables may be read once and shared: each font that is read after them is, with them, what `read_input` gives.
#[tactic(auto, using(crate::proofs::Reading::fonts_join_tables))]
pub fn law_fonts_join_tables()
    ensures { FontsJoinTables }
{}
