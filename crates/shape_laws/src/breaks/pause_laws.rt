//! Shapers' pauses between GSUB stages: those that change each glyph by itself are divisible, and GSUB with them. These are
//! all pauses of the shapers that find no syllables.
ghost use Rattle.shape_laws.specs.Breaks.Pauses.{CompiledPausesAreItemwise, ItemwisePausesAreDivisible, ItemwiseSubstitutionIsDivisible, TileRecordsAreDivisible};
ghost use Rattle.shape_laws.specs.Breaks.PlannedPauses.{PlannedPausesAreItemwise, PlannedSubstitutionIsDivisible};

/// Recording the tiles of stretched words is divisible.
pub fn law_tile_records_are_divisible()
    ensures { TileRecordsAreDivisible }
{}

/// Pauses that change each glyph by itself are divisible.
pub fn law_itemwise_pauses_are_divisible()
    ensures { ItemwisePausesAreDivisible }
{}

/// A map's stages have such pauses where each request for a pause is for such a one.
pub fn law_compiled_pauses_are_itemwise()
    ensures { CompiledPausesAreItemwise }
{}

/// All substitution by a map with such pauses is divisible.
pub fn law_itemwise_substitution_is_divisible()
    ensures { ItemwiseSubstitutionIsDivisible }
{}

/// The pauses of a plan whose shaper finds no syllables change each glyph by itself.
pub fn law_planned_pauses_are_itemwise()
    ensures { PlannedPausesAreItemwise }
{}

/// All substitution by such a plan is divisible: it keeps a text divided, or makes it unsafe to break there.
pub fn law_planned_substitution_is_divisible()
    ensures { PlannedSubstitutionIsDivisible }
{}
