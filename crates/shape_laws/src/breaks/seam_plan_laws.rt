//! Plans of shapers that find no syllables leave the item after a break its own, and no plan has a pause in GPOS.
ghost use Rattle.shape_laws.specs.Breaks.SeamPlans.{ItemwisePausesKeepSeams, PlannedPositioningEndsPlainly, PlannedSubstitutionKeepsSeams};

/// Pauses that change each glyph by itself are divisible at the seam.
pub fn law_itemwise_pauses_keep_seams()
    ensures { ItemwisePausesKeepSeams }
{}

/// All substitution by the plan of a shaper that finds no syllables is divisible at the seam.
pub fn law_planned_substitution_keeps_seams()
    ensures { PlannedSubstitutionKeepsSeams }
{}

/// No GPOS stage of a plan ends with a pause.
pub fn law_planned_positioning_ends_plainly()
    ensures { PlannedPositioningEndsPlainly }
{}
